//! The literals of a closed list, and their rows.

ghost use Rattle.std.specs.Prelude.{◌≡◌, IfOk, reverse};
ghost use Rattle.df_form.specs.declared.log.Lit.{Lit};
ghost use Rattle.df_row.specs.Linear.{rows_of};
ghost use Rattle.df_closure.specs.Closure.{after};
ghost use Rattle.df_branch.specs.Facts.{TellsRows, AreSparse};

use df_form::{Lit, Over};
use df_level::Row;
use df_row::{RowFault, rows_of_literals};
use std::alloc::{AllocError, Global};

fn reversed(alloc: Global, literals: &[Lit]) -> Result<Vec<Lit>, AllocError>
    ensures { IfOk result (λ found. found.items ≡ reverse literals.now) }
{
    literals.iter().rev().copied().collect(alloc)
}

/// The literals of a closed list: what was learned, the last one first, and then the list.
pub(crate) fn facts(alloc: Global, list: &[Lit], learned: &[Lit]) -> Result<Vec<Lit>, AllocError>
    ensures { IfOk result (λ facts. facts.items ≡ after list.now learned.now) }
{
    let mut facts = reversed(alloc, learned)?;
    facts.extend_from_slice(list)?;
    Ok(facts)
}

/// The rows without their entries of coefficient 0.
fn sparse(alloc: Global, rows: &[df_row::Row]) -> Result<Vec<Row>, AllocError>
    ensures { IfOk result (λ sparse. AreSparse rows.now sparse.items) }
{
    let mut sparse = Vec::new(alloc);
    for row in rows {
        sparse.push(Row::of(alloc, row)?)?;
    }
    Ok(sparse)
}

/// The rows of literals; `None` exactly where a number of one is past 128 bits.
pub(crate) fn rows(
    alloc: Global,
    nodes: &Over,
    literals: &[Lit],
) -> Result<Option<Vec<Row>>, AllocError>
    ensures { IfOk result (TellsRows nodes.now literals.now) }
{
    match rows_of_literals(alloc, nodes, literals) {
        Ok(rows) => Ok(Some(sparse(alloc, &rows)?)),
        Err(RowFault::Refused) => Ok(None),
        Err(RowFault::Memory) => Err(AllocError),
    }
}
