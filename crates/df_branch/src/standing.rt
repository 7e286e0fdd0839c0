//! What the rows of a list come to, whatever clauses are open beside it.

ghost use Rattle.std.specs.Prelude.{◌≡◌, ℕ, true, IfOk, IsTrue, List, Some, map, length};
ghost use Rattle.std.specs.List.{list_all};
ghost use Rattle.df_form.specs.Sorting.{IsTable};
ghost use Rattle.df_form.specs.Clause.{are_literals};
ghost use Rattle.df_row.specs.Row.{Row as FunctionRow};
ghost use Rattle.df_form.specs.declared.log.Lit.{Lit};
ghost use Rattle.df_row.specs.RowView.{IsWithin};
ghost use Rattle.df_row.specs.Linear.{rows_of as linear_rows};
ghost use Rattle.df_level.specs.Levels.{rows_of, level_rows, Stands, HasFalse};
ghost use Rattle.df_level.specs.Elimination.{Eliminates, last_level};
ghost use Rattle.df_closure.specs.Closure.{ground_of, GroundClause as Clause};
ghost use Rattle.df_branch.specs.ClosedPlace.{IsClosedAt};
ghost use Rattle.df_branch.specs.Standing.{AreMet, TellsStanding};

use crate::facts::{facts, rows};
use crate::leaf::combinations;
use crate::point::all_hold;
use df_back::{Back, back};
use df_clause::GroundClause;
use df_closure::{Closure, close};
use df_elim::{Elimination, Levels, eliminate};
use df_form::{Combination, Lit, NodeTable, Over};
use df_level::Row;
use std::alloc::{AllocError, Global};

/// What the rows of a list come to.
#[derive(Drop)]
pub enum Standing {
    /// They aren't refuted. The numbers, if there are any, are proposed as a point of them.
    Stands(Option<Vec<i128>>),
    /// Propagation through the clauses of these numbers leaves nothing of the last one.
    Refuted(Vec<usize>),
    /// The combinations refute the rows of the closed list.
    Unsolvable {
        /// By which clauses the list was closed.
        reasons: Vec<usize>,
        /// The literals of the closed list.
        facts: Vec<Lit>,
        combinations: Vec<Combination>,
    },
    /// A number on the way is past 128 bits.
    Wide,
    /// A level comes to so many rows.
    Many(u64),
}

/// Whether all rows hold where each node has 0, or at the point.
fn are_met(rows: &[Row], point: &[i128]) -> bool
    ensures { IsTrue result → AreMet (rows_of rows.now) }
{
    all_hold(rows, &[]) || all_hold(rows, point)
}

/// The point of back substitution, where there is one.
fn point_of(alloc: Global, nodes: &Over, levels: &Levels) -> Result<Option<Vec<i128>>, AllocError>
    requires chain { Eliminates 0 (level_rows levels.now.first) levels.now.variables.items (map level_rows levels.now.others.items) }
    requires stands { HasFalse (last_level (level_rows levels.now.first) (map level_rows levels.now.others.items)) → ⊥ }
    requires within { (row : FunctionRow) → Stands row (level_rows levels.now.first) → IsWithin (length nodes.now) row }
{
    match back(
        alloc,
        nodes.len(),
        &levels.first,
        &levels.variables,
        &levels.others,
    )? {
        Back::Point(numbers) => Ok(Some(numbers)),
        Back::Between { .. } | Back::Wide => Ok(None),
    }
}

/// What elimination makes of the rows of a closed list.
fn eliminated(
    alloc: Global,
    nodes: &Over,
    rows: &[Row],
    reasons: Vec<usize>,
    facts: Vec<Lit>,
) -> Result<Standing, AllocError>
    requires table { IsTable nodes.now }
    requires formulas { are_literals nodes.now facts.items ≡ true }
    requires rows_are { linear_rows nodes.now facts.items ≡ Some (rows_of rows.now) }
    ensures { IfOk result (λ standing. (clauses : List Clause) (list : List Lit) → IsClosedAt clauses nodes.now list reasons.items facts.items → TellsStanding clauses nodes.now list standing) }
{
    match eliminate(alloc, rows)? {
        Elimination::Refuted(levels) => Ok(Standing::Unsolvable {
            reasons,
            facts,
            combinations: combinations(alloc, rows, &levels)?,
        }),
        Elimination::Open(levels) => Ok(Standing::Stands(point_of(alloc, nodes, &levels)?)),
        Elimination::Wide => Ok(Standing::Wide),
        Elimination::Many(count) => Ok(Standing::Many(count)),
    }
}

/// What the rows of a closed list come to: elimination is asked where they aren't met at once.
fn closed_standing(
    alloc: Global,
    nodes: &Over,
    point: &[i128],
    reasons: Vec<usize>,
    facts: Vec<Lit>,
) -> Result<Standing, AllocError>
    requires table { IsTable nodes.now }
    requires formulas { are_literals nodes.now facts.items ≡ true }
    ensures { IfOk result (λ standing. (clauses : List Clause) (list : List Lit) → IsClosedAt clauses nodes.now list reasons.items facts.items → TellsStanding clauses nodes.now list standing) }
{
    let Some(rows) = rows(alloc, nodes, &facts)? else {
        return Ok(Standing::Wide);
    };
    if are_met(&rows, point) {
        return Ok(Standing::Stands(None));
    }
    eliminated(alloc, nodes, &rows, reasons, facts)
}

/// What the rows of a list come to, beside the clauses of a ground set and the nodes that there are by now.
/// The numbers are tried as a point of them before any variable is eliminated.
pub fn standing_at(
    alloc: Global,
    clauses: &[GroundClause],
    nodes: &Over,
    list: &[Lit],
    point: &[i128],
) -> Result<Standing, AllocError>
    requires table { IsTable nodes.now }
    requires formulas { are_literals nodes.now list.now ≡ true }
    requires clause_formulas { list_all (λ (clause : Clause). are_literals nodes.now clause.literals) (map ground_of clauses.now) ≡ true }
    ensures { IfOk result (TellsStanding (map ground_of clauses.now) nodes.now list.now) }
{
    match close(alloc, clauses, list)? {
        Closure::Refuted(numbers) => Ok(Standing::Refuted(numbers)),
        Closure::Closed {
            learned,
            reasons,
            ..
        } => {
            let facts = facts(alloc, list, &learned)?;
            closed_standing(alloc, nodes, point, reasons, facts)
        }
    }
}
