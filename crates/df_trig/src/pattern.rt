//! Patterns of schemas.

ghost use Rattle.std.specs.Prelude.{◌≡◌, ◌++◌, map, IfOk, OnOk};
ghost use Rattle.df_form.specs.World.{world_of};
ghost use Rattle.df_axiom.specs.Template.{entry_of};
ghost use Rattle.df_axiom.specs.Schemas.{template};
ghost use Rattle.df_trig.specs.Patterns.{of_schema, type_patterns, of_entries, patterns};
ghost use Rattle.df_trig.specs.Rounds.{named_by, Names};

use df_axiom::{PRODUCTS_COMPARE, SchemaRow, begins_with, rows, schema_template};
use df_form::{Op, Payload, Symbol, World};
use std::alloc::{AllocError, Global};

/// The pattern of a clause of a schema.
#[derive(Drop, PartialEq, Eq)]
pub(crate) struct Pattern {
    /// The operation of its first term.
    pub(crate) op: Op,
    pub(crate) schema: u8,
    pub(crate) clause: u32,
}

fn of_schema(op: Op, schema: u8, clause: u32) -> Pattern
    ensures { result ≡ of_schema op schema clause }
{
    Pattern { op, schema, clause }
}

/// The patterns of what it is to be of a type.
fn type_patterns(alloc: Global, op: Op) -> Result<Vec<Pattern>, AllocError>
    ensures { IfOk result (λ list. list.items ≡ type_patterns op) }
{
    let Op::Of(Symbol::Is, Payload::Type(_)) = op else {
        return Ok(Vec::new(alloc));
    };
    Ok(vec![in alloc;
        of_schema(op, 74, 0),
        of_schema(op, 74, 1),
        of_schema(op, 74, 2),
    ]?)
}

/// Adds the patterns of the rows that begin with a term of the operation.
fn add_rows(list: &mut Vec<Pattern>, rows: &[SchemaRow], op: Op) -> Result<(), AllocError>
    ensures { OnOk result (list.new.items ≡ list.old.items ++ of_entries op (map entry_of rows.now)) }
{
    for row in rows {
        if begins_with(op, row) {
            list.push(of_schema(op, row.schema, row.clause))?;
        }
    }
    Ok(())
}

/// The patterns that begin with a term of the operation.
pub(crate) fn patterns(alloc: Global, op: Op) -> Result<Vec<Pattern>, AllocError>
    ensures { IfOk result (λ list. list.items ≡ patterns op) }
{
    let mut list = type_patterns(alloc, op)?;
    add_rows(&mut list, rows(), op)?;
    Ok(list)
}

/// The terms that an instance of a pattern names.
#[derive(Clone, Copy, PartialEq, Eq)]
pub(crate) enum Named {
    /// There is no such clause.
    Nothing,
    One,
    Two,
    /// Two products, which are compared.
    Products,
}

/// The terms that an instance of a template of a schema names.
fn named_by(schema: u8, terms: usize) -> Named
    ensures { result ≡ named_by schema terms }
{
    if terms == 1 {
        Named::One
    } else if schema == PRODUCTS_COMPARE.schema {
        Named::Products
    } else {
        Named::Two
    }
}

/// The terms that an instance of a pattern names.
pub(crate) fn named_terms(
    alloc: Global,
    world: World,
    pattern: &Pattern,
) -> Result<Named, AllocError>
    ensures { IfOk result (λ named. Names named (template (world_of world.entry) pattern.now.op pattern.now.schema pattern.now.clause)) }
{
    let found = schema_template(alloc, world, pattern.op, pattern.schema, pattern.clause)?;
    match found {
        Some(template) => Ok(named_by(pattern.schema, template.terms)),
        None => Ok(Named::Nothing),
    }
}
