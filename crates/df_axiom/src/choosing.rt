//! The template of a clause.

ghost use Rattle.std.specs.Prelude.{◌≡◌, map, IfOk};
ghost use Rattle.std.specs.Option.{option_map};
ghost use Rattle.std.specs.List.{find};
ghost use Rattle.df_form.specs.World.{world_of};
ghost use Rattle.df_axiom.specs.Template.{entry_of, template_of};
ghost use Rattle.df_axiom.specs.Schemas as spec;

use crate::matching::is_same_op;
use crate::table::{SchemaRow, rows};
use crate::templates::{Piece, Template, Test};
use crate::type_templates::of_type;
use df_form::{Op, World};
use std::alloc::{AllocError, Global};

/// The schema of what it is to be of a type.
const TYPES: u8 = 74;

fn is_of(op: Op, test: Test) -> bool
    ensures { result ≡ spec.is_of op test }
{
    match test {
        Test::Any | Test::Literal => false,
        Test::Of(wanted) => is_same_op(wanted, op),
    }
}

fn begins(op: Op, pieces: &[Piece]) -> bool
    ensures { result ≡ spec.begins op pieces.now }
{
    match pieces {
        [] => false,
        [piece, ..] => is_of(op, piece.test),
    }
}

/// Whether the first term of an instance is to be of the operation.
pub fn begins_with(op: Op, row: &SchemaRow) -> bool
    ensures { result ≡ spec.begins_with op (entry_of row.now) }
{
    begins(op, row.pieces)
}

fn is_row(op: Op, schema: u8, clause: u32, row: &SchemaRow) -> bool
    ensures { result ≡ spec.is_entry op schema clause (entry_of row.now) }
{
    row.schema == schema && row.clause == clause && begins_with(op, row)
}

/// A template of its own for a row.
fn template_of_row(alloc: Global, row: &SchemaRow) -> Result<Template, AllocError>
    ensures { IfOk result (λ template. template_of template ≡ (entry_of row.now).template) }
{
    Ok(Template {
        terms: row.terms,
        pieces: Vec::from_slice(alloc, row.pieces)?,
        same: Vec::from_slice(alloc, row.same)?,
        needed: Vec::from_slice(alloc, row.needed)?,
        clause: Vec::from_slice(alloc, row.literals)?,
    })
}

/// The row of this clause, for instances whose first term is of the operation.
fn find_row(rows: &[SchemaRow], op: Op, schema: u8, clause: u32) -> Option<&SchemaRow>
    ensures { option_map (λ row. entry_of row.now) result ≡ find (spec.is_entry op schema clause) (map entry_of rows.now) }
{
    for row in rows {
        if is_row(op, schema, clause, row) {
            return Some(row);
        }
    }
    None
}

/// The template of its row.
fn written_template(
    alloc: Global,
    op: Op,
    schema: u8,
    clause: u32,
) -> Result<Option<Template>, AllocError>
    ensures { IfOk result (λ found. option_map template_of found ≡ spec.written_template op schema clause) }
{
    match find_row(rows(), op, schema, clause) {
        Some(row) => Ok(Some(template_of_row(alloc, row)?)),
        None => Ok(None),
    }
}

/// The template of this clause of a schema, for instances whose first term is of the operation.
pub fn schema_template(
    alloc: Global,
    world: World,
    op: Op,
    schema: u8,
    clause: u32,
) -> Result<Option<Template>, AllocError>
    ensures { IfOk result (λ found. option_map template_of found ≡ spec.template (world_of world.entry) op schema clause) }
{
    if schema == TYPES {
        of_type(alloc, world, op, clause)
    } else {
        written_template(alloc, op, schema, clause)
    }
}
