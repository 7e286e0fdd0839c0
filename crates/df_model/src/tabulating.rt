//! Tables of the numbers of all nodes.

ghost use Rattle.std.specs.Prelude.{IfOk};
ghost use Rattle.df_form.specs.World.{world_of};
ghost use Rattle.df_model.specs.Valuation.{assignment_by, Tabulates};

use crate::number::next_number;
use crate::outcome::Valuation;
use df_form::{NodeTable, Over, World};
use df_rules::Known;
use df_table::Table;
use std::alloc::{AllocError, Global};

/// The numbers of all nodes, where a free number is the one at its node, or 0 past their end, a free
/// character has that number as its code, or is `D` where that is no code, and a free truth is true exactly
/// where it is known to be. A formula counts as 1 where it is true, and else as 0; a character as its code.
pub fn valuation(
    alloc: Global,
    world: World,
    nodes: &Over,
    numbers: &[i128],
    known: &Known,
) -> Result<Valuation, AllocError>
    ensures { IfOk result (Tabulates (world_of world.entry) (assignment_by nodes.now numbers.now known.now) nodes.now) }
{
    let mut table = Vec::with_capacity(alloc, nodes.len())?;
    while let Some(node) = nodes.get(table.len()) {
        match next_number(world, numbers, known, &table, node) {
            Some(number) => table.push(number)?,
            None => return Ok(Valuation::Wide),
        }
    }
    Ok(Valuation::Table(Table::new(table)))
}
