//! Back substitution.

ghost use Rattle.std.specs.Prelude.{◌≡◌, ◌≤◌, map, length, IfOk};
ghost use Rattle.df_row.specs.RowView.{IsWithin};
ghost use Rattle.df_row.specs.Row.{Row as FunctionRow};
ghost use Rattle.df_level.specs.Levels.{level_rows, HasFalse, Stands};
ghost use Rattle.df_level.specs.Elimination.{Eliminates, last_level};
ghost use Rattle.df_back.specs.BackView.{TellsBack};
ghost use Rattle.df_back.specs.Ranges.{level_at};

use crate::answer::Back;
use crate::range::{Choice, choose};
use crate::valuation::Dense;
use df_level::Level;
use std::alloc::{AllocError, Global};

/// The level from which the variable at the place is eliminated. The levels are the first one, and the ones after each
/// variable.
pub fn level_before<'a>(first: &'a Level, others: &'a [Level], place: usize) -> &'a Level
    requires { place ≤ length others.now }
    ensures { level_rows result.now ≡ level_at (level_rows first.now) (map level_rows others.now) place }
{
    if place == 0 {
        first
    } else {
        &others[place - 1]
    }
}

/// Numbers that all rows of the first level allow: from the last level back, each variable gets the whole
/// number nearest 0 that the rows from which it was cancelled then allow, and every other node has 0. The
/// levels are the first one, from which the first variable is eliminated, and the ones after each variable.
pub fn back(
    alloc: Global,
    count: usize,
    first: &Level,
    variables: &[usize],
    others: &[Level],
) -> Result<Back, AllocError>
    requires chain { Eliminates 0 (level_rows first.now) variables.now (map level_rows others.now) }
    requires stands { HasFalse (last_level (level_rows first.now) (map level_rows others.now)) → ⊥ }
    requires within { (row : FunctionRow) → Stands row (level_rows first.now) → IsWithin count row }
    ensures { IfOk result (TellsBack count (level_rows first.now) variables.now (map level_rows others.now)) }
{
    let mut numbers = vec![in alloc; 0; count]?;
    let mut number = variables.len();
    while number > 0 {
        number -= 1;
        let node = variables[number];
        let level = level_before(first, others, number);
        let dense = Dense {
            numbers: numbers.as_slice(),
        };
        match choose(level.rows(), node, &dense) {
            Choice::Value(value) => numbers[node] = value,
            Choice::Between(bound) => return Ok(Back::Between { node, bound }),
            Choice::Wide => return Ok(Back::Wide),
        }
    }
    Ok(Back::Point(numbers))
}
