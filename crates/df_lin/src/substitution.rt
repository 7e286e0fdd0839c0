//! Back substitution.

ghost use Rattle.std.specs.Prelude.{IfOk, List, map};
ghost use Rattle.df_row.specs.Row.{Row as FunctionRow};
ghost use Rattle.df_level.specs.Levels.{HasFalse, level_rows};
ghost use Rattle.df_level.specs.Elimination.{Eliminates, last_level};
ghost use Rattle.df_elim.specs.Elimination.{IsWhole};
ghost use Rattle.df_lin.specs.Verdict.{TellsVerdict};

use crate::chain::Chain;
use crate::point::Point;
use crate::verdict::Verdict;
use df_back::{Choice, choose, level_before};
use df_elim::Levels;
use std::alloc::{AllocError, Global};

/// Numbers for the variables, from the last level back: each gets the whole number nearest 0 that the rows
/// from which it was cancelled allow it beside the numbers of the later ones.
pub(crate) fn substitute(alloc: Global, levels: &Levels) -> Result<Verdict, AllocError>
    requires chain { Eliminates 0 (level_rows levels.now.first) levels.now.variables.items (map level_rows levels.now.others.items) }
    requires stands { HasFalse (last_level (level_rows levels.now.first) (map level_rows levels.now.others.items)) → ⊥ }
    ensures { IfOk result (λ verdict. (rows : List FunctionRow) → IsWhole rows levels.now → TellsVerdict rows verdict) }
{
    let mut point = Point::zero(alloc);
    let mut place = levels.variables.len();
    while place > 0 {
        place -= 1;
        let node = levels.variables[place];
        let level = level_before(&levels.first, &levels.others, place);
        match choose(level.rows(), node, &point) {
            Choice::Value(number) => point.set(node, number)?,
            Choice::Between(bound) => return Ok(Verdict::Between { node, bound, point }),
            Choice::Wide => return Ok(Verdict::Wide(Chain::Substitution { node, point })),
        }
    }
    Ok(Verdict::Point(point))
}
