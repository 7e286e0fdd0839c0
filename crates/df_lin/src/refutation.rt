//! Whether rows have a whole point.

ghost use Rattle.std.specs.Prelude.{◌≡◌, ℕ, true, IfOk};
ghost use Rattle.df_row.specs.Linear.{refutes};
ghost use Rattle.df_level.specs.Levels.{rows_of};
ghost use Rattle.df_elim.specs.Elimination.{IsRefutation};
ghost use Rattle.df_lin.specs.Verdict.{combinations_of, TellsVerdict};

use crate::chain::Chain;
use crate::multipliers::Multipliers;
use crate::substitution::substitute;
use crate::verdict::Verdict;
use df_elim::{Elimination, eliminate};
use df_level::{Level, Row};
use df_refutation::refuting;
use std::alloc::{AllocError, Global};

/// The multipliers by which levels refute the rows.
fn multipliers(alloc: Global, rows: &[Row], levels: &[Level]) -> Result<Multipliers, AllocError>
    requires { IsRefutation (rows_of rows.now) levels.now }
    ensures { IfOk result (λ found. (count : ℕ) → refutes count (rows_of rows.now) (combinations_of found) ≡ true) }
{
    match refuting(alloc, rows, levels)? {
        Some(combinations) => Ok(Multipliers { combinations }),
        None => unreachable!(),
    }
}

/// Says whether whole numbers meet all rows, by elimination of their variables in order of nodes: how the
/// rows refute themselves, or a point that meets them, or a variable that they put strictly between two
/// whole numbers. It gives up as soon as a number on the way is past 128 bits, or a level that grows comes
/// to 50,000 distinct rows. The only error is want of memory.
pub fn refute(alloc: Global, rows: &[Row]) -> Result<Verdict, AllocError>
    ensures { IfOk result (TellsVerdict (rows_of rows.now)) }
{
    match eliminate(alloc, rows)? {
        Elimination::Refuted(levels) => Ok(Verdict::Refuted(multipliers(alloc, rows, &levels)?)),
        Elimination::Open(levels) => substitute(alloc, &levels),
        Elimination::Wide => Ok(Verdict::Wide(Chain::Elimination)),
        Elimination::Many(count) => Ok(Verdict::Many(count)),
    }
}
