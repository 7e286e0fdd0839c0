//! How rows come of others: as combinations, which lines of logs can have.

ghost use Rattle.std.specs.Prelude.{◌≡◌, IfOk};
ghost use Rattle.df_form.specs.Log.{combination_of};
ghost use Rattle.df_level.specs.Way.{of_one, of_two};

use df_form::{Combination, Multiple};
use std::alloc::{AllocError, Global};

/// One row, divided.
pub(crate) fn way_of_one(
    alloc: Global,
    divisor: i128,
    row: usize,
) -> Result<Combination, AllocError>
    ensures { IfOk result (λ way. combination_of way ≡ of_one divisor row) }
{
    let members = vec![in alloc; Multiple { factor: 1, row }]?;
    Ok(Combination { divisor, members })
}

/// The sum of two multiples of rows, divided.
pub(crate) fn way_of_two(
    alloc: Global,
    divisor: i128,
    first: Multiple,
    second: Multiple,
) -> Result<Combination, AllocError>
    ensures { IfOk result (λ way. combination_of way ≡ of_two divisor first second) }
{
    let members = vec![in alloc; first, second]?;
    Ok(Combination { divisor, members })
}
