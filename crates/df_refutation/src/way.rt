//! Combinations of one row.

ghost use Rattle.std.specs.Prelude.{◌≡◌, IfOk};
ghost use Rattle.df_form.specs.Log.{combination_of};
ghost use Rattle.df_level.specs.Way.{of_one};

use df_form::{Combination, Multiple};
use std::alloc::{AllocError, Global};

/// One row, divided.
pub(crate) fn way_of_one(
    alloc: Global,
    divisor: i128,
    row: usize,
) -> Result<Combination, AllocError>
    ensures { IfOk result (λ way. combination_of way ≡ of_one divisor row) }
{
    let members = vec![in alloc; Multiple { factor: 1, row }]?;
    Ok(Combination { divisor, members })
}
