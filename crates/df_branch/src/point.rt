//! Rows at points.

ghost use Rattle.std.specs.Prelude.{◌≡◌, ℕ, true, IsTrue};
ghost use Rattle.df_row.specs.RowView.{IsWithin};
ghost use Rattle.df_row.specs.Value.{row_holds};
ghost use Rattle.df_level.specs.Row.{function_row};
ghost use Rattle.df_level.specs.Levels.{rows_of};
ghost use Rattle.df_back.specs.BackView.{numbers_of};
ghost use Rattle.df_branch.specs.Standing.{AllHold};

use df_back::value;
use df_level::Row;

/// Whether the row is seen to hold at the numbers.
fn holds(row: &Row, numbers: &[i128]) -> bool
    ensures { IsTrue result → (count : ℕ) → IsWithin count (function_row row.now) → row_holds count (numbers_of numbers.now) (function_row row.now) ≡ true }
{
    match value(row, numbers) {
        Some(value) => value >= 0,
        None => false,
    }
}

/// Whether all rows are seen to hold at the numbers.
pub(crate) fn all_hold(rows: &[Row], numbers: &[i128]) -> bool
    ensures { IsTrue result → AllHold (numbers_of numbers.now) (rows_of rows.now) }
{
    for row in rows {
        if !holds(row, numbers) {
            return false;
        }
    }
    true
}
