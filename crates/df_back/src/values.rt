//! The values of rows.

ghost use Rattle.std.specs.Prelude.{◌≡◌, ◌+ℤ◌, ◌*ℤ◌, ℕ};
ghost use Rattle.df_row.specs.RowView.{narrow, IsWithin};
ghost use Rattle.df_level.specs.Row.{function_row};
ghost use Rattle.df_back.specs.BackView.{numbers_of};
ghost use Rattle.df_back.specs.Ranges.{TellsValue};

use crate::valuation::{Dense, Valuation};
use df_level::Row;

/// The product, where it has 128 bits.
fn product(a: i128, b: i128) -> Option<i128>
    ensures { result ≡ narrow (a *ℤ b) }
{
    a.checked_mul(b)
}

/// The sum, where it has 128 bits.
fn sum(a: i128, b: i128) -> Option<i128>
    ensures { result ≡ narrow (a +ℤ b) }
{
    a.checked_add(b)
}

/// The value of the row at the valuation. It is `None` only where a number on the way is past 128 bits.
pub(crate) fn value_at<V: Valuation>(row: &Row, valuation: &V) -> Option<i128>
    ensures { (count : ℕ) → IsWithin count (function_row row.now) → TellsValue count (V.numbers valuation.now) (function_row row.now) result }
{
    let mut value = row.constant();
    for entry in row.entries() {
        let term = product(entry.1, valuation.number(entry.0))?;
        let next = sum(value, term)?;
        value = next;
    }
    Some(value)
}

/// The value of the row at the numbers; each node past their end has 0. It is `None` only where a number on the way is
/// past 128 bits.
pub fn value(row: &Row, numbers: &[i128]) -> Option<i128>
    ensures { (count : ℕ) → IsWithin count (function_row row.now) → TellsValue count (numbers_of numbers.now) (function_row row.now) result }
{
    value_at(row, &Dense { numbers })
}
