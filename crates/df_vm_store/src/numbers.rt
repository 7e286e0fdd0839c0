//! Numbers that lie in a range, and those that are places.

ghost use Rattle.std.specs.Prelude.{◌≡◌, ◌≢◌, pos, ◌+ℤ◌, ◌-ℤ◌, ◌*ℤ◌, neg_ℤ};
ghost use Rattle.std.specs.Int.{int_div_euclid, int_rem_euclid};
ghost use Rattle.df_vm_store.specs.Numbers.{ranged, ranged_if, place_in, bound_in};

use df_mach2::Range;

/// The number, if there is one and it lies in the range.
fn within(range: Range, number: Option<i128>) -> Option<i128>
    ensures { result ≡ ranged_if range number }
{
    let number = number?;
    if range.low <= number && number <= range.high {
        Some(number)
    } else {
        None
    }
}

/// The number itself.
pub(crate) fn fitting(range: Range, number: i128) -> Option<i128>
    ensures { result ≡ ranged range number }
{
    within(range, Some(number))
}

pub(crate) fn negation(range: Range, number: i128) -> Option<i128>
    ensures { result ≡ ranged range (neg_ℤ number) }
{
    within(range, number.checked_neg())
}

pub(crate) fn sum(range: Range, left: i128, right: i128) -> Option<i128>
    ensures { result ≡ ranged range (left +ℤ right) }
{
    within(range, left.checked_add(right))
}

pub(crate) fn difference(range: Range, left: i128, right: i128) -> Option<i128>
    ensures { result ≡ ranged range (left -ℤ right) }
{
    within(range, left.checked_sub(right))
}

pub(crate) fn product(range: Range, left: i128, right: i128) -> Option<i128>
    ensures { result ≡ ranged range (left *ℤ right) }
{
    within(range, left.checked_mul(right))
}

/// The Euclidean quotient by a divisor that is not 0.
pub(crate) fn quotient(range: Range, left: i128, right: i128) -> Option<i128>
    requires { right ≢ pos 0 }
    ensures { result ≡ ranged range (int_div_euclid left right) }
{
    within(range, left.checked_div_euclid(right))
}

/// The Euclidean remainder by a divisor that is not 0.
pub(crate) fn remainder(range: Range, left: i128, right: i128) -> Option<i128>
    requires { right ≢ pos 0 }
    ensures { result ≡ ranged range (int_rem_euclid left right) }
{
    within(range, Some(left.wrapping_rem_euclid(right)))
}

/// The character of a number of 0 to 127.
pub(crate) fn character(number: i128) -> Option<u8>
    ensures { result ≡ place_in number 128 }
{
    if 0 <= number && number < 128 {
        Some(number as u8)
    } else {
        None
    }
}

/// The place that a number is, if it is one below this.
pub(crate) fn place(number: i128, count: usize) -> Option<usize>
    ensures { result ≡ place_in number count }
{
    if 0 <= number && number < count as i128 {
        Some(number as usize)
    } else {
        None
    }
}

/// The place that a number is, if it is one up to this.
pub(crate) fn bound(number: i128, count: usize) -> Option<usize>
    ensures { result ≡ bound_in number count }
{
    if 0 <= number && number <= count as i128 {
        Some(number as usize)
    } else {
        None
    }
}
