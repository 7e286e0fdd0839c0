//! Entries divided by the greatest common divisor of their coefficients.

ghost use Rattle.std.specs.Prelude.{◌≡◌, ◌≤◌, ◌<◌, ◌^◌, ◌<ℤ◌, pos, negsuc, true, map, max, IfOk};
ghost use Rattle.std.specs.Int.{IsGcd};
ghost use Rattle.df_row.specs.Linear.{quotient};
ghost use Rattle.df_level.specs.Entries.{ascends, coefficient_of};
ghost use Rattle.df_level.specs.Division.{IsContent, quotient_entry};

use crate::entries::Entry;
use std::alloc::{AllocError, Global};

/// The greatest common divisor.
pub(crate) fn gcd(a: u128, b: u128) -> u128
    ensures { IsGcd a b result }
{
    let mut x = a;
    let mut y = b;
    while y != 0 {
        let rest = x % y;
        x = y;
        y = rest;
    }
    x
}

/// How far the number is below -1.
fn below_minus_one(number: i128) -> u128
    requires { number <ℤ pos 0 }
    ensures value { number ≡ negsuc result }
    ensures bound { result < 2 ^ 127 }
{
    (-(number + 1)) as u128
}

/// The number that is so far below -1.
fn minus_one_less(below: u128) -> i128
    requires { below < 2 ^ 127 }
    ensures { result ≡ negsuc below }
{
    -(below as i128) - 1
}

/// The quotient, rounded down.
pub(crate) fn floor_quotient(number: i128, divisor: u128) -> i128
    requires { 1 ≤ divisor }
    ensures { result ≡ quotient number (pos divisor) }
{
    if number < 0 {
        minus_one_less(below_minus_one(number) / divisor)
    } else {
        (number as u128 / divisor) as i128
    }
}

/// The greatest common divisor of the coefficients, 0 where there are none.
pub(crate) fn content(entries: &[Entry]) -> u128
    requires { ascends 0 entries.now ≡ true }
    ensures { IsContent (coefficient_of entries.now) result }
{
    let mut divisor = 0;
    for entry in entries {
        divisor = gcd(divisor, entry.1.unsigned_abs());
    }
    divisor
}

/// The entries divided, each coefficient rounded down.
pub(crate) fn quotients(
    alloc: Global,
    entries: &[Entry],
    divisor: u128,
) -> Result<Vec<Entry>, AllocError>
    requires { 1 ≤ divisor }
    ensures { IfOk result (λ v. v.items ≡ map (quotient_entry divisor) entries.now) }
{
    let mut quotients = Vec::new(alloc);
    for entry in entries {
        quotients.push((entry.0, floor_quotient(entry.1, divisor)))?;
    }
    Ok(quotients)
}
