//! What was given for arguments.

ghost use Rattle.std.specs.Prelude.{◌≡◌, ◌<◌, ◌^◌, ℕ, IfOk, string_bytes};
ghost use Rattle.std.specs.Option.{option_and_then, option_map};
ghost use Rattle.std.specs.Str.Parse.{IsNumeral, without_leading_plus};
ghost use Rattle.clap.specs.Words.{first_of};
ghost use Rattle.df_ncmd.specs.Line.{budget_in, is_decimal, number_in, number_of, value_of, within};
ghost use Rattle.df_ncmd.specs.View.{Gives, budget_of, rows_in};

use crate::command::{Budget, LineFault};
use crate::limit::{ROUND_LIMIT, STEP_LIMIT};
use clap::ArgMatches;
use std::alloc::{AllocError, Global};

fn text_given<'a>(given: &ArgMatches<'a>, id: &str) -> Option<&'a str>
    ensures { option_map (λ text. text.now) result ≡ first_of id.now (rows_in given.now) }
{
    given.get_str(id)
}

/// A text that may be left out.
pub(crate) fn text_if_given(
    alloc: Global,
    given: &ArgMatches,
    id: &str,
) -> Result<Option<String>, AllocError>
    ensures { IfOk result (λ text. option_map string_bytes text ≡ first_of id.now (rows_in given.now)) }
{
    match text_given(given, id) {
        Some(text) => Ok(Some(String::from_str(alloc, text)?)),
        None => Ok(None),
    }
}

/// A text that is there.
pub(crate) fn text(alloc: Global, given: &ArgMatches, id: &str) -> Result<String, LineFault>
    ensures { Gives string_bytes result (first_of id.now (rows_in given.now)) }
{
    match text_if_given(alloc, given, id)? {
        Some(text) => Ok(text),
        None => Err(LineFault::Usage),
    }
}

/// Whether a number, as `parse` takes it, has no plus and no zeros in front.
fn is_plain(text: &str) -> bool
    ensures { IsNumeral 10 (without_leading_plus text.now) → value_of text.now < 2 ^ 64 → result ≡ is_decimal text.now }
{
    match text.as_bytes().first() {
        Some(b'0') => text.len() == 1,
        Some(first) => *first != b'+',
        None => false,
    }
}

/// The number that the text is the decimal of.
fn number_written(text: &str) -> Option<u64>
    ensures { (least greatest : ℕ) → option_and_then (within least greatest) result ≡ number_in least greatest text.now }
{
    let number = text.parse::<u64>().ok()?;
    if is_plain(text) { Some(number) } else { None }
}

/// The number, where it lies within the limits.
fn in_limits(number: Option<u64>, least: u64, greatest: u64) -> Option<u64>
    ensures { result ≡ option_and_then (within least greatest) number }
{
    let number = number?;
    if least <= number && number <= greatest {
        Some(number)
    } else {
        None
    }
}

fn number_given(given: &ArgMatches, id: &str, least: u64, greatest: u64) -> Option<u64>
    ensures { result ≡ number_of id.now least greatest (rows_in given.now) }
{
    let text = text_given(given, id)?;
    in_limits(number_written(text), least, greatest)
}

/// A number that is there.
pub(crate) fn number(
    given: &ArgMatches,
    id: &str,
    least: u64,
    greatest: u64,
) -> Result<u64, LineFault>
    ensures { Gives (λ n. n) result (number_of id.now least greatest (rows_in given.now)) }
{
    match number_given(given, id, least, greatest) {
        Some(number) => Ok(number),
        None => Err(LineFault::Usage),
    }
}

pub(crate) fn budget(given: &ArgMatches) -> Result<Budget, LineFault>
    ensures { Gives budget_of result (budget_in (rows_in given.now)) }
{
    let steps = number(given, "steps", 1, STEP_LIMIT)?;
    let rounds = number(given, "rounds", 0, ROUND_LIMIT)?;
    Ok(Budget { steps, rounds })
}
