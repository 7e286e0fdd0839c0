//! Words that are written: each behind a blank.

ghost use Rattle.std.specs.Prelude.{◌≡◌, ◌++◌, ◌∷◌, [], map, OnOk};
ghost use Rattle.std.specs.List.{flat_map, AllByRecursion};
ghost use Rattle.std.specs.Fmt.{decimal, signed_decimal};
ghost use Rattle.df_form.specs.Log.{combination_of};
ghost use Rattle.df_logtext.specs.HasText.{IsIndex, HasLiteral, HasPair, HasMultiple, HasCombination};
ghost use Rattle.df_logtext.specs.Joined.{behind};
ghost use Rattle.df_logtext.specs.StepText.{literal_word, pair_words, multiple_text, sum_words, combination_words};
ghost use Rattle.df_logtext.specs.Writes.{Writes};

use df_form::{Combination, Lit, Multiple, Pair};
use itoa::Buffer;
use std::alloc::AllocError;

/// A word.
pub fn push_word(text: &mut Vec<u8>, word: &[u8]) -> Result<(), AllocError>
    ensures { OnOk result (text.new.items ≡ text.old.items ++ behind 32 (word.now ∷ [])) }
{
    text.extend_from_slice(b" ")?;
    text.extend_from_slice(word)?;
    Ok(())
}

/// The digits of a number.
pub fn push_digits(text: &mut Vec<u8>, number: u64) -> Result<(), AllocError>
    ensures { OnOk result (text.new.items ≡ text.old.items ++ decimal number) }
{
    let mut buffer = Buffer::new();
    text.extend_from_slice(buffer.format(number).as_bytes())?;
    Ok(())
}

/// The digits of a number, with its sign where it is negative.
fn push_signed_digits(text: &mut Vec<u8>, number: i128) -> Result<(), AllocError>
    ensures { OnOk result (text.new.items ≡ text.old.items ++ signed_decimal number) }
{
    let mut buffer = Buffer::new();
    text.extend_from_slice(buffer.format(number).as_bytes())?;
    Ok(())
}

/// A number from 0 on.
pub fn push_number(text: &mut Vec<u8>, number: u64) -> Result<(), AllocError>
    ensures { OnOk result (text.new.items ≡ text.old.items ++ behind 32 (decimal number ∷ [])) }
{
    text.extend_from_slice(b" ")?;
    push_digits(text, number)
}

/// A whole number.
pub fn push_integer(text: &mut Vec<u8>, number: i128) -> Result<(), AllocError>
    ensures { OnOk result (text.new.items ≡ text.old.items ++ behind 32 (signed_decimal number ∷ [])) }
{
    text.extend_from_slice(b" ")?;
    push_signed_digits(text, number)
}

/// Numbers from 0 on.
pub fn push_numbers(text: &mut Vec<u8>, numbers: &[usize]) -> Result<(), AllocError>
    ensures { OnOk result (Writes text.old.items text.new.items (behind 32 (map decimal numbers.now)) (AllByRecursion IsIndex numbers.now)) }
{
    for number in numbers {
        push_number(text, *number as u64)?;
    }
    Ok(())
}

fn push_literal(text: &mut Vec<u8>, literal: Lit) -> Result<(), AllocError>
    ensures { OnOk result (Writes text.old.items text.new.items (behind 32 (literal_word literal ∷ [])) (HasLiteral literal)) }
{
    if literal.positive {
        text.extend_from_slice(b" +")?;
    } else {
        text.extend_from_slice(b" -")?;
    }
    push_digits(text, literal.node as u64)
}

/// Literals.
pub fn push_literals(text: &mut Vec<u8>, literals: &[Lit]) -> Result<(), AllocError>
    ensures { OnOk result (Writes text.old.items text.new.items (behind 32 (map literal_word literals.now)) (AllByRecursion HasLiteral literals.now)) }
{
    for literal in literals {
        push_literal(text, *literal)?;
    }
    Ok(())
}

fn push_pair(text: &mut Vec<u8>, pair: &Pair) -> Result<(), AllocError>
    ensures { OnOk result (Writes text.old.items text.new.items (behind 32 (pair_words pair.now)) (HasPair pair.now)) }
{
    push_number(text, pair.left as u64)?;
    push_number(text, pair.right as u64)
}

/// Pairs.
pub fn push_pairs(text: &mut Vec<u8>, pairs: &[Pair]) -> Result<(), AllocError>
    ensures { OnOk result (Writes text.old.items text.new.items (behind 32 (flat_map pair_words pairs.now)) (AllByRecursion HasPair pairs.now)) }
{
    for pair in pairs {
        push_pair(text, pair)?;
    }
    Ok(())
}

fn push_multiple(
    text: &mut Vec<u8>,
    separator: &[u8],
    multiple: &Multiple,
) -> Result<(), AllocError>
    ensures { OnOk result (Writes text.old.items text.new.items (separator.now ++ multiple_text multiple.now) (HasMultiple multiple.now)) }
{
    text.extend_from_slice(separator)?;
    push_signed_digits(text, multiple.factor)?;
    text.extend_from_slice(b"*")?;
    push_digits(text, multiple.row as u64)
}

fn push_more_multiples(text: &mut Vec<u8>, multiples: &[Multiple]) -> Result<(), AllocError>
    ensures { OnOk result (Writes text.old.items text.new.items (behind 43 (map multiple_text multiples.now)) (AllByRecursion HasMultiple multiples.now)) }
{
    for multiple in multiples {
        push_multiple(text, b"+", multiple)?;
    }
    Ok(())
}

/// A sum, if it has members.
fn push_sum(text: &mut Vec<u8>, multiples: &[Multiple]) -> Result<(), AllocError>
    ensures { OnOk result (Writes text.old.items text.new.items (behind 32 (sum_words multiples.now)) (AllByRecursion HasMultiple multiples.now)) }
{
    match multiples {
        [] => Ok(()),
        [first, others @ ..] => {
            push_multiple(text, b" ", first)?;
            push_more_multiples(text, others)
        }
    }
}

fn push_combination(text: &mut Vec<u8>, combination: &Combination) -> Result<(), AllocError>
    ensures { OnOk result (Writes text.old.items text.new.items (behind 32 (combination_words (combination_of combination.now))) (HasCombination (combination_of combination.now))) }
{
    push_integer(text, combination.divisor)?;
    push_sum(text, &combination.members)
}

/// Combinations of rows.
pub fn push_combinations(text: &mut Vec<u8>, combinations: &[Combination]) -> Result<(), AllocError>
    ensures { OnOk result (Writes text.old.items text.new.items (behind 32 (flat_map combination_words (map combination_of combinations.now))) (AllByRecursion HasCombination (map combination_of combinations.now))) }
{
    for combination in combinations {
        push_combination(text, combination)?;
    }
    Ok(())
}
