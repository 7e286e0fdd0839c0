//! Literals: numbers, characters and strings.

ghost use Rattle.std.specs.Prelude.{◌≡◌, ◌≤◌, ◌<◌, ◌^◌, ◌*◌, ◌+◌, true, false, IfSome, MatchOption, length};
ghost use Rattle.df_tok.specs.Byte as spec;
ghost use Rattle.df_tok.specs.Lexeme.{value_of_number, value_of_digits};
ghost use Rattle.df_tok.specs.Scanning as scanning;

use crate::byte::{
    digit_value, escaped, is_digit, is_hex_digit, is_plain_in_character, is_plain_in_text,
};
use crate::run::number_len;

/// Whether these are decimal digits, with single `_` between two of them.
fn are_decimal(text: &[u8]) -> bool
    ensures { result ≡ scanning.are_digits spec.is_digit false text.now }
{
    let mut before = false;
    for b in text {
        if is_digit(*b) {
            before = true;
        } else if before && *b == b'_' {
            before = false;
        } else {
            return false;
        }
    }
    before
}

/// Whether these are hexadecimal digits, with single `_` between two of them.
fn are_hexadecimal(text: &[u8]) -> bool
    ensures { result ≡ scanning.are_digits spec.is_hex_digit false text.now }
{
    let mut before = false;
    for b in text {
        if is_hex_digit(*b) {
            before = true;
        } else if before && *b == b'_' {
            before = false;
        } else {
            return false;
        }
    }
    before
}

fn is_number(text: &[u8]) -> bool
    ensures { result ≡ scanning.is_number text.now }
{
    if text.starts_with(b"0x") {
        are_hexadecimal(&text[2..])
    } else {
        are_decimal(text)
    }
}

/// The length of the number at the front.
pub fn number(bytes: &[u8]) -> Option<usize>
    ensures { result ≡ scanning.number_at bytes.now }
{
    let n = number_len(bytes);
    if is_number(&bytes[..n]) {
        Some(n)
    } else {
        None
    }
}

/// A number with one more digit, where it is below 2^127.
fn with_digit(base: u128, value: u128, digit: u8) -> Option<u128>
    ensures { let more = value * base + spec.digit_value digit in MatchOption result (2 ^ 127 ≤ more) (λ v. (v ≡ more) × (v < 2 ^ 127)) }
{
    let more = value
        .checked_mul(base)?
        .checked_add(u128::from(digit_value(digit)))?;
    if more < 1 << 127 { Some(more) } else { None }
}

/// What digits stand for in a base, where it is below 2^127.
fn digits_value(base: u128, digits: &[u8]) -> Option<u128>
    requires { 1 ≤ base }
    ensures { MatchOption result (2 ^ 127 ≤ value_of_digits base digits.now) (λ v. (v ≡ value_of_digits base digits.now) × (v < 2 ^ 127)) }
{
    let mut value: u128 = 0;
    for d in digits {
        if *d != b'_' {
            let Some(more) = with_digit(base, value, *d) else {
                return None;
            };
            value = more;
        }
    }
    Some(value)
}

/// The value of a number, where it is below 2^127.
pub fn number_value(text: &[u8]) -> Option<u128>
    ensures { MatchOption result (2 ^ 127 ≤ value_of_number text.now) (λ v. (v ≡ value_of_number text.now) × (v < 2 ^ 127)) }
{
    if text.starts_with(b"0x") {
        digits_value(16, &text[2..])
    } else {
        digits_value(10, text)
    }
}

/// The character and the length of a character literal, behind its first quote.
pub fn character(bytes: &[u8]) -> Option<(u8, usize)>
    ensures found { result ≡ scanning.character_at bytes.now }
    ensures within { IfSome result (λ found. found.1 ≤ length bytes.now) }
{
    match bytes {
        [c, b'\'', ..] if is_plain_in_character(*c) => Some((*c, 2)),
        [b'\\', e, b'\'', ..] => escaped(*e).map(|c| (c, 3)),
        _ => None,
    }
}

/// The length of a string literal, behind its first quote.
pub fn text(bytes: &[u8]) -> Option<usize>
    ensures len { result ≡ scanning.text_len false bytes.now }
    ensures within { IfSome result (λ n. n ≤ length bytes.now) }
{
    let mut before = false;
    let mut n = 0;
    for b in bytes {
        n += 1;
        if before {
            if escaped(*b).is_none() {
                return None;
            }
            before = false;
        } else if *b == b'"' {
            return Some(n);
        } else if *b == b'\\' {
            before = true;
        } else if !is_plain_in_text(*b) {
            return None;
        }
    }
    None
}
