//! Where no token stands: how far the bytes can be continued to one.

ghost use Rattle.std.specs.Prelude.{◌≡◌, ◌+◌, ◌<◌, ◌≤◌, ◌^◌, false, length};
ghost use Rattle.df_tok.specs.Byte as spec;
ghost use Rattle.df_tok.specs.Scanning as scanning;

use crate::byte::{escaped, is_digit, is_hex_digit, is_plain_in_character, is_plain_in_text};
use crate::pos::after;
use df_base::{Code, Detail, Pos, Refusal};

/// How far these are decimal digits.
fn decimal_begun(bytes: &[u8]) -> usize
    ensures len { result ≡ scanning.digits_begun spec.is_digit false bytes.now }
    ensures within { result ≤ length bytes.now }
{
    let mut before = false;
    let mut n = 0;
    for b in bytes {
        if is_digit(*b) {
            before = true;
        } else if before && *b == b'_' {
            before = false;
        } else {
            return n;
        }
        n += 1;
    }
    n
}

/// How far these are hexadecimal digits.
fn hexadecimal_begun(bytes: &[u8]) -> usize
    ensures len { result ≡ scanning.digits_begun spec.is_hex_digit false bytes.now }
    ensures within { result ≤ length bytes.now }
{
    let mut before = false;
    let mut n = 0;
    for b in bytes {
        if is_hex_digit(*b) {
            before = true;
        } else if before && *b == b'_' {
            before = false;
        } else {
            return n;
        }
        n += 1;
    }
    n
}

fn number_begun(bytes: &[u8]) -> usize
    ensures len { result ≡ scanning.number_begun bytes.now }
    ensures within { result ≤ length bytes.now }
{
    if bytes.starts_with(b"0x") {
        2 + hexadecimal_begun(&bytes[2..])
    } else {
        decimal_begun(bytes)
    }
}

/// How far a character literal goes, behind its first quote.
fn character_begun(bytes: &[u8]) -> usize
    ensures len { result ≡ scanning.character_begun bytes.now }
    ensures within { result ≤ length bytes.now }
{
    match bytes {
        [a, ..] if is_plain_in_character(*a) => 1,
        [b'\\', e, ..] if escaped(*e).is_some() => 2,
        [b'\\', ..] => 1,
        _ => 0,
    }
}

/// How far a string literal goes, behind its first quote.
fn text_begun(bytes: &[u8]) -> usize
    ensures len { result ≡ scanning.text_begun false bytes.now }
    ensures within { result ≤ length bytes.now }
{
    let mut before = false;
    let mut n = 0;
    for b in bytes {
        if before {
            if escaped(*b).is_none() {
                return n;
            }
            before = false;
        } else if *b == b'\\' {
            before = true;
        } else if !is_plain_in_text(*b) {
            return n;
        }
        n += 1;
    }
    n
}

/// How many bytes at the front can be continued to a token, where none stands.
fn begun(bytes: &[u8]) -> usize
    ensures len { result ≡ scanning.begun_at bytes.now }
    ensures within { result ≤ length bytes.now }
{
    match bytes {
        [b, ..] if is_digit(*b) => number_begun(bytes),
        [b'\'', rest @ ..] => 1 + character_begun(rest),
        [b'"', rest @ ..] => 1 + text_begun(rest),
        [b'&', ..] => 1,
        _ => 0,
    }
}

/// Whether a byte of 128 or more stands at the front.
fn is_high(bytes: &[u8]) -> bool
    ensures { result ≡ scanning.is_high bytes.now }
{
    match bytes {
        [b, ..] => 128 <= *b,
        [] => false,
    }
}

/// The refusal where no blank, comment or token stands.
pub fn fault(rest: &[u8], pos: Pos) -> Refusal
    requires line { pos.line + length rest.now < 2 ^ 32 }
    requires col { pos.col + length rest.now < 2 ^ 32 }
    ensures { result ≡ scanning.fault_at pos rest.now }
{
    let no_token = Refusal {
        code: Code::Token,
        pos,
        detail: Detail::Nothing,
    };
    if rest.starts_with(b"/*") {
        return no_token;
    }
    let n = begun(rest);
    if is_high(&rest[n..]) {
        return Refusal {
            code: Code::Byte,
            pos: after(pos, &rest[..n]),
            detail: Detail::Nothing,
        };
    }
    no_token
}
