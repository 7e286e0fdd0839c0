//! What stands at the front of a source.

ghost use Rattle.std.specs.Prelude.{◌≡◌, length, option_map};
ghost use Rattle.df_tok.specs.Scanning as scanning;

use crate::byte::{begins_identifier, is_blank, is_digit};
use crate::comment::block_len;
use crate::literal::{character, number, text};
use crate::run::{identifier_len, line_len};
use crate::sign::{Sign, sign_at};

/// The form of a lexeme.
#[derive(Clone, Copy, PartialEq, Eq)]
pub enum Form {
    Identifier,
    Number,
    Character(u8),
    Text,
    Sign(Sign),
}

/// What stands at the front, and how many bytes it has.
#[derive(Clone, Copy, PartialEq, Eq)]
pub enum Front {
    /// A blank or a comment.
    Skipped(usize),
    Lexeme(Form, usize),
}

/// The lexeme at the front, and its length.
fn lexeme(bytes: &[u8]) -> Option<(Form, usize)>
    ensures { result ≡ scanning.lexeme_at bytes.now }
{
    let first = *bytes.first()?;
    if begins_identifier(first) {
        Some((Form::Identifier, 1 + identifier_len(&bytes[1..])))
    } else if is_digit(first) {
        number(bytes).map(|n| (Form::Number, n))
    } else if first == b'\'' {
        character(&bytes[1..]).map(|c| (Form::Character(c.0), 1 + c.1))
    } else if first == b'"' {
        text(&bytes[1..]).map(|n| (Form::Text, 1 + n))
    } else {
        sign_at(bytes).map(|sign| (Form::Sign(sign), sign.text().len()))
    }
}

/// Whether a blank stands at the front.
fn begins_blank(bytes: &[u8]) -> bool
    ensures { result ≡ scanning.begins_blank bytes.now }
{
    match bytes {
        [b, ..] => is_blank(*b),
        [] => false,
    }
}

/// The blank, comment or lexeme at the front.
#[tactic(auto, unfolding(crate::specs::Scanning::front_at))]
pub fn front_of(bytes: &[u8]) -> Option<Front>
    ensures { result ≡ scanning.front_at bytes.now }
{
    if begins_blank(bytes) {
        Some(Front::Skipped(1))
    } else if bytes.starts_with(b"//") {
        Some(Front::Skipped(2 + line_len(&bytes[2..])))
    } else if bytes.starts_with(b"/*") {
        block_len(&bytes[2..]).map(|n| Front::Skipped(2 + n))
    } else {
        lexeme(bytes).map(|found| Front::Lexeme(found.0, found.1))
    }
}
