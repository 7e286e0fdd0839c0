//! The characters of string literals.

ghost use Rattle.std.specs.Prelude.{◌≡◌, Option, Some, None};
ghost use Rattle.df_tok.specs.Byte.{is_plain_in_text, escaped};
ghost use Rattle.df_ntree.specs.mirror.Reading.{escape_at, part_at, characters_of, all_of};
ghost use Rattle.df_npexpr.specs.Reads.{Reads};

use df_base::{Global, Pos, Stop};
use df_npexpr::syntax;

/// The character that an escape's letter gives.
fn escaped(letter: u8) -> Option<u8>
    ensures { result ≡ escaped letter }
{
    match letter {
        b'n' => Some(b'\n'),
        b'r' => Some(b'\r'),
        b't' => Some(b'\t'),
        b'0' => Some(0),
        b'\\' | b'\'' | b'"' => Some(letter),
        _ => None,
    }
}

/// Whether the byte stands for itself in a string literal.
fn is_plain(byte: u8) -> bool
    ensures { result ≡ is_plain_in_text byte }
{
    ((32 <= byte && byte <= 126) || byte == b'\t') && byte != b'\\' && byte != b'"'
}

/// Bytes of a string literal that are read from the front on; the literal stands at `pos`.
#[derive(Drop)]
struct Parts<'a> {
    rest: &'a [u8],
    pos: Pos,
}

impl Parts<'_> {
    /// Takes the letter of an escape.
    #[tactic(auto, unfolding(df_ntree::specs::mirror::Reading::escape_at))]
    fn escape(&mut self) -> Result<Option<u8>, Stop>
        ensures { Reads (λ x. (x, self.new.rest.now)) result (escape_at self.old.rest.now) }
    {
        let [letter, rest @ ..] = self.rest else {
            return Err(syntax(self.pos));
        };
        match escaped(*letter) {
            Some(character) => {
                self.rest = rest;
                Ok(Some(character))
            }
            None => Err(syntax(self.pos)),
        }
    }

    /// Takes the next character, or the closing quote for none.
    #[tactic(auto, unfolding(df_ntree::specs::mirror::Reading::part_at))]
    fn next(&mut self) -> Result<Option<u8>, Stop>
        ensures { Reads (λ x. (x, self.new.rest.now)) result (part_at self.old.rest.now) }
    {
        let [byte, rest @ ..] = self.rest else {
            return Err(syntax(self.pos));
        };
        self.rest = rest;
        match *byte {
            b'"' => Ok(None),
            b'\\' => self.escape(),
            plain if is_plain(plain) => Ok(Some(plain)),
            _ => Err(syntax(self.pos)),
        }
    }

    /// Takes all characters, and the closing quote.
    fn all(&mut self, alloc: Global) -> Result<Vec<u8>, Stop>
        ensures { Reads (λ x. (x.items, self.new.rest.now)) result (all_of part_at self.old.rest.now) }
    {
        let mut characters = Vec::new(alloc);
        while let Some(character) = self.next()? {
            characters.push(character)?;
        }
        Ok(characters)
    }
}

/// The characters that the bytes of a string literal stand for; the literal stands at `pos`. It is
/// refused where the bytes are no string literal.
#[tactic(auto, unfolding(df_ntree::specs::mirror::Reading::characters_of))]
pub(crate) fn characters(alloc: Global, text: &[u8], pos: Pos) -> Result<Vec<u8>, Stop>
    ensures { Reads (λ x. x.items) result (characters_of text.now) }
{
    let [b'"', rest @ ..] = text else {
        return Err(syntax(pos));
    };
    let mut parts = Parts { rest, pos };
    let characters = parts.all(alloc)?;
    if !parts.rest.is_empty() {
        return Err(syntax(pos));
    }
    Ok(characters)
}
