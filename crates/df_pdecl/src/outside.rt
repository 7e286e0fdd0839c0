//! Words of Dafny that are outside the language.

ghost use Rattle.std.specs.Prelude.{◌≡◌, map};
ghost use Rattle.df_tok.specs.Token.{view};
ghost use Rattle.df_pdecl.specs.Refusing.{outside_of, begins_attribute as kind_begins_attribute, begins_with_false as begins_false, is_attribute_outside as is_outside_attribute, attribute_outside as outside_attribute, named_outside as attribute_named, outside_at as token_outside, first_outside};

use df_base::{Code, Detail, Refusal};
use df_tok::{Kind, Sign, Token, Word};

/// The refusal of a word outside the language.
fn outside(token: &Token) -> Option<Refusal>
    ensures { result ≡ outside_of (view token.now) }
{
    match token.kind {
        Kind::Outside(name) => Some(Refusal {
            code: Code::Outside,
            pos: token.pos,
            detail: Detail::Word(name),
        }),
        _ => None,
    }
}

/// Whether the token begins an attribute.
fn begins_attribute(token: &Token) -> bool
    ensures { result ≡ kind_begins_attribute (view token.now).kind }
{
    match token.kind {
        Kind::Sign(sign) => sign == Sign::OpenAttribute,
        _ => false,
    }
}

fn begins_with_false(tokens: &[Token]) -> bool
    ensures { result ≡ begins_false (map view tokens.now) }
{
    match tokens {
        [first, ..] => match first.kind {
            Kind::Word(word) => word == Word::False,
            _ => false,
        },
        [] => false,
    }
}

/// Whether an attribute of this name is outside the language, before these tokens.
fn is_attribute_outside(text: &[u8], after: &[Token]) -> bool
    ensures { result ≡ is_outside_attribute text.now (map view after.now) }
{
    text == b"axiom".as_slice()
        || text == b"extern".as_slice()
        || (text == b"verify".as_slice() && begins_with_false(after))
}

/// The refusal of an attribute outside the language, by its name.
fn attribute_outside(token: &Token, after: &[Token]) -> Option<Refusal>
    ensures { result ≡ outside_attribute (view token.now).kind (view token.now).pos (view token.now).text (map view after.now) }
{
    match token.kind {
        Kind::Name(name) if is_attribute_outside(token.text, after) => Some(Refusal {
            code: Code::Outside,
            pos: token.pos,
            detail: Detail::Word(name),
        }),
        _ => None,
    }
}

/// The refusal of an attribute outside the language, whose name comes first.
fn named_outside(tokens: &[Token]) -> Option<Refusal>
    ensures { result ≡ attribute_named (map view tokens.now) }
{
    match tokens {
        [name, after @ ..] => attribute_outside(name, after),
        [] => None,
    }
}

/// The refusal of a token that is outside the language, or begins an attribute outside it, before others.
fn outside_at(token: &Token, after: &[Token]) -> Option<Refusal>
    ensures { result ≡ token_outside (view token.now) (map view after.now) }
{
    match outside(token) {
        Some(refusal) => Some(refusal),
        None if begins_attribute(token) => named_outside(after),
        None => None,
    }
}

/// The refusal of the first word outside the language.
pub(crate) fn first_outside(tokens: &[Token]) -> Option<Refusal>
    ensures { result ≡ first_outside (map view tokens.now) }
{
    for (number, token) in tokens.iter().enumerate() {
        if let Some(refusal) = outside_at(token, &tokens[number + 1..]) {
            return Some(refusal);
        }
    }
    None
}
