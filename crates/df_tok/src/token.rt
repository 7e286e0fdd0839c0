use crate::sign::Sign;
use crate::word::Word;
use df_base::{Name, Pos};

/// What a token is.
#[derive(Clone, Copy, PartialEq, Eq)]
pub enum Kind {
    Name(Name),
    /// A word of Dafny that is outside the language.
    Outside(Name),
    /// `_` alone.
    Wildcard,
    Word(Word),
    /// A number literal, at most 2^127 - 1.
    Number(u128),
    /// A character literal, as its code.
    Character(u8),
    /// A string literal.
    Text,
    Sign(Sign),
}

/// A token: what it is, its bytes in the source, and where they begin.
#[derive(Clone, Copy)]
pub struct Token<'a> {
    pub kind: Kind,
    pub text: &'a [u8],
    pub pos: Pos,
}

/// The tokens of a source, in order.
#[derive(Drop)]
pub struct Tokens<'a> {
    pub all: Vec<Token<'a>>,
}
