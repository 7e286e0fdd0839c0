//! What a production is.

use crate::label::Way;

/// A part of a production: a token of the terminal, or a tree of the production of the number.
#[derive(Clone, Copy, PartialEq, Eq)]
pub enum Part {
    Terminal(u8),
    Nonterminal(u16),
}

/// What a production has: all of its parts, one of them, or any number of them.
#[derive(Clone, Copy, PartialEq, Eq)]
pub enum Form {
    All,
    One,
    Many,
}

/// How a production counts for the height.
#[derive(Clone, Copy, PartialEq, Eq)]
pub enum Counting {
    Never,
    Always,
    /// Where there is something behind its first part.
    IfMore,
    /// Each of its trees does, over what stands before it.
    Each,
}

/// A production, whose list of parts is of a kind.
#[derive(Clone, Copy)]
pub struct Production<P> {
    pub form: Form,
    pub way: Way,
    pub parts: P,
    /// It may have no tokens.
    pub empty: bool,
    /// It ends only where none of its parts begins.
    pub greedy: bool,
    /// It begins only where its classes say so.
    pub narrow: bool,
    /// The classes of its first token; of its second token, where that counts; and, for proofs alone, of the token after it.
    pub first: u8,
    pub second: u8,
    pub follow: u8,
    pub counting: Counting,
    /// For proofs alone, where it is not always counted: more than the rank of its parts.
    pub rank: u8,
}

pub type GrammarRow = Production<&'static [Part]>;
