//! The lexer: divides the bytes of a source into tokens.
#![tactic(auto)]

ghost use Rattle.std.specs.Prelude.{◌≡◌, ℕ, ◌≤◌, List, length, map, Contains};
ghost use Rattle.df_tok.specs.Token as pure;
ghost use Rattle.df_base.specs.declared.refusal.Refusal.{Refusal};
ghost use Rattle.df_tok.specs.Division.{Divides};
ghost use Rattle.df_tok.specs.Fault.{IsFault};
ghost use Rattle.df_tok.specs.Limits.{byte_limit, token_limit};

mod begun;
mod byte;
mod comment;
mod kind;
mod literal;
mod pos;
mod reader;
mod run;
mod scan;
mod sign;
mod token;
mod word;

pub use reader::tokens;
pub use sign::Sign;
pub use token::{Kind, Token, Tokens};
pub use word::Word;

/// A source divides in at most one way, so that its tokens and their names are determined.
pub fn one_division()
    ensures { (before : List (List ℕ)) (source : List ℕ) (tokens others : List pure.Token) (after last : List (List ℕ))
        → Divides before source tokens after → Divides before source others last → (tokens ≡ others) × (after ≡ last) }
{}

/// A source with a fault divides in no way within the limits, so that just what cannot be divided is refused.
pub fn no_division()
    ensures { (before : List (List ℕ)) (source : List ℕ) (r : Refusal) (tokens : List pure.Token) (after : List (List ℕ))
        → IsFault before source r → Divides before source tokens after → length source ≤ byte_limit → length tokens ≤ token_limit → ⊥ }
{}

/// A source has at most one fault to be refused for.
pub fn one_fault()
    ensures { (before : List (List ℕ)) (source : List ℕ) (r other : Refusal) → IsFault before source r → IsFault before source other → r ≡ other }
{}

/// No two tokens of a source stand at one position.
pub fn one_pos()
    ensures { (before : List (List ℕ)) (source : List ℕ) (tokens : List pure.Token) (after : List (List ℕ)) (one other : pure.Token)
        → Divides before source tokens after → Contains tokens one → Contains tokens other → one.pos ≡ other.pos → one ≡ other }
{}
