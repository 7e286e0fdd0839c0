//! How the front refuses a source.

ghost use Rattle.std.specs.Prelude.{◌≡◌};
ghost use Rattle.df_base.specs.declared.refusal.Stop.TheVariants.{Memory as out_of_memory};

use crate::memory::Memory;
use crate::name::Name;
use crate::pos::Pos;
use std::alloc::{AllocError, AllocFailed};

/// What is wrong with a source. Each code is printed as `S` and its number.
#[derive(Clone, Copy, Debug, PartialEq, Eq)]
pub enum Code {
    /// S1: a byte of 128 or more outside comments stops the reading.
    Byte,
    /// S2: no token stands there.
    Token,
    /// S3: a literal is above 2^127 - 1.
    Number,
    /// S4: a token is a word outside the language.
    Outside,
    /// S5: no tree of the grammar spells the tokens.
    Syntax,
    /// S6: a name has no meaning there.
    Unknown,
    /// S7: a name is declared twice in one scope, or two opened modules give it.
    Twice,
    /// S8: imports form a circle.
    Cycle,
    /// S9: a typing rule is broken.
    Typing,
    /// S10: no rule fixes a type.
    Uninferred,
    /// S11: a newtype's range is not of its form, or holds no default.
    Range,
    /// S12: a ghost rule is broken.
    Ghost,
    /// S13: a local, result or field has no value where it is read or left.
    Unassigned,
    /// S14: the file has more than 4194304 bytes, or more than 500000 tokens.
    Limit,
    /// S15: no value of a datatype can be built.
    Empty,
}

/// What a refusal tells beside its code and place.
#[derive(Clone, Copy, PartialEq, Eq)]
pub enum Detail {
    Nothing,
    Word(Name),
    /// The number of a typing or ghost rule.
    Rule(u8),
    Count(u64),
}

/// A source is refused: why, and where.
#[derive(Clone, Copy, PartialEq, Eq)]
pub struct Refusal {
    pub code: Code,
    pub pos: Pos,
    pub detail: Detail,
}

/// Why a call of the front has no result.
#[derive(Clone, Copy, PartialEq, Eq)]
pub enum Stop {
    Refused(Refusal),
    Memory,
}

impl From<Memory> for Stop {
    ghost from_gives = { λ _ stop. stop ≡ out_of_memory };

    fn from(_memory: Memory) -> Stop {
        Stop::Memory
    }
}

impl From<AllocError> for Stop {
    ghost from_gives = { λ _ stop. stop ≡ out_of_memory };

    fn from(_error: AllocError) -> Stop {
        Stop::Memory
    }
}

impl<T: Drop> From<AllocFailed<T>> for Stop {
    ghost from_gives = { λ _ stop. stop ≡ out_of_memory };

    fn from(_error: AllocFailed<T>) -> Stop {
        Stop::Memory
    }
}
