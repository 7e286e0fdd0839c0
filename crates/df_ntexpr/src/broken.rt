//! What an expression breaks.

ghost use Rattle.std.specs.Prelude.{◌≡◌};
ghost use Rattle.df_ntexpr.specs.declared.broken.Halt.TheVariants.{Memory as out_of_memory};
ghost use Rattle.df_base.specs.declared.refusal.Stop.TheVariants as stops;
ghost use Rattle.df_ntyping.specs.Rule.{typing_number};
ghost use Rattle.df_ntyping.specs.mirror.Parts.{refusal_of};
ghost use Rattle.df_ntexpr.specs.Parts.{typing_rule, breach_of};

use df_base::{Code, Detail, Pos, Refusal, Stop};
use std::alloc::{AllocError, AllocFailed};

/// The rules of typing that an expression can break.
#[derive(Clone, Copy, PartialEq, Eq)]
pub(crate) enum Rule {
    /// What is given to a place fits or narrows to its type.
    Given,
    /// Operands of arithmetic are of one integer type.
    Arithmetic,
    /// Operands of comparisons by order are of one integer type, or characters.
    Order,
    /// One side of an equality fits the other.
    Equality,
    /// A chain keeps its direction.
    Direction,
    /// Operands of logical operators are truths.
    Truths,
    /// Arguments match in number.
    ArgumentCount,
    /// A method is called, as a whole right side or statement.
    Calls,
    /// What `as` goes between.
    Casts,
}

impl Rule {
    /// The number that is told.
    fn number(self) -> u8
        ensures { result ≡ typing_number (typing_rule self) }
    {
        match self {
            Rule::Given => 1,
            Rule::Arithmetic => 3,
            Rule::Order => 4,
            Rule::Equality => 5,
            Rule::Direction => 6,
            Rule::Truths => 7,
            Rule::ArgumentCount => 14,
            Rule::Calls => 15,
            Rule::Casts => 18,
        }
    }
}

/// A rule that is broken, where it is told, and whether the node that breaks it is as long as the
/// whole expression.
#[derive(Clone, Copy, PartialEq, Eq)]
pub(crate) struct Broken {
    pub(crate) rule: Rule,
    pub(crate) pos: Pos,
    pub(crate) is_whole: bool,
}

/// Why an expression is not typed.
#[derive(Clone, Copy, PartialEq, Eq)]
pub(crate) enum Halt {
    Broken(Broken),
    Memory,
}

impl From<AllocError> for Halt {
    ghost from_gives = { λ _ halt. halt ≡ out_of_memory };

    fn from(_error: AllocError) -> Halt {
        Halt::Memory
    }
}

impl<T: Drop> From<AllocFailed<T>> for Halt {
    ghost from_gives = { λ _ halt. halt ≡ out_of_memory };

    fn from(_error: AllocFailed<T>) -> Halt {
        Halt::Memory
    }
}

/// The rule is broken there.
pub(crate) fn breach(rule: Rule, pos: Pos, is_whole: bool) -> Halt
    ensures { result ≡ Halt.Broken (record { rule = rule; pos = pos; is_whole = is_whole }) }
{
    Halt::Broken(Broken {
        rule,
        pos,
        is_whole,
    })
}

impl Broken {
    /// How it is told.
    pub(crate) fn refusal(self) -> Refusal
        ensures { result ≡ refusal_of (breach_of self) }
    {
        Refusal {
            code: Code::Typing,
            pos: self.pos,
            detail: Detail::Rule(self.rule.number()),
        }
    }
}
