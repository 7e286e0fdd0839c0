//! What statements and declarations break.

ghost use Rattle.std.specs.Prelude.{◌≡◌};
ghost use Rattle.df_base.specs.declared.refusal.Stop.TheVariants as stops;
ghost use Rattle.df_ntyping.specs.Rule.{typing_number};
ghost use Rattle.df_ntexpr.specs.Replies.{Replies};
ghost use Rattle.df_ntstmt.specs.Rules.{typing_rule};
ghost use Rattle.df_ntstmt.specs.mirror.Steps as steps;

use df_base::{Code, Detail, Pos, Refusal, Stop};
use df_ntree::Ident;

/// The rules of typing that stand beside those of expressions.
#[derive(Clone, Copy, PartialEq, Eq)]
pub(crate) enum Rule {
    /// What is given to a place fits or narrows to its type.
    Given,
    /// Arguments match in number.
    ArgumentCount,
    /// A method is called, as a whole right side or statement.
    Calls,
    /// What is assigned is a local or a result, and there are as many left as right sides.
    Assigned,
    /// `return` gives no values or all results.
    Returned,
    /// `break` stands in a loop.
    Broken,
    /// Methods and loops have clauses of their own, and a loop has a measure.
    Clauses,
}

impl Rule {
    /// The number that is told.
    fn number(self) -> u8
        ensures { result ≡ typing_number (typing_rule self) }
    {
        match self {
            Rule::Given => 1,
            Rule::ArgumentCount => 14,
            Rule::Calls => 15,
            Rule::Assigned => 22,
            Rule::Returned => 23,
            Rule::Broken => 24,
            Rule::Clauses => 25,
        }
    }
}

/// A rule of typing is broken there.
pub(crate) fn broken(rule: Rule, pos: Pos) -> Stop
    ensures { result ≡ stops.Refused (steps.broken (typing_rule rule) pos) }
{
    Stop::Refused(Refusal {
        code: Code::Typing,
        pos,
        detail: Detail::Rule(rule.number()),
    })
}

/// The rule is broken there unless the test holds.
pub(crate) fn unless(holds: bool, rule: Rule, pos: Pos) -> Result<(), Stop>
    ensures { Replies (λ held. held) result (steps.unless holds (steps.broken (typing_rule rule) pos)) }
{
    if holds {
        Ok(())
    } else {
        Err(broken(rule, pos))
    }
}

/// Nothing fixes the type of the local.
pub(crate) fn uninferred(ident: &Ident) -> Stop
    ensures { result ≡ stops.Refused (steps.uninferred ident.now) }
{
    Stop::Refused(Refusal {
        code: Code::Uninferred,
        pos: ident.pos,
        detail: Detail::Nothing,
    })
}
