//! Operators that are next.

ghost use Rattle.std.specs.Prelude.{◌≡◌};
ghost use Rattle.df_ntree.specs.mirror.ExprReading.{operator_of, operator_by, operator_at, operator_in, leading, optional_operator, unary_by, optional_unary};
ghost use Rattle.df_npexpr.specs.Rest.{rest_of};

use crate::cursor::Cursor;
use df_base::Pos;
use df_ntree::{BinaryOperator, Group, Level, UnaryOperator};
use df_tok::{Kind, Sign};

/// The operator of a sign between two operands.
#[tactic(auto, unfolding(df_ntree::specs::mirror::ExprReading::operator_of))]
fn operator_of(sign: Sign) -> Option<BinaryOperator>
    ensures { result ≡ operator_of sign }
{
    match sign {
        Sign::Iff => Some(BinaryOperator::Iff),
        Sign::Implies => Some(BinaryOperator::Implies),
        Sign::Explies => Some(BinaryOperator::Explies),
        Sign::And => Some(BinaryOperator::And),
        Sign::Or => Some(BinaryOperator::Or),
        Sign::Equal => Some(BinaryOperator::Equal),
        Sign::NotEqual => Some(BinaryOperator::NotEqual),
        Sign::Less => Some(BinaryOperator::Less),
        Sign::AtMost => Some(BinaryOperator::AtMost),
        Sign::Greater => Some(BinaryOperator::Greater),
        Sign::AtLeast => Some(BinaryOperator::AtLeast),
        Sign::Plus => Some(BinaryOperator::Add),
        Sign::Minus => Some(BinaryOperator::Subtract),
        Sign::Times => Some(BinaryOperator::Multiply),
        Sign::Divide => Some(BinaryOperator::Divide),
        Sign::Modulo => Some(BinaryOperator::Modulo),
        _ => None,
    }
}

fn operator_by(kind: Kind) -> Option<BinaryOperator>
    ensures { result ≡ operator_by kind }
{
    match kind {
        Kind::Sign(sign) => operator_of(sign),
        _ => None,
    }
}

/// The sign before an operand that a token is.
fn unary_by(kind: Kind) -> Option<UnaryOperator>
    ensures { result ≡ unary_by kind }
{
    match kind {
        Kind::Sign(Sign::Minus) => Some(UnaryOperator::Negate),
        Kind::Sign(Sign::Not) => Some(UnaryOperator::Not),
        _ => None,
    }
}

impl Cursor<'_, '_> {
    /// The operator whose sign is next.
    #[tactic(auto, unfolding(df_ntree::specs::mirror::ExprReading::operator_at))]
    pub(crate) fn operator(&self) -> Option<BinaryOperator>
        ensures { result ≡ operator_at (rest_of self.now) }
    {
        match self.rest {
            [] => None,
            [token, ..] => operator_by(token.kind),
        }
    }

    /// The operator whose sign is next, where it is of the level.
    #[tactic(auto, unfolding(df_ntree::specs::mirror::ExprReading::operator_in))]
    pub(crate) fn operator_in(&self, level: Level) -> Option<BinaryOperator>
        ensures { result ≡ operator_in level (rest_of self.now) }
    {
        let operator = self.operator()?;
        if operator.group().level() == level {
            Some(operator)
        } else {
            None
        }
    }

    /// The `&&` or `||` that is next, where the level may begin with one.
    #[tactic(auto, unfolding(df_ntree::specs::mirror::ExprReading::leading))]
    pub(crate) fn leading(&self, level: Level) -> Option<BinaryOperator>
        ensures { result ≡ leading level (rest_of self.now) }
    {
        match level {
            Level::Junction => self.operator_in(level),
            _ => None,
        }
    }

    /// Takes the operator where one of the group is next, and says at which position it was.
    #[tactic(auto, unfolding(df_ntree::specs::mirror::ExprReading::optional_operator))]
    pub(crate) fn optional_operator(&mut self, group: Group) -> Option<(BinaryOperator, Pos)>
        ensures { optional_operator group (rest_of self.old) ≡ (result, rest_of self.new) }
    {
        let [token, rest @ ..] = self.rest else {
            return None;
        };
        let pos = token.pos;
        let operator = operator_by(token.kind)?;
        if operator.group() == group {
            self.rest = rest;
            Some((operator, pos))
        } else {
            None
        }
    }

    /// Takes the sign before an operand where one is next, and says at which position it was.
    #[tactic(auto, unfolding(df_ntree::specs::mirror::ExprReading::optional_unary))]
    pub(crate) fn optional_unary(&mut self) -> Option<(UnaryOperator, Pos)>
        ensures { optional_unary (rest_of self.old) ≡ (result, rest_of self.new) }
    {
        let [token, rest @ ..] = self.rest else {
            return None;
        };
        let pos = token.pos;
        let operator = unary_by(token.kind)?;
        self.rest = rest;
        Some((operator, pos))
    }
}
