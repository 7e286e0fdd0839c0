//! Rules, and where they are broken.

use df_tree::Span;
use df_types::Comparison;

/// A rule of names or of typing.
#[derive(Clone, Copy, PartialEq, Eq)]
pub enum Rule {
    /// S6: a name has no meaning there.
    Unknown,
    /// S7: a name is declared twice in one scope.
    Twice,
    /// S9: the rule of typing of this number.
    Typing(u8),
    /// S10: no rule fixes a type.
    Uninferred,
    /// S11: a newtype is not of its form, or its range does not hold its default.
    Range,
}

/// Arithmetic of two operands.
#[derive(Clone, Copy, PartialEq, Eq)]
pub enum Operation {
    Add,
    Subtract,
    Multiply,
    Divide,
    Modulo,
}

/// What a sign does with the operands on its two sides.
#[derive(Clone, Copy, PartialEq, Eq)]
pub enum Operator {
    Arithmetic(Operation),
    Order(Comparison),
    Equality(Comparison),
    /// Equality of truths.
    Equivalence,
    Logic,
    /// It stands between no two operands.
    Nothing,
}

/// A rule is broken by the construct of this text. It is told at a token, with a name where it is a rule of names.
#[derive(Clone, Copy, PartialEq, Eq)]
pub struct Fault {
    pub rule: Rule,
    pub span: Span,
    pub place: usize,
    pub name: u32,
}
