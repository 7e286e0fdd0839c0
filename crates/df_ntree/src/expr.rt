//! Expressions and types.

ghost use Rattle.std.specs.Prelude.{◌≡◌};
ghost use Rattle.df_ntree.specs.Operator.{group_of, level_of, tighter, is_cast_target};

use crate::tree::{Ident, Literal};
use df_base::Pos;

/// What a sign between two operands means.
#[derive(Clone, Copy, PartialEq, Eq)]
pub enum BinaryOperator {
    /// `<==>`
    Iff,
    /// `==>`
    Implies,
    /// `<==`
    Explies,
    /// `&&`
    And,
    /// `||`
    Or,
    /// `==`
    Equal,
    /// `!=`
    NotEqual,
    /// `<`
    Less,
    /// `<=`
    AtMost,
    /// `>`
    Greater,
    /// `>=`
    AtLeast,
    /// `+`
    Add,
    /// `-`
    Subtract,
    /// `*`
    Multiply,
    /// `/`
    Divide,
    /// `%`
    Modulo,
}

/// Operators that may stand side by side without parentheses.
#[derive(Clone, Copy, PartialEq, Eq)]
pub enum Group {
    /// `<==>`
    Equivalence,
    /// `==>`
    Implication,
    /// `<==`
    Explication,
    /// `&&`
    Conjunction,
    /// `||`
    Disjunction,
    /// `==`, `!=`, `<`, `<=`, `>` and `>=`
    Comparison,
    /// `+` and `-`
    Sum,
    /// `*`, `/` and `%`
    Product,
}

/// How tightly an expression holds together, the loosest level first.
#[derive(Clone, Copy, PartialEq, Eq)]
pub enum Level {
    /// `<==>`
    Equivalence,
    /// `==>` and `<==`
    Implication,
    /// `&&` and `||`
    Junction,
    /// `==`, `!=`, `<`, `<=`, `>` and `>=`
    Comparison,
    /// `+` and `-`
    Sum,
    /// `*`, `/` and `%`
    Product,
    /// `as` with a type.
    Cast,
    /// Signs before one operand.
    Unary,
    /// An atom with its suffixes.
    Primary,
}

impl BinaryOperator {
    /// The operators that may stand beside this one.
    pub fn group(self) -> Group
        ensures { result ≡ group_of self }
    {
        match self {
            BinaryOperator::Iff => Group::Equivalence,
            BinaryOperator::Implies => Group::Implication,
            BinaryOperator::Explies => Group::Explication,
            BinaryOperator::And => Group::Conjunction,
            BinaryOperator::Or => Group::Disjunction,
            BinaryOperator::Equal
            | BinaryOperator::NotEqual
            | BinaryOperator::Less
            | BinaryOperator::AtMost
            | BinaryOperator::Greater
            | BinaryOperator::AtLeast => Group::Comparison,
            BinaryOperator::Add | BinaryOperator::Subtract => Group::Sum,
            BinaryOperator::Multiply | BinaryOperator::Divide | BinaryOperator::Modulo => {
                Group::Product
            }
        }
    }
}

impl Group {
    /// The level of these operators.
    pub fn level(self) -> Level
        ensures { result ≡ level_of self }
    {
        match self {
            Group::Equivalence => Level::Equivalence,
            Group::Implication | Group::Explication => Level::Implication,
            Group::Conjunction | Group::Disjunction => Level::Junction,
            Group::Comparison => Level::Comparison,
            Group::Sum => Level::Sum,
            Group::Product => Level::Product,
        }
    }
}

impl Level {
    /// The level of the operands: the next tighter one.
    pub fn tighter(self) -> Level
        ensures { result ≡ tighter self }
    {
        match self {
            Level::Equivalence => Level::Implication,
            Level::Implication => Level::Junction,
            Level::Junction => Level::Comparison,
            Level::Comparison => Level::Sum,
            Level::Sum => Level::Product,
            Level::Product => Level::Cast,
            Level::Cast => Level::Unary,
            Level::Unary | Level::Primary => Level::Primary,
        }
    }
}

/// What a sign before an operand means.
#[derive(Clone, Copy, PartialEq, Eq)]
pub enum UnaryOperator {
    /// `-`
    Negate,
    /// `!`
    Not,
}

/// An expression.
#[cycle(expr)]
#[derive(Drop)]
pub enum Expr {
    /// A number; a minus right before it belongs to it.
    Number(Literal),
    /// A character literal, by its code.
    Character {
        code: u8,
        pos: Pos,
    },
    /// `true` or `false`.
    Truth {
        value: bool,
        pos: Pos,
    },
    Name(Ident),
    /// `(inner)`; `pos` is where it opens.
    Parentheses {
        pos: Pos,
        inner: Box<Expr>,
    },
    /// `callee(arguments)`.
    Call {
        callee: Box<Expr>,
        arguments: Vec<Expr>,
    },
    /// A sign at `pos`, and its operand.
    Unary {
        operator: UnaryOperator,
        pos: Pos,
        operand: Box<Expr>,
    },
    /// `operand as type as type`: at least one type.
    Cast {
        operand: Box<Expr>,
        types: Vec<TreeType>,
    },
    /// An operand and at least one operation of one group after it: `first op operand op operand`.
    /// A run of `==>` holds to the right, each other run to the left.
    Operations {
        first: Box<Expr>,
        rest: Vec<Operation>,
    },
    /// `&& a && b` or `|| a || b`: each operand has its sign before it, the first one too. There is
    /// at least one.
    Leading {
        operations: Vec<Operation>,
    },
}

/// A binary operator at `pos`, and the operand after it.
#[cycle(expr)]
#[derive(Drop)]
pub struct Operation {
    pub operator: BinaryOperator,
    pub pos: Pos,
    pub operand: Expr,
}

/// A type that is a word of the language.
#[derive(Clone, Copy, PartialEq, Eq)]
pub enum BasicType {
    Int,
    Nat,
    Bool,
    Char,
}

/// A type as it is written.
#[derive(Clone, Copy, PartialEq, Eq)]
pub enum TreeType {
    /// A word at `pos`.
    Basic { basic: BasicType, pos: Pos },
    /// The type that a name stands for.
    Named(Ident),
}

impl TreeType {
    /// Whether the type may follow `as`.
    pub fn is_cast_target(self) -> bool
        ensures { result ≡ is_cast_target self }
    {
        match self {
            TreeType::Basic { basic, .. } => match basic {
                BasicType::Int | BasicType::Nat | BasicType::Char => true,
                BasicType::Bool => false,
            },
            TreeType::Named(_) => true,
        }
    }
}
