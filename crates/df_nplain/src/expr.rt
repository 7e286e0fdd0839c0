//! Expressions. Operands of one level are lists, one form for each kind of run.

use crate::kind::{Kind, Range};
use df_lang::{AddendOperator, Comparison, FactorOperator, Junction};

/// An expression.
#[cycle(expr)]
#[derive(Drop)]
pub enum Expr {
    Number(i128),
    Truth(bool),
    /// A character by its code.
    Character(u8),
    /// A local by its own number.
    Local(usize),
    /// The number with its sign turned, which has to lie in the range.
    Negate {
        range: Range,
        operand: Box<Expr>,
    },
    Not(Box<Expr>),
    /// Sums and differences from the left, each of which has to lie in the range.
    Sum {
        range: Range,
        first: Box<Expr>,
        rest: Vec<Addend>,
    },
    /// Products, quotients and remainders from the left, each of which has to lie in the range.
    Product {
        range: Range,
        first: Box<Expr>,
        rest: Vec<Factor>,
    },
    /// All are true, or one is: the first that decides it is the last one that is evaluated.
    Junction {
        junction: Junction,
        first: Box<Expr>,
        rest: Vec<Expr>,
    },
    /// Implications, from the right.
    Implies {
        first: Box<Expr>,
        rest: Vec<Expr>,
    },
    /// Equivalences, from the left.
    Iff {
        first: Box<Expr>,
        rest: Vec<Expr>,
    },
    /// A chain of comparisons: each two neighbours compare so.
    Chain {
        first: Box<Expr>,
        rest: Vec<Link>,
    },
    /// A number or a character as a value of another kind, which it must be.
    As {
        source: Kind,
        target: Kind,
        operand: Box<Expr>,
    },
}

#[cycle(expr)]
#[derive(Drop)]
pub struct Addend {
    pub operator: AddendOperator,
    pub operand: Expr,
}

/// Division and its remainder are Euclidean.
#[cycle(expr)]
#[derive(Drop)]
pub struct Factor {
    pub operator: FactorOperator,
    pub operand: Expr,
}

/// A comparison and its right operand.
#[cycle(expr)]
#[derive(Drop)]
pub struct Link {
    pub comparison: Comparison,
    pub operand: Expr,
}
