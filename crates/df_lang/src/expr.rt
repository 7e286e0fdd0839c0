//! Typed expressions. Operands of one level are lists, one form for each kind of run.

use crate::ty::Ty;
use df_base::{Name, Pos};

#[derive(Clone, Copy, PartialEq, Eq)]
pub enum AddendOperator {
    Plus,
    Minus,
}

/// Division and its remainder are Euclidean.
#[derive(Clone, Copy, PartialEq, Eq)]
pub enum FactorOperator {
    Times,
    Divide,
    Modulo,
}

#[derive(Clone, Copy, PartialEq, Eq)]
pub enum Junction {
    And,
    Or,
}

/// The sign of a run of implications as it is written.
#[derive(Clone, Copy, PartialEq, Eq)]
pub enum Arrow {
    /// `==>`
    Implies,
    /// `<==`, turned around: the operand that is written last is the first one.
    Explies,
}

/// How two neighbours of a chain compare.
#[derive(Clone, Copy, PartialEq, Eq)]
pub enum Comparison {
    Equal,
    NotEqual,
    Less,
    AtMost,
    Greater,
    AtLeast,
}

/// An expression. `pos` is that of its sign, or else of its first token.
#[cycle(expr)]
#[derive(Drop)]
pub enum Expr {
    /// A literal of an integer type.
    Number {
        ty: Ty,
        value: i128,
        pos: Pos,
    },
    Truth {
        value: bool,
        pos: Pos,
    },
    /// A character by its code.
    Character {
        code: u8,
        pos: Pos,
    },
    /// A local by its own number.
    Local {
        local: usize,
        name: Name,
        pos: Pos,
    },
    Negate {
        ty: Ty,
        pos: Pos,
        operand: Box<Expr>,
    },
    Not {
        pos: Pos,
        operand: Box<Expr>,
    },
    /// Sums and differences of the type, from the left.
    Sum {
        ty: Ty,
        first: Box<Expr>,
        rest: Vec<Addend>,
    },
    /// Products, quotients and remainders of the type, from the left.
    Product {
        ty: Ty,
        first: Box<Expr>,
        rest: Vec<Factor>,
    },
    /// All are true, or one is: the first that decides it is the last one that is evaluated.
    Junction {
        junction: Junction,
        first: Box<Expr>,
        rest: Vec<Member>,
    },
    /// Implications, from the right.
    Implies {
        arrow: Arrow,
        first: Box<Expr>,
        rest: Vec<Member>,
    },
    /// Equivalences, from the left.
    Iff {
        first: Box<Expr>,
        rest: Vec<Member>,
    },
    /// A chain of comparisons of values of the type.
    Chain {
        ty: Ty,
        first: Box<Expr>,
        rest: Vec<Link>,
    },
    /// A number or a character as a value of another type, which it must be.
    As {
        source: Ty,
        target: Ty,
        pos: Pos,
        operand: Box<Expr>,
    },
    /// A value at a place of another type that it fits or is narrowed to.
    Convert {
        source: Ty,
        target: Ty,
        pos: Pos,
        operand: Box<Expr>,
    },
}

#[cycle(expr)]
#[derive(Drop)]
pub struct Addend {
    pub operator: AddendOperator,
    pub pos: Pos,
    pub operand: Expr,
}

#[cycle(expr)]
#[derive(Drop)]
pub struct Factor {
    pub operator: FactorOperator,
    pub pos: Pos,
    pub operand: Expr,
}

/// An operand behind a logical operator at `pos`.
#[cycle(expr)]
#[derive(Drop)]
pub struct Member {
    pub pos: Pos,
    pub operand: Expr,
}

/// A comparison at `pos`, and its right operand.
#[cycle(expr)]
#[derive(Drop)]
pub struct Link {
    pub comparison: Comparison,
    pub pos: Pos,
    pub operand: Expr,
}
