//! Typed expressions. Operands of one level are lists: contracts see `a + b - c` as `(a + b) - c`.

use crate::op::{Comparison, Op};
use crate::ty::{DeclId, Ty};
use df_base::{Name, Pos};

/// How the members of a junction are joined: as many are evaluated as are needed.
#[derive(Clone, Copy, PartialEq, Eq)]
pub enum Connective {
    And,
    Or,
    /// `a ==> b ==> c`, from the right.
    Implies,
    /// `c <== b <== a`: the same, and its members are turned around, so that the first is evaluated first.
    Explies,
}

#[derive(Clone, Copy, PartialEq, Eq)]
pub enum Quantifier {
    Forall,
    Exists,
}

/// A variable that an expression, a proof or a choice binds. One that the text does not write, as the value of a
/// `match`, is no place of compiled code.
#[derive(Drop)]
pub struct Binder {
    pub name: Name,
    pub pos: Pos,
    pub ty: Ty,
    pub is_written: bool,
}

/// An expression. `pos` is that of its sign, or else of its first token.
#[cycle(expr)]
#[derive(Drop)]
pub enum Expr {
    /// A local by its own number.
    Local {
        local: usize,
        name: Name,
        pos: Pos,
    },
    /// The value of a binder around it: the innermost is 0.
    Bound {
        index: usize,
        name: Name,
        pos: Pos,
    },
    Apply {
        op: Op,
        pos: Pos,
        arguments: Vec<Expr>,
    },
    /// Operations of two operands, from the left.
    Fold {
        first: Box<Expr>,
        rest: Vec<Operand>,
    },
    /// `&&`, `||`, `==>` or `<==`.
    Junction {
        connective: Connective,
        first: Box<Expr>,
        rest: Vec<Expr>,
    },
    /// A chain of three values of the type or more: the first false neighbours end it.
    Chain {
        ty: Ty,
        first: Box<Expr>,
        rest: Vec<Link>,
    },
    /// The value of the first arm whose guard is true, or else the last one.
    If {
        ty: Ty,
        arms: Vec<Arm>,
        otherwise: Box<Expr>,
    },
    Let {
        variable: Binder,
        is_ghost: bool,
        value: Box<Expr>,
        body: Box<Expr>,
    },
    /// A function at types for its type parameters; `pos` is the callee's first token.
    Call {
        callee: DeclId,
        types: Vec<Ty>,
        pos: Pos,
        arguments: Vec<Expr>,
    },
    /// Over a range of values, with a number that no quantifier inside it has; `pos` is its word.
    Quantify {
        site: usize,
        pos: Pos,
        quantifier: Quantifier,
        variable: Binder,
        extent: Extent,
        triggers: Vec<Trigger>,
        body: Box<Expr>,
    },
    /// In the heap at entry.
    Old {
        pos: Pos,
        operand: Box<Expr>,
    },
}

/// An operation with the value on its left, and its right operand.
#[cycle(expr)]
#[derive(Drop)]
pub struct Operand {
    pub op: Op,
    pub pos: Pos,
    pub operand: Expr,
}

/// A comparison with the member before it, at `pos`.
#[cycle(expr)]
#[derive(Drop)]
pub struct Link {
    pub comparison: Comparison,
    pub pos: Pos,
    pub operand: Expr,
}

#[cycle(expr)]
#[derive(Drop)]
pub struct Arm {
    pub guard: Expr,
    pub value: Expr,
}

/// The range of a variable.
#[cycle(expr)]
#[derive(Drop)]
pub enum Extent {
    /// Numbers or characters of the type between two ends.
    Between {
        ty: Ty,
        low: Box<Expr>,
        is_low_strict: bool,
        high: Box<Expr>,
        is_high_strict: bool,
    },
    /// What stands in a sequence or a set of the type.
    Among {
        ty: Ty,
        container: Box<Expr>,
    },
}

/// A term that a quantifier is to be used at.
#[cycle(expr)]
#[derive(Drop)]
pub struct Trigger {
    pub ty: Ty,
    pub term: Expr,
}
