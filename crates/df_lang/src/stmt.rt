//! Typed statements.

use crate::decl::Clause;
use crate::expr::Expr;
use crate::ty::{DeclId, Ty};
use df_base::{Name, Pos};

/// What is printed.
#[derive(Drop)]
pub enum Operand {
    /// The characters of a string literal.
    Text(Vec<u8>),
    /// A value of the type.
    Value { ty: Ty, value: Expr },
}

/// A local that takes a value of its type.
#[derive(Drop)]
pub struct Target {
    pub local: usize,
    pub name: Name,
    pub pos: Pos,
    pub ty: Ty,
}

/// A call of a method; `pos` is the first token of its name.
#[derive(Drop)]
pub struct Call {
    pub callee: DeclId,
    pub name: Name,
    pub pos: Pos,
    pub arguments: Vec<Expr>,
}

/// A value of one type at a place of another, which it fits or is narrowed to.
#[derive(Clone, Copy, PartialEq, Eq)]
pub struct Conversion {
    pub source: Ty,
    pub target: Ty,
}

/// A right side.
#[derive(Drop)]
pub enum Source {
    /// A value of the type.
    Value {
        ty: Ty,
        value: Expr,
    },
    /// The results of a call, each converted to the type of its place.
    Call {
        call: Call,
        results: Vec<Conversion>,
    },
}

/// Right sides, all of which are evaluated before the values go to their places: the values of all in
/// order, one for each target.
#[derive(Drop)]
pub struct Update {
    pub targets: Vec<Target>,
    pub sources: Vec<Source>,
}

/// A declared local, with its own number in the method.
#[derive(Drop)]
pub struct Variable {
    pub name: Name,
    pub pos: Pos,
    pub ty: Ty,
    pub is_ghost: bool,
    pub local: usize,
}

/// A member of a measure.
#[derive(Drop)]
pub struct Measure {
    pub ty: Ty,
    pub value: Expr,
}

/// A guard, and the statements that it guards; `pos` is the word `if`.
#[cycle(stmt)]
#[derive(Drop)]
pub struct Branch {
    pub pos: Pos,
    pub guard: Expr,
    pub body: Vec<Stmt>,
}

/// A statement; `pos` is its first token.
#[cycle(stmt)]
#[derive(Drop)]
pub enum Stmt {
    Block {
        pos: Pos,
        body: Vec<Stmt>,
    },
    /// Locals without a value, and then the values that they are given.
    Var {
        pos: Pos,
        variables: Vec<Variable>,
        update: Option<Update>,
    },
    Assign {
        pos: Pos,
        update: Update,
    },
    /// A call whose results are dropped.
    Call(Call),
    /// The first branch whose guard is true is taken, else the last statements.
    If {
        branches: Vec<Branch>,
        otherwise: Vec<Stmt>,
    },
    While {
        pos: Pos,
        guard: Expr,
        invariants: Vec<Clause>,
        decreases: Option<Vec<Measure>>,
        body: Vec<Stmt>,
    },
    Break {
        pos: Pos,
    },
    /// Gives the results values, if there are any with it, and ends the method.
    Return {
        pos: Pos,
        update: Option<Update>,
    },
    Assert {
        pos: Pos,
        condition: Expr,
    },
    Print {
        pos: Pos,
        operands: Vec<Operand>,
    },
}
