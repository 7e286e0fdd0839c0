//! Statements.

use crate::expr::Expr;
use crate::kind::Kind;

/// What is printed.
#[derive(Drop)]
pub enum Operand {
    /// The characters of a string literal.
    Text(Vec<u8>),
    /// A value of the kind.
    Value { kind: Kind, value: Expr },
}

/// A call of the method of a number, counted from 0.
#[derive(Drop)]
pub struct Call {
    pub callee: usize,
    pub arguments: Vec<Expr>,
}

/// A right side.
#[derive(Drop)]
pub enum Source {
    Value(Expr),
    /// The results of a call.
    Call(Call),
}

/// Right sides, all of which are evaluated before the values go to the locals of these numbers: the values
/// of all in order, one for each local.
#[derive(Drop)]
pub struct Update {
    pub targets: Vec<usize>,
    pub sources: Vec<Source>,
}

/// A declared local, by its own number in the method.
#[derive(Drop)]
pub struct Variable {
    pub local: usize,
    pub kind: Kind,
}

/// A guard, and the statements that it guards.
#[cycle(stmt)]
#[derive(Drop)]
pub struct Branch {
    pub guard: Expr,
    pub body: Vec<Stmt>,
}

/// A statement.
#[cycle(stmt)]
#[derive(Drop)]
pub enum Stmt {
    Block(Vec<Stmt>),
    /// Locals without a value, and then the values that they are given.
    Var {
        variables: Vec<Variable>,
        update: Option<Update>,
    },
    Assign(Update),
    /// A call whose results are dropped.
    Call(Call),
    /// The first branch whose guard is true is taken, else the last statements.
    If {
        branches: Vec<Branch>,
        otherwise: Vec<Stmt>,
    },
    While {
        guard: Expr,
        body: Vec<Stmt>,
    },
    /// Ends the loop around it.
    Break,
    /// Gives the results values, if there are any with it, and ends the method.
    Return(Option<Update>),
    Print(Vec<Operand>),
}
