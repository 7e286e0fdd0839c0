//! Declarations.

ghost use Rattle.df_lang.specs.Interval.{IsWithin};

use crate::expr::Expr;
use crate::interval::Interval;
use crate::stmt::{Measure, Stmt};
use crate::ty::Ty;
use df_base::{Name, Pos};

/// A declared name, its qualified text, and where it stands.
#[derive(Drop)]
pub struct Declared {
    pub name: Name,
    pub text: String,
    pub pos: Pos,
}

/// A newtype: its interval, and the value of a place that was given none.
#[derive(Drop)]
pub struct Newtype {
    pub declared: Declared,
    pub interval: Interval,
    pub default: i128,
    ghost holds_default: { IsWithin interval.low interval.high default },
}

/// A parameter or a result.
#[derive(Drop)]
pub struct Param {
    pub declared: Declared,
    pub ty: Ty,
    pub is_ghost: bool,
}

/// A condition of a contract or a loop; `pos` is the first token of its expression.
#[derive(Drop)]
pub struct Clause {
    pub pos: Pos,
    pub condition: Expr,
}

/// A method. The numbers of its locals are those of its parameters, then of its results, then of the
/// variables in the order of the text.
#[derive(Drop)]
pub struct Method {
    pub declared: Declared,
    pub parameters: Vec<Param>,
    pub results: Vec<Param>,
    /// What callers owe, over the parameters.
    pub preconditions: Vec<Clause>,
    /// What the method owes, over the parameters and the results.
    pub postconditions: Vec<Clause>,
    /// The measure, over the parameters; without one it is the parameters in order.
    pub decreases: Option<Vec<Measure>>,
    /// Where the body opens.
    pub pos: Pos,
    pub body: Vec<Stmt>,
}

/// A declaration.
#[derive(Drop)]
pub enum Decl {
    Newtype(Newtype),
    Method(Method),
}
