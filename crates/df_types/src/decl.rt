//! Declarations.

ghost use Rattle.df_types.specs.Interval.{IsWithin};

use crate::expr::Expr;
use crate::interval::Interval;
use crate::stmt::{Demand, Stmt, Typed};
use crate::ty::Ty;
use df_base::{Name, Pos};

/// A declared name, its qualified text, and where it stands.
#[derive(Drop)]
pub struct Declared {
    pub name: Name,
    pub text: String,
    pub pos: Pos,
}

/// A newtype: its interval, and the value of a place that was given none.
#[derive(Drop)]
pub struct Newtype {
    pub declared: Declared,
    pub interval: Interval,
    pub default: i128,
    ghost holds_default: { IsWithin interval.low interval.high default },
}

/// A local of a declaration, a field, or a part of a constructor. A part or a function's result without a name has
/// its type's place; a local that the text does not write, as the value of a `match`, is no place of compiled code.
#[derive(Drop)]
pub struct Variable {
    pub declared: Declared,
    pub ty: Ty,
    pub is_ghost: bool,
    pub is_written: bool,
}

/// A type parameter; `has_equality` where it is marked `(==)`.
#[derive(Drop)]
pub struct TypeParameter {
    pub declared: Declared,
    pub has_equality: bool,
}

#[derive(Drop)]
pub struct Constructor {
    pub declared: Declared,
    pub parts: Vec<Variable>,
}

#[derive(Drop)]
pub struct Datatype {
    pub declared: Declared,
    pub type_parameters: Vec<TypeParameter>,
    pub constructors: Vec<Constructor>,
}

#[derive(Drop)]
pub struct Class {
    pub declared: Declared,
    pub fields: Vec<Variable>,
}

/// A parameter or a result: a local by its number.
#[derive(Drop)]
pub struct Param {
    pub local: usize,
    pub ty: Ty,
    pub is_ghost: bool,
}

/// What functions, predicates, methods, lemmas and constructors have in common.
#[derive(Drop)]
pub struct Head {
    pub declared: Declared,
    pub is_ghost: bool,
    pub type_parameters: Vec<TypeParameter>,
    /// All locals by their numbers: parameters, results, and what the body declares.
    pub locals: Vec<Variable>,
    /// `this` of a member or a constructor.
    pub receiver: Option<usize>,
    pub parameters: Vec<Param>,
    pub results: Vec<Param>,
    /// What callers owe, over the parameters.
    pub preconditions: Vec<Demand>,
    /// The objects, and sets of them, that a function may read, or a method change.
    pub frame: Vec<Typed>,
    /// The measure, over the parameters; without one it is that by default.
    pub decreases: Option<Vec<Typed>>,
    /// What is owed, over the parameters and the results.
    pub postconditions: Vec<Demand>,
}

/// A function or a predicate.
#[derive(Drop)]
pub struct Function {
    pub head: Head,
    pub value: Expr,
}

/// A method, a constructor, or, where it is a ghost, a lemma.
#[derive(Drop)]
pub struct Method {
    pub head: Head,
    /// Where the body opens.
    pub pos: Pos,
    pub body: Vec<Stmt>,
}

/// A declaration.
#[derive(Drop)]
pub enum Decl {
    Newtype(Newtype),
    Datatype(Datatype),
    Class(Class),
    Function(Function),
    Method(Method),
}
