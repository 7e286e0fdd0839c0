//! Typed statements.

use crate::expr::{Binder, Expr, Extent};
use crate::kind::Kind;
use crate::op::Op;
use crate::ty::{DeclId, Ty};
use df_base::{Name, Pos};

/// What is to be true, and the kind that is told where it is not; `pos` is the first token of the expression of
/// a contract, an invariant or an `ensures` of a `forall` statement, of the first line of a step of `calc`, or the
/// word `assert`.
#[derive(Drop)]
pub struct Demand {
    pub kind: Kind,
    pub pos: Pos,
    pub condition: Expr,
}

/// An expression with its type: a member of a measure, of a frame, or what is printed.
#[derive(Drop)]
pub struct Typed {
    pub ty: Ty,
    pub value: Expr,
}

/// A place that takes a value of its type.
#[derive(Drop)]
pub enum Target {
    /// What is dropped.
    Nowhere {
        ty: Ty,
    },
    Local {
        local: usize,
        name: Name,
        pos: Pos,
        ty: Ty,
    },
    Field {
        object: Expr,
        class: DeclId,
        field: usize,
        pos: Pos,
        ty: Ty,
    },
    Element {
        array: Expr,
        index: Expr,
        pos: Pos,
        ty: Ty,
    },
}

/// A call of a method, a lemma or a constructor, which gives its object; `pos` is the first token of the
/// callee.
#[derive(Drop)]
pub struct Call {
    pub site: usize,
    pub callee: DeclId,
    pub types: Vec<Ty>,
    pub pos: Pos,
    pub arguments: Vec<Expr>,
}

/// A right side.
#[derive(Drop)]
pub enum Source {
    Value(Typed),
    /// The results of a call, each by an operation at the type of its place.
    Results {
        call: Call,
        conversions: Vec<Op>,
    },
    /// A new array, with the elements that are listed, or else the type's default; `pos` is the word `new`.
    Array {
        site: usize,
        element: Ty,
        pos: Pos,
        size: Expr,
        elements: Option<Vec<Expr>>,
    },
}

/// Right sides and the places on the left, all of which are evaluated before any place takes its value.
#[derive(Drop)]
pub struct Update {
    pub targets: Vec<Target>,
    pub sources: Vec<Source>,
}

/// A bound variable with its range.
#[derive(Drop)]
pub struct Range {
    pub variable: Binder,
    pub extent: Extent,
}

/// What a proof is for: for all values of the ranges, where what is given is true, or once. Just that is known
/// behind it.
#[derive(Drop)]
pub struct Aim {
    pub ranges: Vec<Range>,
    pub given: Option<Expr>,
    pub claims: Vec<Demand>,
}

/// A guard, and the statements that it guards.
#[cycle(stmt)]
#[derive(Drop)]
pub struct Branch {
    pub guard: Expr,
    pub body: Vec<Stmt>,
}

/// A statement. Calls, loops, choices, proofs and new objects have a number of their own in the declaration, `site`,
/// by which a modular run finds what is handed in; 0 is none.
#[cycle(stmt)]
#[derive(Drop)]
pub enum Stmt {
    /// Locals without a value.
    Declare {
        locals: Vec<usize>,
    },
    Assign(Update),
    /// Values of the ranges that meet the condition; the quantifier of each range has the number of the site, counted
    /// on.
    Choose {
        site: usize,
        pos: Pos,
        targets: Vec<Target>,
        ranges: Vec<Range>,
        condition: Expr,
    },
    /// The first branch whose guard is true is taken, else the last statements.
    Branch {
        branches: Vec<Branch>,
        otherwise: Vec<Stmt>,
    },
    While {
        site: usize,
        pos: Pos,
        guard: Expr,
        invariants: Vec<Demand>,
        decreases: Option<Vec<Typed>>,
        body: Vec<Stmt>,
    },
    Break {
        pos: Pos,
    },
    /// Gives the results values, if there are any with it, and ends the declaration.
    Return {
        pos: Pos,
        update: Option<Update>,
    },
    Check(Demand),
    /// A proof of its own, whose changes are dropped. In what is known behind it the quantifier of each range has a
    /// number from behind the site on.
    Prove {
        site: usize,
        pos: Pos,
        aim: Aim,
        body: Vec<Stmt>,
    },
    Print {
        pos: Pos,
        operands: Vec<Typed>,
    },
    /// The end of a constructor's first phase: the locals are the fields of a new object, which is `this`.
    Publish {
        site: usize,
        pos: Pos,
        class: DeclId,
        fields: Vec<usize>,
        this: usize,
    },
    /// Statements of ghost code, which is not compiled.
    Ghost {
        body: Vec<Stmt>,
    },
}
