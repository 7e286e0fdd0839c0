//! Typed programs: types, operations, expressions, statements, declarations, and what is well typed as the
//! invariant of a program. Here stand also what ghost code obeys, what compiles, and measures by default.
//!
//! All strict operations are one form of expression, and each is one row of each table (`specs/Rows.antt`); they
//! carry the types that they are at. Why some forms are as they are:
//! - `<==>` is equality of truths, since both mean the same wherever both are typed.
//! - A conversion is `Fit` or `Narrow`: only the second asks something, so only it owes an obligation.
//! - A run of `<==` keeps a connective of its own: its members are turned around, and what is told first goes by the
//!   order of the text. So does the extent of a quantifier, which repeats a conjunct of its body.
//! - All locals stand in a table of the declaration, with their marks; parameters and results are found by number, so
//!   that ghosts can go.
//! - What is known behind a proof isn't stored: it is what the proof was for.
//! - A frame is a set of objects, which an operation makes of its members.
//! - A ghost that a guard names only in an argument at a ghost parameter is no mention of a ghost: the argument isn't
//!   compiled.
//! - Left open until type parameters have a source: whether compiled calls may take type arguments that don't compile.
#![tactic(auto)]

mod conversion;
mod decl;
mod expr;
mod interval;
mod kind;
mod op;
mod program;
mod stmt;
mod ty;

pub use decl::{
    Class, Constructor, Datatype, Decl, Declared, Function, Head, Method, Newtype, Param,
    TypeParameter, Variable,
};
pub use expr::{Arm, Binder, Connective, Expr, Extent, Link, Operand, Quantifier, Trigger};
pub use interval::Interval;
pub use kind::Kind;
pub use op::{Comparison, Op, PartOf};
pub use program::Program;
pub use stmt::{Aim, Branch, Call, Demand, Range, Source, Stmt, Target, Typed, Update};
pub use ty::{DeclId, Ty, copies};
