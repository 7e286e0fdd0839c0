//! Typed programs: types, expressions, statements, declarations, and what is well typed as the invariant of
//! a program.
#![tactic(auto)]

mod decl;
mod expr;
mod interval;
mod program;
mod stmt;
mod ty;

pub use decl::{Clause, Decl, Declared, Method, Newtype, Param};
pub use expr::{
    Addend, AddendOperator, Arrow, Comparison, Expr, Factor, FactorOperator, Junction, Link, Member,
};
pub use interval::Interval;
pub use program::Program;
pub use stmt::{
    Branch, Call, Conversion, Measure, Operand, Source, Stmt, Target, Update, Variable,
};
pub use ty::{DeclId, Ty};
