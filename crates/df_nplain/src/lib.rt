//! Programs without ghosts: no contracts, assertions or measures, and ranges and kinds in place of types. What the
//! compiler makes machine code of, and what they do.
#![tactic(auto)]

ghost use Rattle.std.specs.Prelude.{◌≡◌, true};
ghost use Rattle.df_nplain.specs.declared.plain.Plain as declared;
ghost use Rattle.df_nplain.specs.View.{plain_of};
ghost use Rattle.df_nplain.specs.Growing.{StatementsGrow, WholesGrow, MethodsGrow};
ghost use Rattle.df_nplain.specs.Short.{has_short_texts};
ghost use Rattle.df_nplain.specs.Texts.{StatementsKeepText, MethodsKeepText};

mod expr;
mod kind;
mod plain;
mod stmt;

pub use expr::{Addend, Expr, Factor, Link};
pub use kind::{Kind, Range};
pub use plain::{Method, Plain};
pub use stmt::{Branch, Call, Operand, Source, Stmt, Update, Variable};

/// What statements do over a meaning that says less, they do over one that says more.
pub fn statements_grow()
    ensures { StatementsGrow }
{}

/// More depth keeps what calls and loops do.
pub fn wholes_grow()
    ensures { WholesGrow }
{}

/// More depth keeps what a run of a method comes to, also that it is wrong.
pub fn methods_grow()
    ensures { MethodsGrow }
{}

/// A whole run of a statement keeps in front what was printed before it.
pub fn statements_keep_text()
    ensures { StatementsKeepText }
{}

/// And so does one of a method.
pub fn methods_keep_text()
    ensures { MethodsKeepText }
{}

/// No text of a program is as long as no memory is.
pub fn texts_are_short()
    ensures { (plain : declared.Plain) → has_short_texts (plain_of plain) ≡ true }
{}
