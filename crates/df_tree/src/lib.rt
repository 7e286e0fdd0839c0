//! Syntax trees of sources, and their grammar: a table of productions. A tree of the productions spells tokens; from it
//! the syntax tree follows, a node for each construct.
//!
//! Of several trees the one that reaches furthest is told by what stands at each place: a further member, suffix, clause or
//! branch is there wherever what follows can begin one; the height is not looked at there. An atom that ends in an
//! expression takes no suffix, and stops where its last part cannot go on; the level around it continues, so that
//! `if c then x else a && b || d` is a `||` whose first member is the conditional. An operator behind the last line of a
//! `calc`, and hints behind it, belong to no step. Patterns have productions before `match` does: none of a file leads to
//! them yet.
#![tactic(auto)]

ghost use Rattle.df_tree.specs.Spelling.{KeepsAll, LiesInText};
ghost use Rattle.df_tree.specs.Furthest.{IsFurthest, IsFurthestPart};

mod ast;
mod class;
mod label;
mod production;
mod table;
mod terminal;

pub use ast::{Ast, Mark, Tree};
pub use class::{KEPT, is_anything, is_in};
pub use label::{Label, Span, Way};
pub use production::{Counting, Form, GrammarRow, Part, Production};
pub use table::{EXPRESSION, FILE, PATTERN, TYPE, row};
pub use terminal::terminal_of;

/// Syntax trees keep the tokens that matter, in their order.
pub fn keeps_all()
    ensures { KeepsAll }
{}

/// Their tokens and nodes stand in order, each within the text of the node around it.
pub fn lies_in_text()
    ensures { LiesInText }
{}

/// Where another derivation of some tokens by the productions first differs from the tree of the grammar, a production ends
/// in it that goes on in the tree.
pub fn reaches_furthest()
    ensures text { IsFurthest }
    ensures part { IsFurthestPart }
{}
