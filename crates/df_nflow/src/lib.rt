//! Passing over the statements of methods by single assignment: what is known and what is owed, in order.
#![tactic(auto)]

mod join;
mod passage;
mod passed;
mod simple;
mod stmt;
mod update;
mod way;

pub use passage::{Passage, method};
