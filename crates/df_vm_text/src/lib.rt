//! The text of values by shapes, however deep they are, without a call for each part.
#![tactic(auto)]

mod constructors;
mod tasks;
mod text;
mod words;

pub use text::print;
