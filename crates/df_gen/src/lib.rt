//! Generated sources: programs of any size, of which each method is correct, for trying how the time of a
//! proof grows.
#![tactic(auto)]

mod generator;
mod text;

pub use text::source;
