//! The locals of methods: their types, and which of them statements change.
#![tactic(auto)]

mod changed;
mod method;

pub use changed::{Changed, outside, outside_if};
pub use method::{exits, locals};
