//! The text of a code: its shapes, its methods and their instructions, a line each.
#![tactic(auto)]

mod law;
mod listing;
mod words;

pub use law::one_code;
pub use listing::write;
