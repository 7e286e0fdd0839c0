//! Numbers for the variables that were eliminated from rows, from the last one back.
#![tactic(auto)]

mod answer;
mod range;
mod substitution;
mod valuation;
mod values;

pub use answer::Back;
pub use range::{Choice, choose};
pub use substitution::{back, level_before};
pub use valuation::Valuation;
pub use values::value;
