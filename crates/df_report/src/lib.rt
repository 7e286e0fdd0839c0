//! The report: what is verified, and why each other obligation is unproved.
#![tactic(auto)]

mod outcome;
mod report;

pub use outcome::{Evidence, Failure, Outcome, Parameter};
pub use report::{last_line, lines};
