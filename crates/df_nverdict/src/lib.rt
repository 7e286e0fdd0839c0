//! What proving a program comes to: each obligation of its methods has a log that derives it, or is a failure with
//! evidence for why there is none.
#![tactic(auto)]

mod judging;
mod law;
mod parameters;
mod verdict;

pub use judging::Proof;
pub use law::{judged_is_correct, refuted_is_wrong, verified_is_safe};
pub use verdict::{Judged, verdicts};
