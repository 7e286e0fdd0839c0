//! Combinations by which levels refute the rows that they come of, as lines of logs have them.
#![tactic(auto)]

mod history;
mod kept;
mod marks;
mod needs;
mod way;

pub use history::{refutation, refuting};
pub use needs::needed;
