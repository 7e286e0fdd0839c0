//! Logs of programs: the text of the logs that were found, and the check of a log's parts against the obligations.
#![tactic(auto)]

mod checking;
mod fault;
mod law;
mod naming;
mod outcomes;
mod reading;
mod writing;

pub use fault::CheckFault;
pub use law::{
    derived_is_not_refused, derived_logs_have_text, logs_of_verdicts_derive, outcomes_are,
    proofs_are_correct,
};
pub use reading::check;
pub use writing::text;
