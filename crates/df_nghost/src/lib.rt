//! Definite assignment: each local has a value where it is read, and each result where its method returns.
#![tactic(auto)]

mod assigned;
mod checked;
mod flow;
mod join;
mod law;
mod method;
mod program;
mod reads;
mod values;

pub use checked::Checked;
pub use law::assigned_or_told;
pub use program::{Rejected, check};
