//! Derivations that are being built: each line that is added is a line of the log, and is known by the
//! number of its clause. The clauses themselves are not kept.
#![tactic(auto)]

mod derivation;
mod law;
mod lines;

pub use derivation::Derivation;
pub use law::logs_end_with_empty_clauses;
