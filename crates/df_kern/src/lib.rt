//! The kernel: it takes the lines of a log one by one, and accepts a log exactly where it derives its
//! sequent. It searches for nothing.
#![tactic(auto)]

mod accepted;
mod bound;
mod checker;
mod classes;
mod congruence;
mod equality;
mod fault;
mod law;
mod line;
mod number;
mod opposite;
mod propagation;
mod step;

pub use accepted::Accepted;
pub use checker::{Checker, check};
pub use fault::KernFault;
pub use law::{
    clauses_are_true, congruence_lines_are_exact, derivations_are_valid, logs_derive_or_are_refused,
};
