//! What the engine proposes as a counterexample: the numbers and classes that it has found as a table, which of
//! its operations are not what their parts make them, and small numbers that are tried out. Nothing is proved
//! of it but that it is safe and ends.
#![tactic(auto)]

mod candidate;
mod codes;
mod grounding;
mod modelling;
mod operations;
mod products;
mod sampling;

pub use candidate::Candidate;
pub use modelling::Tabled;
pub use products::{Comparison, Factor, Operand, Product};
pub use sampling::sampled;
