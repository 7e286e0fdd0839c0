//! An engine that looks for proofs of sequents and for counterexamples: a solver for propositional
//! satisfiability that learns from conflicts, over linear arithmetic of whole numbers. Nothing is proved
//! of what it finds but that it looks safely and ends: a log is to be taken by the kernel, and a table to
//! be tested as a model.
#![tactic(auto)]

mod candidate;
mod completing;
mod concluding;
mod dividing;
mod intake;
mod probing;
mod proposing;
mod refining;
mod searching;

pub use proposing::{Counted, Engine, Proposal, propose, propose_counted};
