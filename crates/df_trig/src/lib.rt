//! Rounds of instances: the clauses of schemas for the terms of a ground set that their patterns match. What a term
//! is to be of a type is an instance too, so a ground set without rounds knows nothing of a parameter's range.
#![tactic(auto)]

mod endings;
mod fault;
mod law;
mod pattern;
mod rounds;

pub use fault::TrigFault;
pub use law::{instances_are_ground, no_match_is_left_out};
pub use rounds::{instances, round};
