//! Tables of numbers for all nodes of a ground set, from a point of rows and the labels of equal nodes, or
//! from an assignment to the free terms; and when they are models.
#![tactic(auto)]

mod entry;
mod law;
mod number;
mod outcome;
mod parts;
mod solution;
mod tabulating;
mod tabulation;

pub use law::{numbers_follow_atoms, truths_of_first_nodes, valuations_are_models};
pub use outcome::Valuation;
pub use solution::{apart_is_undecided, tables_are_models, tabulated_literals_are_true};
pub use tabulating::valuation;
pub use tabulation::{Tabulation, tabulate};
