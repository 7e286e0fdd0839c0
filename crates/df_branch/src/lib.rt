//! What comes next at a branch of the search for a proof: the branch is closed, or a literal is to be
//! decided, or the search ends with evidence. And what the rows of a list of literals come to, whatever
//! clauses are open beside it.
#![tactic(auto)]

mod facts;
mod filling;
mod law;
mod leaf;
mod point;
mod standing;

pub use law::ground_sets_are_places;
pub use leaf::{Leaf, leaf_at};
pub use standing::{Standing, standing_at};
