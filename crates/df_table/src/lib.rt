//! Table models: tables of numbers in which a ground set cannot be told from one of a counterexample.
#![tactic(auto)]

mod congruence;
mod disagreeing;
mod exactness;
mod law;
mod model;
mod table;

pub use disagreeing::disagreement;
pub use exactness::literal;
pub use law::models_falsify_sequents;
pub use model::is_model;
pub use table::Table;
