//! What the engine knows, and what follows from it: the state that clauses, bounds of columns, classes and
//! instances of schemas make together, propagation through all of them, and what a conflict teaches. Nothing
//! is proved of it but that it is safe and ends.
#![tactic(auto)]

mod analyzing;
mod classing;
mod defining;
mod explaining;
mod instantiating;
mod normalizing;
mod propagating;
mod schemas;
mod state;
mod units;

pub use analyzing::Lesson;
pub use df_theory::Kept;
pub use state::State;
