//! The ground clauses of a sequent: its hypotheses, its negated goal, and what its connectives mean. They
//! are clauses of a log, whose lines stand beside them. Rounds of instances come on top.
#![tactic(auto)]

mod clause;
mod clause_set;
mod ground;
mod lines;

pub use clause::GroundClause;
pub use clause_set::ClauseSet;
pub use ground::{Ground, clauses};
