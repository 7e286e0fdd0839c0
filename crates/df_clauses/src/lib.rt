//! The propositional half of the engine: clauses with what derives each, the literals that they watch,
//! the trail, the order of decisions, what the analysis of a conflict meets, and which instances of schemas
//! were asked for. Nothing is proved of it but that it is safe and ends.
#![tactic(auto)]

mod analysis;
mod book;
mod instances;
mod literal;
mod order;
mod origin;
mod trail;
mod watching;

pub use analysis::Analysis;
pub use book::{Book, Clause};
pub use instances::{Asked, Instances};
pub use literal::{Literal, negations, with_last};
pub use order::Order;
pub use origin::{Instance, Origin};
pub use trail::{Assignment, GROUND, Reason, Trail};
pub use watching::Solver;
