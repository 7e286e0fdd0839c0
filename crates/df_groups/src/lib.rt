//! Groups of declarations that call each other: the strongly connected components of the graph of calls.
#![tactic(auto)]

mod call_graph;
mod callees;
mod components;
mod finishing;
mod graph;
mod law;
mod program;

pub use law::one_partition;
pub use program::groups;
