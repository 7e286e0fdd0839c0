//! Groups of declarations that call each other, in their contracts too: the strongly connected components of the graph
//! of calls.
#![tactic(auto)]

mod call_graph;
mod components;
mod expressions;
mod finishing;
mod graph;
mod law;
mod program;
mod statements;

pub use law::one_partition;
pub use program::groups;
