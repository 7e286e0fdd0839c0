//! The branch of a search: literals that were decided, one after another, and what closes the other sides
//! of those that were turned.
#![tactic(auto)]

mod decision;
mod join;
mod trail;

pub use decision::{Conflict, Decision};
pub use join::{holds, negations};
pub use trail::{Retreat, Trail};
