//! A congruence closure: classes of equal terms, and which true literals make two terms equal. Nothing is
//! proved of it but that it is safe and ends.
#![tactic(auto)]

mod classes;
mod closing;
mod explaining;
mod forest;
mod graph;
mod signatures;

pub use explaining::Explanation;
pub use graph::{Event, Graph};
pub use signatures::Application;
