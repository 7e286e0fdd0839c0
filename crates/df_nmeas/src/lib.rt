//! Terms of measures in a table of nodes, and the formula that one measure is below another.
#![tactic(auto)]

mod making;
mod measured;
mod order;

pub use making::{loop_measure, measure, method_measure};
pub use measured::Measured;
pub use order::below;
