//! Linear arithmetic: rows of literals, and combinations that refute them.
#![tactic(auto)]

mod expansion;
mod linear;
mod row;

pub use linear::{is_linear, rows_of_literals};
pub use row::{Row, RowFault};
