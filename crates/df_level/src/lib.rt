//! The search's linear arithmetic: sparse rows, and one level of Fourier-Motzkin elimination.
#![tactic(auto)]

mod division;
mod entries;
mod exact;
mod fault;
mod level;
mod row;
mod way;

pub use fault::{LevelFault, RowFault};
pub use level::{Level, ROW_LIMIT};
pub use row::Row;
