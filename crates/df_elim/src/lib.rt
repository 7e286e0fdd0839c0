//! Fourier-Motzkin elimination of all variables from rows of linear arithmetic, level after level.
#![tactic(auto)]

mod elimination;
mod law;
mod variable;

pub use elimination::{Elimination, Levels, eliminate};
pub use law::{first_levels_tell, refuted_rows_stay_refuted, rows_hold_where_first_levels_do};
