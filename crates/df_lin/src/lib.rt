//! Linear arithmetic over whole numbers: sums of rows, and whether rows have a whole point.
#![tactic(auto)]

mod chain;
mod law;
mod multipliers;
mod point;
mod refutation;
mod substitution;
mod verdict;

pub use chain::Chain;
pub use df_back::Valuation;
pub use df_level::{Row, RowFault};
pub use law::{refuted_rows_have_no_point, rows_have_a_count};
pub use multipliers::Multipliers;
pub use point::Point;
pub use refutation::refute;
pub use verdict::Verdict;
