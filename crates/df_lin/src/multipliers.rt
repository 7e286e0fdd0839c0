//! Multipliers by which rows refute themselves.

use df_form::Combination;

/// Combinations of rows with multipliers of at least 0, each divided. Each may take the given rows,
/// numbered first, and the rows of the combinations before it, and the last one gives 0 <= c for a c below
/// 0.
#[derive(Drop)]
pub struct Multipliers {
    pub combinations: Vec<Combination>,
}
