//! Candidates: what may be a model, where all columns are whole.

use df_clauses::Trail;
use df_egraph::Graph;
use df_theory::{Terms, Theory, Variables};
use std::alloc::Global;

/// The truths of formulas, the numbers of columns and the classes of terms that an engine has.
#[derive(Clone, Copy)]
pub struct Candidate<'a> {
    pub alloc: Global,
    pub terms: &'a Terms<'a>,
    pub variables: &'a Variables,
    pub trail: &'a Trail,
    pub theory: &'a Theory,
    pub graph: &'a Graph,
    /// The operations that are in classes.
    pub operations: &'a [usize],
    /// How many rounds of instances may follow from one another.
    pub rounds: u32,
}
