//! What stays of an engine for further sequents.

use crate::theory::Theory;
use df_clauses::Solver;
use df_linear::{MadeNodes, Variables};

/// What an engine knows at the lowest level by the hypotheses of a sequent without operations, and what it has learned
/// from them. The goal is in none of it.
#[derive(Drop)]
pub struct Kept {
    pub made: MadeNodes,
    pub variables: Variables,
    pub solver: Solver,
    pub theory: Theory,
}

impl Kept {
    /// Whether it serves a sequent of so many nodes.
    pub fn fits(&self, nodes: usize) -> bool {
        self.made.compared() <= nodes
    }
}
