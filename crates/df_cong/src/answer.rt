//! What a theory answers.

use df_form::{Lit, Pair};

/// Why held literals contradict one another: some of them whose negations are the clause of a line of
/// congruence, and the pairs of the line.
#[derive(Drop)]
pub struct Reason {
    pub literals: Vec<Lit>,
    pub pairs: Vec<Pair>,
}

/// Whether the held literals contradict one another.
#[derive(Drop)]
pub enum Answer {
    Quiet,
    Conflict(Reason),
}

/// What congruence tells of literals.
#[derive(Drop)]
pub enum Congruence {
    /// A line of congruence has just the negations of some of the literals in its clause.
    Contradicted(Reason),
    /// A label for each node, the same exactly for nodes that the equalities among the literals make equal.
    /// They contradict no literal.
    Labels(Vec<usize>),
}

/// How many literals were held.
#[derive(Clone, Copy, PartialEq, Eq)]
pub struct Mark {
    pub held: usize,
}
