//! Decisions.

use df_form::Lit;

/// A clause of a log that says that some literals are not all true.
#[derive(Drop)]
pub struct Conflict {
    /// The number of the clause.
    pub number: usize,
    /// The literals.
    pub needed: Vec<Lit>,
}

/// A literal that was decided.
#[derive(Drop)]
pub struct Decision {
    pub literal: Lit,
    /// What closes its negation, where this came first.
    pub closed: Option<Conflict>,
}
