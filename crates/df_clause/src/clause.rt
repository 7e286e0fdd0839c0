//! Clauses of a ground set.

use df_form::{Formula, Lit};

/// A clause of a ground set.
#[derive(Drop, PartialEq, Eq, Hash)]
pub struct GroundClause {
    pub literals: Vec<Lit>,
    /// The equality to which it is bound: it counts only where literals hold this node or its negation.
    /// Without one it counts everywhere.
    pub bound: Option<Formula>,
}
