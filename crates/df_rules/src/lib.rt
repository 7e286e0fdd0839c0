//! The rules of logs: what each line of a log adds, when a log derives its sequent, and that the sequent
//! is then valid; with the code that the kernel and the search share: the clauses of connectives,
//! and sets of known literals.
#![tactic(auto)]

mod bound;
mod connecting;
mod instances;
mod known;
mod literal;

pub use bound::comparison;
pub use connecting::connective_clause_of;
pub use df_axiom::AxiomFault;
pub use instances::connective;
pub use known::Known;
pub use literal::{no_of, yes_of};
