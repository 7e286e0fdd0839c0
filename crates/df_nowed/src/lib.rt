//! Obligations of programs: what has to be proved so that no modular run is wrong.
#![tactic(auto)]

mod law;
mod listing;
mod numbering;
mod obligation;
mod sequent;

pub use law::{
    parameters_are_free_terms, refuted_sequents_are_refuted_obligations,
    valid_sequents_are_valid_obligations,
};
pub use listing::{obligations, obligations_of_method};
pub use obligation::{MethodObligations, Obligation, Obligations};
