//! Typing of statements: their typed forms, or the first rule that a walk over them finds broken.
#![tactic(auto)]

mod broken;
mod calls;
mod clauses;
mod places;
mod sources;
mod statements;

pub use clauses::{Clauses, contract};
pub use places::or_int;
pub use statements::typed_block;
