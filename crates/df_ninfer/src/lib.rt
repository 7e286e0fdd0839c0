//! What fixes the types of a method's locals, found before any rule is looked at; and which guards have a measure
//! by default.
#![tactic(auto)]

mod guards;
mod inference;

pub use guards::has_measure;
pub use inference::infer_block;
