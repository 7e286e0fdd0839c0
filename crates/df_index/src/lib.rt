//! The nodes of a method's sequents, which are met once for all that share them, and those that clauses make: where
//! they stand, what each is to the engine, and which clauses define it. Nothing is proved of it but that it is safe and ends.
#![tactic(auto)]

mod defining;
mod ends;
mod index;
mod made;
mod made_nodes;
mod offset;
mod terms;
mod width;

pub use defining::{Clauses, Parts, definition, definitions};
pub use ends::Ends;
pub use index::Index;
pub use made::Made;
pub use made_nodes::MadeNodes;
pub use offset::Offset;
pub use terms::{Shape, Terms};
