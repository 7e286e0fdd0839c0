//! The emitter: machine code that does what a program without ghosts does, by a simulation of its runs.
#![tactic(auto)]

mod draft;
mod emission;
mod expressions;
mod instructions;
mod law;
mod statements;
mod updates;

pub use emission::emit;
pub use law::code_does_what_programs_do;
