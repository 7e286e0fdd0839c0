//! The machine that compiled programs run on: its values, instructions and code, its states, and the table of its
//! steps. Nothing runs here; the functions are laws.
#![tactic(auto)]

mod code;
mod instruction;
mod law;
mod op;

pub use code::{Code, Constructor, Method, Shape};
pub use instruction::Instruction;
pub use law::{
    an_end_is_final, runs_join, same_values_are_equal, steps_keep_what_never_faults,
    text_stays_in_front,
};
pub use op::{Op, Range};
