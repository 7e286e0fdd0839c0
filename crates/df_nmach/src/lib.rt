//! The machine that compiled programs with calls, whole arithmetic and characters run on: its values,
//! instructions and code, its states, and the table of its steps. Nothing runs here; the functions are laws.
#![tactic(auto)]

mod code;
mod heap;
mod instruction;
mod law;
mod value;

pub use code::{Code, Method, Shape};
pub use heap::{Entry, Heap, Object};
pub use instruction::{BinaryOperator, Instruction, Range, UnaryOperator};
pub use law::{
    an_end_is_final, runs_join, same_values_are_equal, steps_keep_what_never_faults,
    text_stays_in_front,
};
pub use value::Value;
