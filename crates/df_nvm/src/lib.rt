//! The machine that runs code: a step does a row of the table of instructions, and a run does steps until
//! the end or until the fuel is spent. There is no answer for a fault, since none can come.
#![tactic(auto)]

mod halt;
mod law;
mod machine;
mod operators;
mod printing;
mod stack;
mod text;
mod turn;
mod vm;

pub use law::more_room_serves;
pub use vm::{Ran, Results, Stepped, Vm};
