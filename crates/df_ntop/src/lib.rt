//! The program as one call: from the words and the files to what is written and the status.
#![tactic(auto)]

mod checking;
mod command;
mod ending;
mod entries;
mod judging;
mod law;
mod loading;
mod logs;
mod machine;
mod naming;
mod proving;
mod putting;
mod running;
mod sources;
mod telling;

pub use command::top;
pub use law::proof_is_taken;
pub use telling::tell_memory;
