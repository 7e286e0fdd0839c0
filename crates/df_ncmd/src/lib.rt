//! The command line: the command that the words ask for, by a table of commands that `clap` reads.
#![tactic(auto)]

mod choosing;
mod command;
mod laws;
mod limit;
mod reading;
mod table;

pub use choosing::line;
pub use command::{Budget, Command, LineFault};
pub use laws::{limits, lines, numbers, usages};
pub use limit::FUEL_LIMIT;
