//! The text of proof logs: written from logs, and read back, over the names of the newtypes, of which the first
//! counts where two are one. A line that makes a free term is written, so that writing has no other answer, and is
//! not read: no log that the kernel takes has one.
#![tactic(auto)]

mod fault;
mod law;
mod line;
mod number;
mod parting;
mod reader;
mod reading;
mod step;
mod word;
mod words;
mod writing;

pub use fault::LogFault;
pub use law::{bad_is_no_text, one_text};
pub use reading::read;
pub use writing::write;
