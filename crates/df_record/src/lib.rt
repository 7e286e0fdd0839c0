//! Logs of what the engine derives: the clauses of its book that the last one needs, as steps for the
//! kernel. Nothing is proved of it but that it is safe and ends.
#![tactic(auto)]

mod logging;
mod recording;

pub use logging::log_of;
pub use recording::Recorder;
