//! What every layer of `dfy` stands on: names, positions, refusals, statuses,
//! and the traits of the outside with their implementations.
#![tactic(auto)]

mod files;
mod memory;
mod name;
mod pos;
mod refusal;
mod sink;
mod status;

pub use files::{FileBytes, Files, HostFiles, LoadFault, MemFiles, SureFiles};
pub use memory::Memory;
pub use name::{Name, Names};
pub use pos::Pos;
pub use refusal::{Code, Detail, Refusal, Stop};
pub use sink::{HostSink, MemSink, Sink, SinkFault, SureSink};
pub use status::Status;
pub use std::alloc::Global;
