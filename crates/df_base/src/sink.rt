//! Where the program writes.

ghost use Rattle.std.specs.Prelude.{◌≡◌, ℕ, Bool, IsTrue, List, Option, OnOk, Err};
ghost use Rattle.df_base.specs.Outside.{HasCause, Appends, AppendsPrefix};
ghost use Rattle.df_base.specs.declared.sink.SinkFault.TheVariants.{Failed, Memory};

mod host;
mod mem;
mod sure;
pub(crate) mod write;

pub use host::HostSink;
pub use mem::MemSink;
use std::alloc::AllocError;
pub use sure::SureSink;
use thiserror::Error;

/// Why bytes were not taken.
#[derive(Debug, Drop, Error)]
pub enum SinkFault {
    /// A write failed: a prefix of the bytes was taken, and the count of faults rose.
    #[error("cannot write")]
    Failed,
    /// Memory was refused, and nothing was taken.
    #[error("out of memory")]
    Memory,
}

impl From<AllocError> for SinkFault {
    ghost from_gives = { λ _ fault. fault ≡ Memory };

    fn from(_error: AllocError) -> SinkFault {
        SinkFault::Memory
    }
}

/// A place that bytes are written to.
pub trait Sink {
    /// The bytes that it has taken, or none where it does not tell.
    ghost taken: { Self → Option (List ℕ) };

    /// How many faults it has met.
    ghost fault_count: { Self → ℕ };

    /// Whether taking bytes takes memory. No call changes it.
    ghost takes_memory: { Self → Bool };

    /// How many faults it has met: it never falls.
    fn faults(&self) -> u64
        ensures { result ≡ fault_count self.now };

    /// Takes all of these bytes, or on a failure a prefix of them.
    fn put(&mut self, bytes: &[u8]) -> Result<(), SinkFault>
        ensures took { OnOk result (Appends (taken self.old) (taken self.new) bytes.now) }
        ensures failed { result ≡ Err Failed → AppendsPrefix (taken self.old) (taken self.new) bytes.now }
        ensures memory { result ≡ Err Memory → taken self.new ≡ taken self.old }
        ensures from_memory { result ≡ Err Memory → IsTrue (takes_memory self.old) }
        // A failure is a counted fault.
        ensures cause { HasCause (fault_count self.old) (fault_count self.new) (result ≡ Err Failed) }
        ensures stays { takes_memory self.new ≡ takes_memory self.old };
}
