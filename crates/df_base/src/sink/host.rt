//! A sink over a writer of the system.

ghost use Rattle.std.specs.Prelude.{◌≡◌, ◌≢◌, ℕ, ◌≤◌, List, None, Err, false, length, take, IsOk, OnOk, OnErr};
ghost use Rattle.std.specs.Io.KnownBytes.{Appends};
ghost use Rattle.df_base.specs.Outside.{HasCause, AppendsKnownPrefix};
ghost use Rattle.df_base.specs.declared.sink.SinkFault.TheVariants.{Failed, Memory};

use super::write::write_all;
use super::{Sink, SinkFault};
use std::io::Write;

/// A sink that passes its bytes on to a writer at once. It takes no memory, and tells nothing of
/// what was taken. Give it a writer that keeps nothing back, since it never flushes.
#[derive(Drop)]
pub struct HostSink<W> {
    writer: W,
    faults: u64,
}

impl<W: Write> HostSink<W> {
    /// A sink over this writer, with no fault yet.
    pub fn new(writer: W) -> HostSink<W>
        ensures faults { result.faults ≡ 0 }
        ensures writer { result.writer ≡ writer }
    {
        HostSink { writer, faults: 0 }
    }

    /// The writer.
    pub fn writer(&self) -> &W
        ensures { result.now ≡ self.now.writer }
    {
        &self.writer
    }
}

impl<W: Write> Sink for HostSink<W> {
    ghost taken = { λ _. None };

    ghost fault_count = { λ h. h.faults };

    ghost takes_memory = { λ _. false };

    fn faults(&self) -> u64 {
        self.faults
    }

    fn put(&mut self, bytes: &[u8]) -> Result<(), SinkFault>
        ensures cause { HasCause self.old.faults self.new.faults (result ≡ Err Failed) }
        ensures empty { length bytes.now ≡ 0 → IsOk result }
        ensures quiet { result ≢ Err Failed → self.new.faults ≡ self.old.faults }
        ensures from_memory { result ≢ Err Memory }
        // Where the writer tells what it holds, that grew by the bytes, or on a failure by a prefix.
        ensures written { OnOk result (Appends (W.contents self.old.writer) (W.contents self.new.writer) bytes.now) }
        ensures partly { OnErr result (AppendsKnownPrefix (W.contents self.old.writer) (W.contents self.new.writer) bytes.now) }
    {
        let result = write_all(&mut self.writer, bytes);
        if let Err(SinkFault::Failed) = &result {
            self.faults = self.faults.saturating_add(1);
        }
        result
    }
}
