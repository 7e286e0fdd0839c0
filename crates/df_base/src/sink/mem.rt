//! A sink in memory, of which chosen writes fail.

ghost use Rattle.std.specs.Prelude.{◌≡◌, ◌≢◌, ℕ, ◌+◌, List, [], ◌∷◌, ◌++◌, Some, None, Err, true, IsTrue, take, OnOk, OnErr, IfSome, IfNone};
ghost use Rattle.df_base.specs.Outside.{HasCause};
ghost use Rattle.df_base.specs.Fakes.{SinkInMemory, takes_first, next_count};
ghost use Rattle.df_base.specs.declared.sink.SinkFault.TheVariants.{Failed, Memory as out_of_memory};

use super::{Sink, SinkFault};
use crate::memory::Memory;
use std::alloc::Global;
use std::marker::Model;

/// A write that is to fail.
#[derive(Clone, Copy)]
struct Planned {
    call: u64,
    takes: usize,
}

/// A sink that keeps what it takes, and of which chosen writes fail: a fake for tests.
#[derive(Drop)]
pub struct MemSink {
    taken: Vec<u8>,
    failing: Vec<Planned>,
    calls: u64,
    faults: u64,
}

impl Model for MemSink {
    ghost use Rattle.std.specs.Prelude.{map};
    ghost use Rattle.df_base.specs.Fakes.{SinkInMemory};
    ghost use Rattle.df_base.specs.Stored.{planned};

    ghost Value = { SinkInMemory };

    ghost view = { λ m. record { taken = m.taken.items; failing = map planned m.failing.items; calls = m.calls; faults = m.faults } };
}

impl MemSink {
    /// A sink that has taken nothing, and no write that is to fail.
    pub fn new(alloc: Global) -> MemSink
        ensures { result ≡ record { taken = []; failing = []; calls = 0; faults = 0 } }
    {
        MemSink {
            taken: Vec::new(alloc),
            failing: Vec::new(alloc),
            calls: 0,
            faults: 0,
        }
    }

    /// Has the write of this number fail once it has taken this many bytes. Writes are numbered
    /// from 0.
    pub fn fail_at(&mut self, call: u64, takes: usize) -> Result<(), Memory>
        ensures ok { OnOk result (self.new ≡ record self.old { failing = (call, takes) ∷ self.old.failing }) }
        ensures err { OnErr result (self.new ≡ self.old) }
    {
        self.failing.insert(0, Planned { call, takes })?;
        Ok(())
    }

    /// What it has taken.
    pub fn taken(&self) -> &[u8]
        ensures { result.now ≡ self.now.taken }
    {
        self.taken.as_slice()
    }

    /// How many bytes the next write takes before it fails, where it is to fail.
    fn takes_first(&self) -> Option<usize>
        ensures { result ≡ takes_first self.now.failing self.now.calls }
    {
        for planned in &self.failing {
            if planned.call == self.calls {
                return Some(planned.takes);
            }
        }
        None
    }
}

impl Sink for MemSink {
    ghost taken = { λ m. Some m.taken };

    ghost fault_count = { λ m. m.faults };

    ghost takes_memory = { λ _. true };

    fn faults(&self) -> u64 {
        self.faults
    }

    fn put(&mut self, bytes: &[u8]) -> Result<(), SinkFault>
        ensures took { OnOk result (self.new.taken ≡ self.old.taken ++ bytes.now) }
        ensures memory { result ≡ Err out_of_memory → self.new.taken ≡ self.old.taken }
        ensures cause { HasCause self.old.faults self.new.faults (result ≡ Err Failed) }
        // A write fails just where it is to fail, once it has taken what it is to take.
        ensures planned { OnOk result (takes_first self.old.failing self.old.calls ≡ None) }
        ensures partly { result ≡ Err Failed → (count : ℕ) × (takes_first self.old.failing self.old.calls ≡ Some count) × (self.new.taken ≡ self.old.taken ++ take count bytes.now) }
        ensures quiet { result ≢ Err Failed → self.new.faults ≡ self.old.faults }
        ensures counted { (self.new.failing ≡ self.old.failing) × (self.new.calls ≡ next_count self.old.calls) }
    {
        let failing = self.takes_first();
        self.calls = self.calls.saturating_add(1);
        let Some(count) = failing else {
            self.taken.extend_from_slice(bytes)?;
            return Ok(());
        };
        let count = count.min(bytes.len());
        self.taken.extend_from_slice(&bytes[..count])?;
        self.faults = self.faults.saturating_add(1);
        Err(SinkFault::Failed)
    }
}
