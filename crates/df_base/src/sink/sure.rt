//! A sink in memory, of which no write fails.

ghost use Rattle.std.specs.Prelude.{◌≡◌, ◌≢◌, ℕ, List, [], ◌++◌, Some, Err, true, OnOk};
ghost use Rattle.df_base.specs.declared.sink.SinkFault.TheVariants.{Failed, Memory};

use super::{Sink, SinkFault};
use std::alloc::Global;
use std::marker::Model;

/// A sink that keeps what it takes, and of which no write fails.
#[derive(Drop)]
pub struct SureSink {
    taken: Vec<u8>,
}

impl Model for SureSink {
    ghost use Rattle.std.specs.Prelude.{ℕ, List};

    ghost Value = { List ℕ };

    ghost view = { λ s. s.taken.items };
}

impl SureSink {
    /// A sink that has taken nothing.
    pub fn new(alloc: Global) -> SureSink
        ensures { result ≡ [] }
    {
        SureSink {
            taken: Vec::new(alloc),
        }
    }

    /// What it has taken.
    pub fn taken(&self) -> &[u8]
        ensures { result.now ≡ self.now }
    {
        self.taken.as_slice()
    }
}

impl Sink for SureSink {
    ghost taken = { λ s. Some s };

    ghost fault_count = { λ _. 0 };

    ghost takes_memory = { λ _. true };

    fn faults(&self) -> u64
        ensures { result ≡ 0 }
    {
        0
    }

    fn put(&mut self, bytes: &[u8]) -> Result<(), SinkFault>
        ensures took { OnOk result (self.new ≡ self.old ++ bytes.now) }
        ensures memory { result ≡ Err Memory → self.new ≡ self.old }
        ensures sure { result ≢ Err Failed }
    {
        self.taken.extend_from_slice(bytes)?;
        Ok(())
    }
}
