//! Files in memory, of which no load fails.

ghost use Rattle.std.specs.Prelude.{◌≡◌, ◌≢◌, ℕ, ◌+◌, ◌<◌, ◌≤◌, List, [], ◌∷◌, Some, None, Err, length, IfOk, IfSome, OnOk, OnErr};
ghost use Rattle.df_base.specs.Outside.{bytes_of, HasCause};
ghost use Rattle.df_base.specs.Fakes.{bytes_or_none};
ghost use Rattle.df_base.specs.declared.files.LoadFault.TheVariants.{Failed, Large};

use super::store::{Store, share_within};
use super::{FileBytes, Files, LoadFault};
use crate::memory::Memory;
use std::alloc::Global;
use std::marker::Model;

/// Files in memory, of which no load fails: a name that has no file is loaded as an empty one.
#[derive(Drop)]
pub struct SureFiles {
    store: Store,
    given: Store,
}

impl Model for SureFiles {
    ghost use Rattle.df_base.specs.Fakes.{SureInMemory};

    ghost Value = { SureInMemory };

    ghost view = { λ s. record { files = s.store; given = s.given } };
}

impl SureFiles {
    /// No files.
    pub fn new(alloc: Global) -> SureFiles
        ensures { result ≡ record { files = []; given = [] } }
    {
        SureFiles {
            store: Store::new(alloc),
            given: Store::new(alloc),
        }
    }

    /// Adds a file. A file of the same name that stood there before is no longer loaded.
    pub fn add(&mut self, name: &str, bytes: &[u8]) -> Result<(), Memory>
        ensures ok { OnOk result (self.new ≡ record self.old { files = (name.now, bytes.now) ∷ self.old.files }) }
        ensures err { OnErr result (self.new ≡ self.old) }
    {
        self.store.add(name, bytes)
    }
}

impl Files for SureFiles {
    // A name that has no file gives bytes too, so what it holds is told by clauses of its own.
    ghost holds = { λ _. None };

    ghost given = { λ s. s.given };

    ghost fault_count = { λ _. 0 };

    ghost allowed = { λ _ _. Unit {0} };

    fn faults(&self) -> u64
        ensures { result ≡ 0 }
    {
        0
    }

    fn load(&mut self, alloc: Global, name: &str, limit: u64) -> Result<FileBytes, LoadFault>
        ensures text { IfOk result (λ bytes. bytes ≡ bytes_or_none self.old.files name.now) }
        ensures given { IfOk result (λ bytes. self.new.given ≡ (name.now, bytes) ∷ self.old.given) }
        ensures keeps { OnErr result (self.new.given ≡ self.old.given) }
        ensures within { IfOk result (λ bytes. length bytes ≤ limit) }
        ensures large { (n : ℕ) → result ≡ Err (Large n) → n ≡ limit + 1 }
        ensures over { (n : ℕ) → result ≡ Err (Large n) → limit < length (bytes_or_none self.old.files name.now) }
        ensures sure { result ≢ Err Failed }
        ensures kept { self.new.files ≡ self.old.files }
    {
        let bytes = match self.store.find(name) {
            Some(bytes) => share_within(bytes, limit)?,
            None => FileBytes::new(alloc, Vec::new(alloc))?,
        };
        self.given.keep(name, &bytes)?;
        Ok(bytes)
    }
}
