//! Files in memory, of which chosen loads fail.

ghost use Rattle.std.specs.Prelude.{◌≡◌, ◌≢◌, ◌⊎◌, ℕ, ◌+◌, ◌<◌, ◌≤◌, List, [], ◌∷◌, ◌++◌, Some, None, Err, Bool, true, false, IsTrue, length, IfOk, IfSome, OnOk, OnErr};
ghost use Rattle.df_base.specs.Outside.{bytes_of, HasCause};
ghost use Rattle.df_base.specs.Fakes.{FilesInMemory, is_failing, next_count};
ghost use Rattle.df_base.specs.declared.files.LoadFault.TheVariants.{Failed, Large};

use super::store::{Store, share_within};
use super::{FileBytes, Files, LoadFault};
use crate::memory::Memory;
use std::alloc::Global;
use std::marker::Model;

/// Files in memory, of which chosen loads fail: a fake for tests.
#[derive(Drop)]
pub struct MemFiles {
    store: Store,
    failing: Vec<u64>,
    calls: u64,
    faults: u64,
    given: Store,
}

impl Model for MemFiles {
    ghost use Rattle.df_base.specs.Fakes.{FilesInMemory};

    ghost Value = { FilesInMemory };

    ghost view = { λ m. record { files = m.store; failing = m.failing.items; calls = m.calls; faults = m.faults; given = m.given } };
}

impl MemFiles {
    /// No files, and no load that is to fail.
    pub fn new(alloc: Global) -> MemFiles
        ensures { result ≡ record { files = []; failing = []; calls = 0; faults = 0; given = [] } }
    {
        MemFiles {
            store: Store::new(alloc),
            failing: Vec::new(alloc),
            calls: 0,
            faults: 0,
            given: Store::new(alloc),
        }
    }

    /// Adds a file. A file of the same name that stood there before is no longer loaded.
    pub fn add(&mut self, name: &str, bytes: &[u8]) -> Result<(), Memory>
        ensures ok { OnOk result (self.new ≡ record self.old { files = (name.now, bytes.now) ∷ self.old.files }) }
        ensures err { OnErr result (self.new ≡ self.old) }
    {
        self.store.add(name, bytes)
    }

    /// Has the load of this number fail. Loads are numbered from 0.
    pub fn fail_at(&mut self, call: u64) -> Result<(), Memory>
        ensures ok { OnOk result (self.new ≡ record self.old { failing = self.old.failing ++ call ∷ [] }) }
        ensures err { OnErr result (self.new ≡ self.old) }
    {
        self.failing.push(call)?;
        Ok(())
    }

    /// A load that counts no fault.
    fn look_up(&self, name: &str, limit: u64) -> Result<FileBytes, LoadFault>
        ensures loaded { IfOk result (λ bytes. bytes_of self.now.files name.now ≡ Some bytes) }
        ensures within { IfOk result (λ bytes. length bytes ≤ limit) }
        ensures large { (n : ℕ) → result ≡ Err (Large n) → n ≡ limit + 1 }
        ensures longer { (n : ℕ) → result ≡ Err (Large n) → IfSome (bytes_of self.now.files name.now) (λ bytes. limit < length bytes) }
        ensures there { (n : ℕ) → result ≡ Err (Large n) → bytes_of self.now.files name.now ≢ None }
        ensures planned { is_failing self.now.failing self.now.calls ≡ true → result ≡ Err Failed }
        ensures failed { result ≡ Err Failed → (is_failing self.now.failing self.now.calls ≡ true) ⊎ (bytes_of self.now.files name.now ≡ None) }
    {
        if self.failing.contains(&self.calls) {
            return Err(LoadFault::Failed);
        }
        match self.store.find(name) {
            None => Err(LoadFault::Failed),
            Some(bytes) => share_within(bytes, limit),
        }
    }
}

impl Files for MemFiles {
    ghost holds = { λ m. Some m.files };

    ghost given = { λ m. m.given };

    ghost fault_count = { λ m. m.faults };

    ghost allowed = { λ _ _. Unit {0} };

    fn faults(&self) -> u64 {
        self.faults
    }

    fn load(&mut self, _alloc: Global, name: &str, limit: u64) -> Result<FileBytes, LoadFault>
        ensures loaded { IfOk result (λ bytes. bytes_of self.old.files name.now ≡ Some bytes) }
        ensures given { IfOk result (λ bytes. self.new.given ≡ (name.now, bytes) ∷ self.old.given) }
        ensures kept { OnErr result (self.new.given ≡ self.old.given) }
        ensures within { IfOk result (λ bytes. length bytes ≤ limit) }
        ensures large { (n : ℕ) → result ≡ Err (Large n) → n ≡ limit + 1 }
        ensures longer { (n : ℕ) → result ≡ Err (Large n) → IfSome (bytes_of self.old.files name.now) (λ bytes. limit < length bytes) }
        ensures there { (n : ℕ) → result ≡ Err (Large n) → bytes_of self.old.files name.now ≢ None }
        ensures cause { HasCause self.old.faults self.new.faults (result ≡ Err Failed) }
        ensures held { self.new.files ≡ self.old.files }
        // A load fails just where it is to fail, or has no file.
        ensures planned { is_failing self.old.failing self.old.calls ≡ true → result ≡ Err Failed }
        ensures failed { result ≡ Err Failed → (is_failing self.old.failing self.old.calls ≡ true) ⊎ (bytes_of self.old.files name.now ≡ None) }
        ensures quiet { result ≢ Err Failed → self.new.faults ≡ self.old.faults }
        ensures counted { (self.new.failing ≡ self.old.failing) × (self.new.calls ≡ next_count self.old.calls) }
    {
        let result = self.look_up(name, limit);
        self.calls = self.calls.saturating_add(1);
        match &result {
            Ok(bytes) => self.given.keep(name, bytes)?,
            Err(LoadFault::Failed) => self.faults = self.faults.saturating_add(1),
            Err(_) => {}
        }
        result
    }
}
