//! Files of the system.

ghost use Rattle.std.specs.Prelude.{◌≡◌, ◌≢◌, ℕ, ◌+◌, ◌<◌, ◌≤◌, List, [], ◌∷◌, Some, None, Err, length, IfOk, IfSome, OnOk, OnErr};
ghost use Rattle.df_base.specs.Outside.{HasCause};
ghost use Rattle.df_base.specs.declared.files.LoadFault.TheVariants.{Failed, Large};

use super::read::{fault_of, read_all};
use super::store::Store;
use super::{FileBytes, Files, LoadFault};
use std::alloc::Global;
use std::{fs, rt};

/// The files of the system. It tells nothing of what they hold.
///
/// A load of a folder, of a missing file or of one that may not be read is a counted fault.
#[derive(Drop)]
pub struct HostFiles<R> {
    rt: R,
    faults: u64,
    /// The files that were given.
    given: Store,
}

impl<R: rt::Files> HostFiles<R> {
    /// The files that this runtime reaches, with no fault yet.
    pub fn new(alloc: Global, rt: R) -> HostFiles<R>
        ensures { result.faults ≡ 0 }
    {
        HostFiles {
            rt,
            faults: 0,
            given: Store::new(alloc),
        }
    }
}

/// A load that counts no fault.
fn load_file<R: rt::Files>(
    rt: &R,
    alloc: Global,
    name: &str,
    limit: u64,
) -> Result<FileBytes, LoadFault>
    ensures within { IfOk result (λ bytes. length bytes ≤ limit) }
    ensures large { (n : ℕ) → result ≡ Err (Large n) → n ≡ limit + 1 }
{
    match fs::open(rt, name) {
        Ok(mut file) => Ok(FileBytes::new(alloc, read_all(alloc, &mut file, limit)?)?),
        Err(error) => Err(fault_of(&error)),
    }
}

impl<R: rt::Files> Files for HostFiles<R> {
    ghost holds = { λ _. None };

    ghost given = { λ h. h.given };

    ghost fault_count = { λ h. h.faults };

    ghost allowed = { λ _ _. Unit {0} };

    fn faults(&self) -> u64 {
        self.faults
    }

    fn load(&mut self, alloc: Global, name: &str, limit: u64) -> Result<FileBytes, LoadFault>
        ensures given { IfOk result (λ bytes. self.new.given ≡ (name.now, bytes) ∷ self.old.given) }
        ensures kept { OnErr result (self.new.given ≡ self.old.given) }
        ensures within { IfOk result (λ bytes. length bytes ≤ limit) }
        ensures large { (n : ℕ) → result ≡ Err (Large n) → n ≡ limit + 1 }
        // The count rises just at a failure.
        ensures cause { HasCause self.old.faults self.new.faults (result ≡ Err Failed) }
        ensures quiet { result ≢ Err Failed → self.new.faults ≡ self.old.faults }
    {
        let result = load_file(&self.rt, alloc, name, limit);
        match &result {
            Ok(bytes) => self.given.keep(name, bytes)?,
            Err(LoadFault::Failed) => self.faults = self.faults.saturating_add(1),
            Err(_) => {}
        }
        result
    }
}
