//! Files, as the program reads them.

ghost use Rattle.std.specs.Prelude.{◌≡◌, ◌≢◌, ◌↔◌, None, ℕ, ◌+◌, ◌<◌, ◌≤◌, List, ◌∷◌, Option, Some, length, IfOk, IfSome, OnErr, Err};
ghost use Rattle.df_base.specs.Outside.{Contents, bytes_of, HasCause};
ghost use Rattle.df_base.specs.declared.files.LoadFault.TheVariants.{Failed, Large, Memory};

mod bytes;
mod host;
mod mem;
pub(crate) mod read;
mod store;
mod sure;

use crate::memory::Memory as OutOfMemory;
pub use bytes::FileBytes;
pub use host::HostFiles;
pub use mem::MemFiles;
use std::alloc::{AllocError, Global};
pub use sure::SureFiles;
use thiserror::Error;

/// Why a file was not loaded.
#[derive(Debug, Drop, Error)]
pub enum LoadFault {
    /// A read failed, or no such file is there: the count of faults rose.
    #[error("cannot read")]
    Failed,
    /// The file holds more bytes than the limit, which is one less than this number.
    #[error("longer than the limit: {0} bytes or more")]
    Large(u64),
    #[error("out of memory")]
    Memory,
}

impl From<AllocError> for LoadFault {
    ghost from_gives = { λ _ fault. fault ≡ Memory };

    fn from(_error: AllocError) -> LoadFault {
        LoadFault::Memory
    }
}

impl From<OutOfMemory> for LoadFault {
    ghost from_gives = { λ _ fault. fault ≡ Memory };

    fn from(_error: OutOfMemory) -> LoadFault {
        LoadFault::Memory
    }
}

/// A place that files are read from.
pub trait Files {
    /// The files that it holds, or none where it does not tell.
    ghost holds: { Self → Option Contents };

    /// The names and the bytes of the files that it gave, the last one first.
    ghost given: { Self → List (List ℕ × List ℕ) };

    /// How many faults it has met.
    ghost fault_count: { Self → ℕ };

    /// The names that may be loaded. No call changes them.
    ghost allowed: { Self → List ℕ → Type 0 };

    /// How many faults it has met: it never falls.
    fn faults(&self) -> u64
        ensures { result ≡ fault_count self.now };

    /// All bytes of the file of this name, where they are not more than the limit. They lie where the record of
    /// what it gave has them, and are not copied.
    fn load(&mut self, alloc: Global, name: &str, limit: u64) -> Result<FileBytes, LoadFault>
        requires { allowed self.old name.now }
        // The bytes are the file's, and within the limit.
        ensures loaded { IfOk result (λ bytes. IfSome (holds self.old) (λ files. bytes_of files name.now ≡ Some bytes)) }
        ensures given { IfOk result (λ bytes. given self.new ≡ (name.now, bytes) ∷ given self.old) }
        ensures kept { OnErr result (given self.new ≡ given self.old) }
        ensures within { IfOk result (λ bytes. length bytes ≤ limit) }
        // It is too large just where no read failed and the file is longer than the limit.
        ensures large { (n : ℕ) → result ≡ Err (Large n) → n ≡ limit + 1 }
        ensures longer { (n : ℕ) → result ≡ Err (Large n) → IfSome (holds self.old) (λ files. IfSome (bytes_of files name.now) (λ bytes. limit < length bytes)) }
        ensures there { (n : ℕ) → result ≡ Err (Large n) → IfSome (holds self.old) (λ files. bytes_of files name.now ≢ None) }
        // A failure is a counted fault.
        ensures cause { HasCause (fault_count self.old) (fault_count self.new) (result ≡ Err Failed) }
        // What it holds and allows stays.
        ensures held { holds self.new ≡ holds self.old }
        ensures allows { (other : List ℕ) → allowed self.old other ↔ allowed self.new other }
        // A file that is too large is no fault.
        ensures clean { (n : ℕ) → result ≡ Err (Large n) → fault_count self.new ≡ fault_count self.old };
}
