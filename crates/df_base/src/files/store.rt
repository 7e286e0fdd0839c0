//! Files kept in memory: those that a kind of `Files` holds, and those that it gave.

ghost use Rattle.std.specs.Prelude.{◌≡◌, ◌≢◌, ℕ, ◌+◌, ◌<◌, ◌≤◌, List, [], ◌∷◌, Some, None, Err, length, IfOk, IfSome, OnOk, OnErr, option_copied};
ghost use Rattle.df_base.specs.Outside.{bytes_of};
ghost use Rattle.df_base.specs.Stored.{stored};
ghost use Rattle.df_base.specs.declared.files.LoadFault.TheVariants.{Failed, Large};

use super::LoadFault;
use super::bytes::FileBytes;
use crate::memory::Memory;
use std::alloc::{AllocError, Global};
use std::marker::Model;

/// A file in memory.
#[derive(Drop)]
pub(super) struct File {
    name: String,
    bytes: FileBytes,
}

impl File {
    /// A file of this name with these bytes.
    pub(super) fn new(alloc: Global, name: &str, bytes: FileBytes) -> Result<File, AllocError>
        ensures { IfOk result (λ file. stored file ≡ (name.now, bytes)) }
    {
        Ok(File {
            name: String::from_str(alloc, name)?,
            bytes,
        })
    }
}

/// Files by their names. Where a name stands twice, the file that was added last counts.
#[derive(Drop)]
pub(super) struct Store {
    files: Vec<File>,
    alloc: Global,
}

impl Model for Store {
    ghost use Rattle.std.specs.Prelude.{ℕ, List, map};
    ghost use Rattle.df_base.specs.Stored.{stored};

    ghost Value = { List (List ℕ × List ℕ) };

    ghost view = { λ s. map stored s.files.items };
}

impl Store {
    pub(super) fn new(alloc: Global) -> Store
        ensures { result ≡ [] }
    {
        Store {
            files: Vec::new(alloc),
            alloc,
        }
    }

    /// Puts a file before the others.
    fn put(&mut self, name: &str, bytes: FileBytes) -> Result<(), Memory>
        ensures ok { OnOk result (self.new ≡ (name.now, bytes) ∷ self.old) }
        ensures err { OnErr result (self.new ≡ self.old) }
    {
        self.files.insert(0, File::new(self.alloc, name, bytes)?)?;
        Ok(())
    }

    /// Puts a file with a copy of the bytes before the others.
    pub(super) fn add(&mut self, name: &str, bytes: &[u8]) -> Result<(), Memory>
        ensures ok { OnOk result (self.new ≡ (name.now, bytes.now) ∷ self.old) }
        ensures err { OnErr result (self.new ≡ self.old) }
    {
        let copy = Vec::from_slice(self.alloc, bytes)?;
        let bytes = FileBytes::new(self.alloc, copy)?;
        self.put(name, bytes)
    }

    /// Puts a file before the others, with the bytes where they are.
    pub(super) fn keep(&mut self, name: &str, bytes: &FileBytes) -> Result<(), Memory>
        ensures ok { OnOk result (self.new ≡ (name.now, bytes.now) ∷ self.old) }
        ensures err { OnErr result (self.new ≡ self.old) }
    {
        let bytes = bytes.share()?;
        self.put(name, bytes)
    }

    /// The bytes of the file of this name.
    pub(super) fn find(&self, name: &str) -> Option<&FileBytes>
        ensures { option_copied result ≡ bytes_of self.now name.now }
    {
        for file in &self.files {
            if name == file.name.as_str() {
                return Some(&file.bytes);
            }
        }
        None
    }
}

/// These bytes, where they are not more than the limit.
pub(super) fn share_within(bytes: &FileBytes, limit: u64) -> Result<FileBytes, LoadFault>
    ensures loaded { IfOk result (λ same. same ≡ bytes.now) }
    ensures within { IfOk result (λ same. length same ≤ limit) }
    ensures large { (n : ℕ) → result ≡ Err (Large n) → (n ≡ limit + 1) × (limit < length bytes.now) }
    ensures sure { result ≢ Err Failed }
{
    if bytes.as_slice().len() as u64 > limit {
        return Err(LoadFault::Large(limit + 1));
    }
    Ok(bytes.share()?)
}
