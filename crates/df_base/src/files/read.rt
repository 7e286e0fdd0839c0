//! Reading to an end, within a limit.

ghost use Rattle.std.specs.Prelude.{◌≡◌, ◌≢◌, ℕ, ◌+◌, ◌<◌, ◌≤◌, List, [], ◌∷◌, Some, None, Err, length, vec_len, IfOk, IfSome, OnOk, OnErr};
ghost use Rattle.std.specs.Io.KnownBytes.{Consumes, IsAtEnd};
ghost use Rattle.df_base.specs.declared.files.LoadFault.TheVariants.{Failed, Large};

use super::LoadFault;
use std::alloc::Global;
use std::io::{Error, ErrorKind, Read};

/// Why a call of the system failed: it was refused memory, or it met a fault.
pub(super) fn fault_of(error: &Error) -> LoadFault
    ensures { (n : ℕ) → result ≢ Large n }
{
    match error.kind() {
        ErrorKind::OutOfMemory => LoadFault::Memory,
        _ => LoadFault::Failed,
    }
}

/// What a reader has left, where that is not more than the limit. It reads until the end, or until
/// it has more bytes than the limit.
///
/// `Failed`: a read failed. `Large(limit + 1)`: there are more bytes than the limit. `Memory`:
/// memory was refused.
pub(crate) fn read_all<R: Read>(
    alloc: Global,
    reader: &mut R,
    limit: u64,
) -> Result<Vec<u8>, LoadFault>
    ensures all { IfOk result (λ bytes. Consumes (R.remaining reader.old) (R.remaining reader.new) bytes.items) }
    ensures end { OnOk result (IsAtEnd (R.remaining reader.new)) }
    ensures within { IfOk result (λ bytes. vec_len bytes ≤ limit) }
    ensures large { (n : ℕ) → result ≡ Err (Large n) → n ≡ limit + 1 }
    ensures longer { (n : ℕ) → result ≡ Err (Large n) → IfSome (R.remaining reader.old) (λ bytes. limit < length bytes) }
{
    let mut bytes = Vec::new(alloc);
    let mut buffer = [0u8; 4096];
    while bytes.len() as u64 <= limit {
        match reader.read(&mut buffer) {
            Ok(0) => return Ok(bytes),
            Ok(count) => bytes.extend_from_slice(&buffer[..count])?,
            Err(error) => return Err(fault_of(&error)),
        }
    }
    Err(LoadFault::Large(limit + 1))
}
