ghost use Rattle.std.specs.Prelude.{◌≡◌};
ghost use Rattle.df_nerase.specs.declared.fault.EraseFault.TheVariants as faults;

use df_base::Pos;
use std::alloc::{AllocError, AllocFailed};

/// Why a program is not erased.
#[derive(Clone, Copy, Debug, PartialEq, Eq)]
pub enum EraseFault {
    /// A node at the place breaks the rule of this number on what compiles.
    NotNative(Pos, u8),
    /// Memory was refused.
    Memory,
}

impl From<AllocError> for EraseFault {
    ghost from_gives = { λ _ fault. fault ≡ faults.Memory };

    fn from(_error: AllocError) -> EraseFault {
        EraseFault::Memory
    }
}

impl<T: Drop> From<AllocFailed<T>> for EraseFault {
    ghost from_gives = { λ _ fault. fault ≡ faults.Memory };

    fn from(_error: AllocFailed<T>) -> EraseFault {
        EraseFault::Memory
    }
}
