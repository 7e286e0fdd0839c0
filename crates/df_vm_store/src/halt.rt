//! Why an instruction does not go on.

ghost use Rattle.std.specs.Prelude.{◌≡◌};
ghost use Rattle.df_vm_store.specs.declared.halt.Halt.TheVariants as halts;

use std::alloc::{AllocError, AllocFailed};

#[derive(Clone, Copy, PartialEq, Eq)]
pub enum Halt {
    /// A demand is broken.
    Broken,
    /// Memory was refused, or there is none that large.
    Memory,
}

impl From<AllocError> for Halt {
    ghost from_gives = { λ _ halt. halt ≡ halts.Memory };

    fn from(_error: AllocError) -> Halt {
        Halt::Memory
    }
}

impl<T: Drop> From<AllocFailed<T>> for Halt {
    ghost from_gives = { λ _ halt. halt ≡ halts.Memory };

    fn from(_error: AllocFailed<T>) -> Halt {
        Halt::Memory
    }
}
