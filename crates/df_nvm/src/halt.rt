//! How an instruction leaves its frame.

ghost use Rattle.std.specs.Prelude.{◌≡◌};
ghost use Rattle.df_nvm.specs.declared.halt.Halt.TheVariants as halts;

use df_base::SinkFault;
use std::alloc::{AllocError, AllocFailed};

/// What an instruction did.
#[derive(Clone, Copy, PartialEq, Eq)]
pub(crate) enum Turn {
    /// The frame stands at its next instruction.
    On,
    /// The frame ends with so many results, which are its operands on top.
    Returned(usize),
}

/// Why an instruction did nothing.
#[derive(Clone, Copy, PartialEq, Eq)]
pub(crate) enum Halt {
    /// A demand is broken.
    Broken,
    /// The sink met a fault.
    Write,
    /// Memory was refused.
    Memory,
}

impl From<AllocError> for Halt {
    ghost from_gives = { λ _ halt. halt ≡ halts.Memory };

    fn from(_error: AllocError) -> Halt {
        Halt::Memory
    }
}

impl<T: Drop> From<AllocFailed<T>> for Halt {
    ghost from_gives = { λ _ halt. halt ≡ halts.Memory };

    fn from(_error: AllocFailed<T>) -> Halt {
        Halt::Memory
    }
}

impl From<SinkFault> for Halt {
    ghost use Rattle.df_nvm.specs.mirror.Halting.{halt_of};

    ghost from_gives = { λ fault halt. halt ≡ halt_of fault };

    fn from(fault: SinkFault) -> Halt {
        match fault {
            SinkFault::Failed => Halt::Write,
            SinkFault::Memory => Halt::Memory,
        }
    }
}
