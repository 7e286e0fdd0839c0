//! Why a log proves no program.

use df_base::Memory;
use std::alloc::AllocError;

/// Why a log is not one of a program.
#[derive(Clone, Copy, PartialEq, Eq)]
pub enum CheckFault {
    /// The bytes are the text of no logs. The first line, from 1, with which they begin none, or one past the last.
    NotALog(u64),
    /// The first part that does not derive its obligation, by its number from 1, and the first step, from 1, that is
    /// refused. For a part that ends early, that is missing or that is one too many it is one more than it has steps.
    Refused { obligation: u64, step: u64 },
    /// Memory was refused.
    Memory,
}

impl From<AllocError> for CheckFault {
    ghost use Rattle.std.specs.Prelude.{◌≡◌};
    ghost use Rattle.df_nproof.specs.declared.fault.CheckFault.TheVariants as faults;

    ghost from_gives = { λ _ fault. fault ≡ faults.Memory };

    fn from(_error: AllocError) -> CheckFault {
        CheckFault::Memory
    }
}

impl From<Memory> for CheckFault {
    ghost use Rattle.std.specs.Prelude.{◌≡◌};
    ghost use Rattle.df_nproof.specs.declared.fault.CheckFault.TheVariants as faults;

    ghost from_gives = { λ _ fault. fault ≡ faults.Memory };

    fn from(_error: Memory) -> CheckFault {
        CheckFault::Memory
    }
}
