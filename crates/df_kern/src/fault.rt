use std::alloc::AllocError;

/// Why a line, or the end of a log, was not taken.
#[derive(Clone, Copy, Debug, PartialEq, Eq)]
pub enum KernFault {
    /// The step of number `at`, from 1, is no line of a derivation. `broken` is the row of its kind in
    /// the table of lines, from 1. Where only the empty clause is missing, `at` is one more than the
    /// number of steps, and `broken` is 0.
    Refused { at: u64, broken: u8 },
    /// Memory was refused.
    Memory,
}

impl From<AllocError> for KernFault {
    ghost use Rattle.std.specs.Prelude.{◌≡◌};
    ghost use Rattle.df_kern.specs.declared.fault.KernFault.TheVariants.{Memory};

    ghost from_gives = { λ _ fault. fault ≡ Memory };

    fn from(_error: AllocError) -> KernFault {
        KernFault::Memory
    }
}
