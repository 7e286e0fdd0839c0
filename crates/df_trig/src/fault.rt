use std::alloc::AllocError;

/// Why a round ended.
#[derive(Clone, Copy, PartialEq, Eq)]
pub enum TrigFault {
    /// There are so many instances, which is the limit.
    Many(u64),
    /// Memory was refused.
    Memory,
}

impl From<AllocError> for TrigFault {
    ghost use Rattle.std.specs.Prelude.{◌≡◌};
    ghost use Rattle.df_trig.specs.declared.fault.TrigFault.TheVariants.{Memory};

    ghost from_gives = { λ _ fault. fault ≡ Memory };

    fn from(_error: AllocError) -> TrigFault {
        TrigFault::Memory
    }
}
