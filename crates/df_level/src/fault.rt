//! Why there is no row, or no level.

use std::alloc::{AllocError, AllocFailed};

/// Why there is no row.
#[derive(Clone, Copy, PartialEq, Eq)]
pub enum RowFault {
    /// A coefficient or the constant is past 128 bits.
    Wide,
    Memory,
}

impl From<AllocError> for RowFault {
    ghost use Rattle.std.specs.Prelude.{◌≡◌};
    ghost use Rattle.df_level.specs.declared.fault.RowFault.TheVariants.{Memory as out_of_memory};

    ghost from_gives = { λ _ fault. fault ≡ out_of_memory };

    fn from(_error: AllocError) -> RowFault {
        RowFault::Memory
    }
}

impl<T: Drop> From<AllocFailed<T>> for RowFault {
    ghost use Rattle.std.specs.Prelude.{◌≡◌};
    ghost use Rattle.df_level.specs.declared.fault.RowFault.TheVariants.{Memory as out_of_memory};

    ghost from_gives = { λ _ fault. fault ≡ out_of_memory };

    fn from(_error: AllocFailed<T>) -> RowFault {
        RowFault::Memory
    }
}

/// Why there is no level.
#[derive(Clone, Copy, Debug, PartialEq, Eq)]
pub enum LevelFault {
    /// A number on the way is past 128 bits.
    Wide,
    /// It came to as many rows as no level may have.
    Many,
    Memory,
}

impl From<RowFault> for LevelFault {
    ghost use Rattle.std.specs.Prelude.{◌≡◌};
    ghost use Rattle.df_level.specs.Levels.{level_fault};

    ghost from_gives = { λ row level. level ≡ level_fault row };

    fn from(fault: RowFault) -> LevelFault {
        match fault {
            RowFault::Wide => LevelFault::Wide,
            RowFault::Memory => LevelFault::Memory,
        }
    }
}

impl From<AllocError> for LevelFault {
    ghost use Rattle.std.specs.Prelude.{◌≡◌};
    ghost use Rattle.df_level.specs.declared.fault.LevelFault.TheVariants.{Memory as out_of_memory};

    ghost from_gives = { λ _ fault. fault ≡ out_of_memory };

    fn from(_error: AllocError) -> LevelFault {
        LevelFault::Memory
    }
}

impl<T: Drop> From<AllocFailed<T>> for LevelFault {
    ghost use Rattle.std.specs.Prelude.{◌≡◌};
    ghost use Rattle.df_level.specs.declared.fault.LevelFault.TheVariants.{Memory as out_of_memory};

    ghost from_gives = { λ _ fault. fault ≡ out_of_memory };

    fn from(_error: AllocFailed<T>) -> LevelFault {
        LevelFault::Memory
    }
}
