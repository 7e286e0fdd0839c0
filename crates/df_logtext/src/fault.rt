//! Why a text is not read.

use std::alloc::AllocError;

/// Why a text is not read.
#[derive(Clone, Copy, Debug, PartialEq, Eq)]
pub enum LogFault {
    /// The bytes are the text of no logs. The first line, from 1, with which they begin none, or one past
    /// the last.
    BadLog(u64),
    /// Memory was refused.
    Memory,
}

impl From<AllocError> for LogFault {
    ghost use Rattle.std.specs.Prelude.{◌≡◌};
    ghost use Rattle.df_logtext.specs.declared.fault.LogFault.TheVariants as faults;

    ghost from_gives = { λ _ fault. fault ≡ faults.Memory };

    fn from(_error: AllocError) -> LogFault {
        LogFault::Memory
    }
}
