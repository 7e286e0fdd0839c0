//! Commands.

use clap::Error;
use clap::error::ErrorKind;
use std::alloc::AllocError;

/// How much a search for a proof may do.
#[derive(Clone, Copy, PartialEq, Eq)]
pub struct Budget {
    /// How many branches may be closed: 1 to 10000000.
    pub steps: u64,
    /// How many rounds of instances there may be: 0 to 8.
    pub rounds: u64,
}

/// What the words ask for.
#[derive(Drop)]
pub enum Command {
    /// Proves the obligations of the file, and reports.
    Verify {
        file: String,
        budget: Budget,
    },
    /// Proves them, and tells the log.
    Prove {
        file: String,
        budget: Budget,
    },
    /// Checks the log, and reports.
    Check {
        file: String,
        log: String,
    },
    /// Proves them, or checks the log that is given, and tells the listing of the code.
    Build {
        file: String,
        proof: Option<String>,
        budget: Budget,
    },
    /// Proves them, or checks the log that is given, and runs Main for at most so many steps: 0 to
    /// 2^63 - 1.
    Run {
        file: String,
        proof: Option<String>,
        budget: Budget,
        fuel: u64,
    },
    /// Makes the source of this seed, 0 to 2^63 - 1, with so many methods, 1 to 200, proves it and runs
    /// it.
    Bulk {
        seed: u64,
        count: u64,
    },
}

/// Why there is no command.
#[derive(Clone, Copy, PartialEq, Eq)]
pub enum LineFault {
    /// The words are those of no command.
    Usage,
    /// Memory was refused.
    Memory,
}

impl From<AllocError> for LineFault {
    ghost use Rattle.std.specs.Prelude.{◌≡◌};
    ghost use Rattle.df_ncmd.specs.declared.command.LineFault.TheVariants.{Memory as out_of_memory};

    ghost from_gives = { λ _ fault. fault ≡ out_of_memory };

    fn from(_error: AllocError) -> LineFault {
        LineFault::Memory
    }
}

impl From<Error> for LineFault {
    ghost use Rattle.std.specs.Prelude.{◌≡◌};
    ghost use Rattle.clap.specs.Words.{kind_of};
    ghost use Rattle.df_ncmd.specs.Fault.{fault_for};

    ghost from_gives = { λ error fault. fault ≡ fault_for (kind_of error) };

    /// Words that ask for help are no line either.
    #[tactic(auto, using(crate::proofs::Refusals::other_kind))]
    fn from(error: Error) -> LineFault {
        match error.kind() {
            ErrorKind::OutOfMemory => LineFault::Memory,
            _ => LineFault::Usage,
        }
    }
}
