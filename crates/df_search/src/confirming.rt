//! Logs that are handed to the kernel.

ghost use Rattle.std.specs.Prelude.{ℕ, map, IfOk, IfSome};
ghost use Rattle.df_form.specs.Log.{step_of};
ghost use Rattle.df_form.specs.SequentView.{sequent_of};
ghost use Rattle.df_rules.specs.Derivation.{Derives};
ghost use Rattle.df_search.specs.Found.{Finds};

use crate::engine::Engine;
use crate::found::Found;
use df_form::{Sequent, Step};
use df_kern::{KernFault, check, logs_derive_or_are_refused};
use std::alloc::{AllocError, Global};

/// The log, if the kernel takes it. One that is refused is counted.
pub(crate) fn taken(
    alloc: Global,
    engine: &mut Engine,
    sequent: &Sequent,
    log: Vec<Step>,
) -> Result<Option<Found>, AllocError>
    ensures { (steps rounds : ℕ) → IfOk result (λ found. IfSome found (Finds (sequent_of sequent.now) steps rounds)) }
{
    match check(alloc, sequent, log.as_slice()) {
        Ok(accepted) => Ok(Some(Found::Proved { accepted, log })),
        Err(KernFault::Refused { .. }) => {
            engine.refuse();
            Ok(None)
        }
        Err(KernFault::Memory) => Err(AllocError),
    }
}

/// A log that derives the sequent, which the kernel takes.
pub(crate) fn confirmed(
    alloc: Global,
    sequent: &Sequent,
    log: Vec<Step>,
) -> Result<Found, AllocError>
    requires { Derives (sequent_of sequent.now) (map step_of log.items) }
    ensures { (steps rounds : ℕ) → IfOk result (Finds (sequent_of sequent.now) steps rounds) }
{
    logs_derive_or_are_refused();
    match check(alloc, sequent, log.as_slice()) {
        Ok(accepted) => Ok(Found::Proved { accepted, log }),
        Err(KernFault::Refused { .. }) => unreachable!(),
        Err(KernFault::Memory) => Err(AllocError),
    }
}
