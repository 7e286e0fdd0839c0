//! The engine, whose proposals are checked.

use crate::found::Budget;
use df_form::Sequent;
use df_solve::{Proposal, propose};
use std::alloc::{AllocError, Global};

/// An engine for the sequents of a declaration in order, of which each has the nodes and the hypotheses of those before
/// it. What it learns stays as long as it rests on what is still known.
#[derive(Drop)]
pub struct Engine {
    solver: df_solve::Engine,
    refused: u64,
}

impl Engine {
    /// An engine that knows nothing yet.
    pub fn new(alloc: Global) -> Engine {
        Engine {
            solver: df_solve::Engine::new(alloc),
            refused: 0,
        }
    }

    /// What it proposes for a sequent.
    pub(crate) fn propose(
        &mut self,
        alloc: Global,
        sequent: &Sequent,
        budget: Budget,
    ) -> Result<Proposal, AllocError> {
        propose(
            alloc,
            &mut self.solver,
            sequent,
            budget.steps,
            budget.rounds,
        )
    }

    /// Counts a proposal that does not pass its check.
    pub(crate) fn refuse(&mut self) {
        self.refused = self.refused.saturating_add(1);
    }

    /// How many of its proposals did not pass their check: logs that the kernel refused, and tables that are no models.
    pub fn refused(&self) -> u64 {
        self.refused
    }
}
