//! Closed lists of literals.

ghost use Rattle.std.specs.Prelude.{IfOk, map};
ghost use Rattle.df_closure.specs.Closure.{ground_of};
ghost use Rattle.df_closure.specs.Closes.{Closes};
ghost use Rattle.df_closure.specs.Closing.{IsClosing};

use crate::closing::{Closing, Round};
use df_clause::GroundClause;
use df_form::Lit;
use df_rules::Known;
use std::alloc::{AllocError, Global};

/// A list of literals closed under unit propagation, or a clause that is false beside it.
#[derive(Drop)]
pub enum Closure {
    /// Propagation through the clauses of these numbers, in this order, leaves nothing of the last one.
    Refuted(Vec<usize>),
    /// The clauses teach nothing more.
    Closed {
        /// The list's literals and the learned ones.
        known: Known,
        /// What was learned, in this order.
        learned: Vec<Lit>,
        /// For each learned literal the number of the clause that taught it.
        reasons: Vec<usize>,
    },
}

/// The list with, added again and again, the one literal that is left of a clause whose other literals
/// are false; or the clauses by which one is false altogether.
pub fn close(
    alloc: Global,
    clauses: &[GroundClause],
    literals: &[Lit],
) -> Result<Closure, AllocError>
    ensures { IfOk result (Closes (map ground_of clauses.now) literals.now) }
{
    let mut closing = Closing::of(alloc, literals)?;
    loop {
        match closing.round(clauses)? {
            Round::Grown => {}
            Round::Settled => {
                return Ok(Closure::Closed {
                    known: closing.known,
                    learned: closing.learned,
                    reasons: closing.reasons,
                });
            }
            Round::Refuted(number) => {
                closing.reasons.push(number)?;
                return Ok(Closure::Refuted(closing.reasons));
            }
        }
    }
}
