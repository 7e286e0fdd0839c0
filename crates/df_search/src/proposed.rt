//! The search, with the engine's proposals in front of it: what the engine proposes counts where it passes
//! a check.

ghost use Rattle.std.specs.Prelude.{◌≤◌, ℕ, Err, IfOk, IfSome};
ghost use Rattle.df_form.specs.Sequent.{Sequent as Claim};
ghost use Rattle.df_form.specs.SequentView.{sequent_of};
ghost use Rattle.df_trig.specs.Rounds.{Instantiates};
ghost use Rattle.df_search.specs.Found.{Finds};

use crate::confirming::taken;
use crate::engine::Engine;
use crate::exhausting::exhaust;
use crate::found::{Budget, Found, What};
use df_axiom::Written;
use df_form::Sequent;
use df_solve::Proposal;
use df_table::{Table, is_model};
use df_trig::{TrigFault, instances};
use std::alloc::{AllocError, Global};

/// What is found in place of a table where there is no ground set that it may be a model of.
fn without_model(fault: TrigFault) -> Result<Option<Found>, AllocError>
    ensures { (s : Claim) (steps rounds : ℕ) → Instantiates s rounds (Err fault) → IfOk result (λ found. IfSome found (Finds s steps rounds)) }
{
    match fault {
        TrigFault::Many(count) => Ok(Some(Found::Many(What::Instances(count)))),
        TrigFault::Memory => Err(AllocError),
    }
}

/// The table, if it is a model of the ground set with so many rounds of instances; or that there are too
/// many of them. One that is none is counted.
fn tested(
    alloc: Global,
    engine: &mut Engine,
    sequent: &Sequent,
    table: Table,
    rounds: u32,
) -> Result<Option<Found>, AllocError>
    ensures { (steps : ℕ) → IfOk result (λ found. IfSome found (Finds (sequent_of sequent.now) steps rounds)) }
{
    let set = match instances(alloc, sequent, &Written {}, rounds) {
        Ok(set) => set,
        Err(fault) => return without_model(fault),
    };
    if is_model(&set, &table) {
        Ok(Some(Found::Modelled(table)))
    } else {
        engine.refuse();
        Ok(None)
    }
}

/// What the engine proposes, where it passes its check; or that there are too many instances to check a table. Nothing
/// where it gives up, and where its log or its table is refused, which is counted.
pub fn look(
    alloc: Global,
    engine: &mut Engine,
    sequent: &Sequent,
    budget: Budget,
) -> Result<Option<Found>, AllocError>
    ensures { (steps : ℕ) → IfOk result (λ found. IfSome found (Finds (sequent_of sequent.now) steps budget.rounds)) }
{
    match engine.propose(alloc, sequent, budget)? {
        Proposal::Proved(log) => taken(alloc, engine, sequent, log),
        Proposal::Modelled(table) => tested(alloc, engine, sequent, table, budget.rounds),
        Proposal::GaveUp => Ok(None),
    }
}

/// Searches for a log that derives the sequent. Where it stops without one, it gives evidence: a table
/// model of the ground set with all rounds of instances, as many closed branches as it may close, a number
/// past 128 bits, or too many instances or rows.
pub fn search(alloc: Global, sequent: &Sequent, budget: Budget) -> Result<Found, AllocError>
    requires steps { 1 ≤ budget.steps }
    ensures { IfOk result (Finds (sequent_of sequent.now) budget.steps budget.rounds) }
{
    search_with(alloc, &mut Engine::new(alloc), sequent, budget)
}

/// The same with an engine that serves the sequents of a declaration in order, of which each has the nodes and the
/// hypotheses of those before it: what was learned stays as long as it rests on what is still known.
pub fn search_with(
    alloc: Global,
    engine: &mut Engine,
    sequent: &Sequent,
    budget: Budget,
) -> Result<Found, AllocError>
    requires steps { 1 ≤ budget.steps }
    ensures { IfOk result (Finds (sequent_of sequent.now) budget.steps budget.rounds) }
{
    match look(alloc, engine, sequent, budget)? {
        Some(found) => Ok(found),
        None => exhaust(alloc, sequent, budget),
    }
}
