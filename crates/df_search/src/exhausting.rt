//! The search beside ground sets with more and more rounds of instances.

ghost use Rattle.std.specs.Prelude.{◌≡◌, ◌≤◌, IfOk, IsTrue};
ghost use Rattle.df_form.specs.SequentView.{sequent_of};
ghost use Rattle.df_clause.specs.GroundView.{set_of};
ghost use Rattle.df_trig.specs.Instances.{with_round, instances as instance_sets};
ghost use Rattle.df_search.specs.Found.{Finds};

use crate::found::{Budget, Found};
use crate::searching::exhaust_set;
use df_axiom::Written;
use df_clause::Ground;
use df_form::Sequent;
use df_trig::{TrigFault, instances, round};
use std::alloc::{AllocError, Global};

/// Whether a round adds nothing to the ground set.
fn adds_nothing(alloc: Global, sequent: &Sequent, ground: &mut Ground) -> Result<bool, AllocError>
    ensures { IfOk result (λ nothing. IsTrue nothing → with_round (sequent_of sequent.now) (set_of ground.old) ≡ set_of ground.old) }
{
    let size = ground.clauses.len();
    match round(alloc, ground, sequent, &Written {}) {
        Ok(_) => Ok(ground.clauses.len() == size),
        Err(TrigFault::Many(_)) => Ok(false),
        Err(TrigFault::Memory) => Err(AllocError),
    }
}

/// Whether a further round is known to add nothing to the ground set with so many rounds.
fn is_settled(alloc: Global, sequent: &Sequent, rounds: u32) -> Result<bool, AllocError>
    ensures { IfOk result (λ settled. IsTrue settled → with_round (sequent_of sequent.now) (instance_sets (sequent_of sequent.now) rounds) ≡ instance_sets (sequent_of sequent.now) rounds) }
{
    match instances(alloc, sequent, &Written {}, rounds) {
        Ok(mut ground) => adds_nothing(alloc, sequent, &mut ground),
        Err(TrigFault::Many(_)) => Ok(false),
        Err(TrigFault::Memory) => Err(AllocError),
    }
}

/// Whether what is found beside so many rounds is found beside as many as there may be: where it is no
/// model, and where a further round adds nothing.
fn is_final(
    alloc: Global,
    sequent: &Sequent,
    rounds: u32,
    budget: Budget,
    found: &Found,
) -> Result<bool, AllocError>
    requires { rounds ≤ budget.rounds }
    ensures { IfOk result (λ last. IsTrue last → Finds (sequent_of sequent.now) budget.steps rounds found.now → Finds (sequent_of sequent.now) budget.steps budget.rounds found.now) }
{
    if !found.is_model() {
        return Ok(true);
    }
    is_settled(alloc, sequent, rounds)
}

/// The round with which a search begins: the first one, which says what is known of types, if it may be.
fn first_round(most: u32) -> u32
    ensures { result ≤ most }
{
    if most == 0 { 0 } else { 1 }
}

/// Searches beside the ground set with one round of instances, and where that has a model, beside those
/// with further rounds, as many as may be. A round that adds nothing ends this: the model is one for all
/// further rounds.
pub(crate) fn exhaust(alloc: Global, sequent: &Sequent, budget: Budget) -> Result<Found, AllocError>
    requires steps { 1 ≤ budget.steps }
    ensures { IfOk result (Finds (sequent_of sequent.now) budget.steps budget.rounds) }
{
    let most = budget.rounds;
    let mut rounds = first_round(most);
    loop {
        let found = exhaust_set(alloc, sequent, rounds, budget.steps)?;
        if rounds >= most {
            return Ok(found);
        }
        if is_final(alloc, sequent, rounds, budget, &found)? {
            return Ok(found);
        }
        rounds += 1;
    }
}
