//! What congruence tells of literals, in one call.

ghost use Rattle.std.specs.Prelude.{◌≡◌, true, IfOk};
ghost use Rattle.df_form.specs.Clause.{are_literals};
ghost use Rattle.df_cong.specs.Congruence.{TellsCongruence};
ghost use Rattle.df_classes.specs.HoldingView.{IsHolding};

use crate::answer::{Answer, Congruence};
use crate::clash::numbers;
use crate::classes::answer_for;
use df_classes::{Holding, users_of};
use df_form::{Lit, Over};
use std::alloc::{AllocError, Global};

/// Literals that are held, with the classes of their equalities.
fn held(alloc: Global, nodes: &Over, literals: &[Lit]) -> Result<Holding, AllocError>
    ensures holding { IfOk result (λ holding. IsHolding nodes.now holding.held.items holding.levels.items holding.partition) }
    ensures held { IfOk result (λ holding. holding.held.items ≡ literals.now) }
{
    let users = users_of(alloc, nodes)?;
    let mut holding = Holding::new(alloc, nodes, &users)?;
    for literal in literals {
        holding.hold(alloc, nodes, &users, *literal)?;
    }
    Ok(holding)
}

/// Whether literals contradict one another by congruence, or else which nodes they make equal. The only
/// error is want of memory.
pub fn congruence(alloc: Global, nodes: &Over, literals: &[Lit]) -> Result<Congruence, AllocError>
    requires { are_literals nodes.now literals.now ≡ true }
    ensures { IfOk result (TellsCongruence nodes.now literals.now) }
{
    let holding = held(alloc, nodes, literals)?;
    let numbers = numbers(alloc, nodes)?;
    match answer_for(alloc, nodes, &numbers, &holding)? {
        Answer::Conflict(reason) => Ok(Congruence::Contradicted(reason)),
        Answer::Quiet => Ok(Congruence::Labels(holding.partition.into_labels())),
    }
}
