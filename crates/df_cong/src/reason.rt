//! Why held literals clash.

ghost use Rattle.std.specs.Prelude.{◌≡◌, true, IfOk, IfSome};
ghost use Rattle.df_form.specs.Clause.{are_literals};
ghost use Rattle.df_cong.specs.Theory.{IsReason};

use crate::answer::Reason;
use crate::collision::{Collision, find_collision};
use crate::explaining::explanation;
use crate::replay::is_line;
use df_classes::Holding;
use df_form::Over;
use std::alloc::{AllocError, Global};

/// Why held literals clash: all of them, and all pairs.
pub(crate) fn whole_reason(alloc: Global, holding: &Holding) -> Result<Reason, AllocError>
    ensures literals { IfOk result (λ reason. reason.literals.items ≡ holding.now.held.items) }
    ensures pairs { IfOk result (λ reason. reason.pairs.items ≡ holding.now.partition.pairs.items) }
{
    Ok(Reason {
        literals: Vec::from_slice(alloc, &holding.held)?,
        pairs: Vec::from_slice(alloc, &holding.partition.pairs)?,
    })
}

/// The literals and the pairs that a collision needs, where they are a line of congruence.
fn explained(
    alloc: Global,
    nodes: &Over,
    numbers: &[usize],
    holding: &Holding,
    collision: Collision,
) -> Result<Option<Reason>, AllocError>
    requires { are_literals nodes.now holding.now.held.items ≡ true }
    ensures { IfOk result (λ found. IfSome found (IsReason nodes.now holding.now.held.items)) }
{
    let reason = explanation(alloc, nodes, holding, collision)?;
    if is_line(alloc, nodes, numbers, &reason.literals, &reason.pairs)? {
        Ok(Some(reason))
    } else {
        Ok(None)
    }
}

/// Why held literals clash, with no more of them than one collision needs. All nodes that are numbers are
/// given.
pub(crate) fn short_reason(
    alloc: Global,
    nodes: &Over,
    numbers: &[usize],
    holding: &Holding,
) -> Result<Option<Reason>, AllocError>
    requires { are_literals nodes.now holding.now.held.items ≡ true }
    ensures { IfOk result (λ found. IfSome found (IsReason nodes.now holding.now.held.items)) }
{
    match find_collision(alloc, nodes, &holding.partition, numbers, &holding.held)? {
        Some(collision) => explained(alloc, nodes, numbers, holding, collision),
        None => Ok(None),
    }
}
