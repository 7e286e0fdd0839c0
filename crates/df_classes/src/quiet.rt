//! Whether held literals are known not to clash by what came with the last of them alone.

ghost use Rattle.std.specs.Prelude.{◌≡◌, [], true, length, map, IfOk};
ghost use Rattle.df_form.specs.Clause.{negation, are_literals};
ghost use Rattle.df_classes.specs.Equal.{IsContradicted};
ghost use Rattle.df_classes.specs.HoldingView.{IsHolding};
ghost use Rattle.df_classes.specs.SignsView.{Came, IsCovered};
ghost use Rattle.df_classes.specs.mirror.Clash.{AreNumbers};
ghost use Rattle.df_classes.specs.mirror.Closure.{AreUsers};

use crate::holding::Holding;
use crate::lists::Lists;
use crate::signs::Signs;
use df_form::{Lit, NodeTable, Over};
use std::alloc::{AllocError, Global};

/// What is known of the classes of no literals. All nodes that are numbers are given.
pub fn first_signs(
    alloc: Global,
    nodes: &Over,
    numbers: &[usize],
    holding: &Holding,
) -> Result<Signs, AllocError>
    requires holding { IsHolding nodes.now holding.now.held.items holding.now.levels.items holding.now.partition }
    requires held { holding.now.held.items ≡ [] }
    requires numbers { AreNumbers nodes.now numbers.now }
    ensures { IfOk result (λ signs. IsCovered nodes.now holding.now signs) }
{
    let mut signs = Signs::none(alloc, nodes.len())?;
    if !signs.put_numbers(nodes, &holding.partition, numbers)? {
        return Ok(signs);
    }
    signs.covered = 1;
    Ok(signs)
}

/// Whether held literals surely do not clash, where the last of so many came when there were so many changes,
/// and all before it are covered. It goes over what changed since then.
fn takes_last(
    nodes: &Over,
    users: &Lists,
    holding: &Holding,
    signs: &mut Signs,
    from: usize,
    literal: Lit,
    held: usize,
) -> Result<bool, AllocError>
    requires holding { IsHolding nodes.now holding.now.held.items holding.now.levels.items holding.now.partition }
    requires users { AreUsers nodes.now users.now }
    requires literals { are_literals nodes.now holding.now.held.items ≡ true }
    requires came { Came holding.now literal from }
    requires covered { IsCovered nodes.now holding.now signs.old }
    requires all { signs.old.covered ≡ held }
    requires count { held ≡ length holding.now.held.items }
    ensures quiet { IfOk result (λ yes. yes ≡ true → IsContradicted nodes.now (map negation holding.now.held.items) → ⊥) }
    ensures covered { IsCovered nodes.now holding.now signs.new }
{
    if !signs.take_in(nodes, users, &holding.partition, from, literal, held)? {
        return Ok(false);
    }
    signs.covered = holding.held.len() + 1;
    Ok(true)
}

/// Whether held literals surely do not clash, where the last of them came when there were so many changes.
/// An error leaves what was known.
pub fn is_surely_quiet(
    nodes: &Over,
    users: &Lists,
    holding: &Holding,
    signs: &mut Signs,
    from: usize,
    literal: Lit,
) -> Result<bool, AllocError>
    requires holding { IsHolding nodes.now holding.now.held.items holding.now.levels.items holding.now.partition }
    requires users { AreUsers nodes.now users.now }
    requires literals { are_literals nodes.now holding.now.held.items ≡ true }
    requires came { Came holding.now literal from }
    requires covered { IsCovered nodes.now holding.now signs.old }
    ensures quiet { IfOk result (λ yes. yes ≡ true → IsContradicted nodes.now (map negation holding.now.held.items) → ⊥) }
    ensures covered { IsCovered nodes.now holding.now signs.new }
{
    let held = holding.held.len();
    if signs.covered == held {
        return takes_last(nodes, users, holding, signs, from, literal, held);
    }
    Ok(false)
}
