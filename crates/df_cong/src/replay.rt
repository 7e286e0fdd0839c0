//! Whether literals and pairs are a line of congruence.

ghost use Rattle.std.specs.Prelude.{◌≡◌, ◌∷◌, [], true, length, map, IfOk, OnOk};
ghost use Rattle.df_form.specs.Clause.{negation, are_literals};
ghost use Rattle.df_rules.specs.Congruence.{IsCongruence};
ghost use Rattle.df_classes.specs.HoldingView.{held_equalities, equality_held};
ghost use Rattle.df_classes.specs.PartitionView.{state_of};
ghost use Rattle.df_classes.specs.mirror.Partition.{IsPartition};
ghost use Rattle.df_cong.specs.mirror.Replay.{CanUnite, Unites, UnitesAlike};

use crate::clash::do_clash;
use df_classes::{Lists, Partition, are_alike, join, sides};
use df_form::{Lit, NodeTable, Over, Pair};
use std::alloc::{AllocError, Global};

/// Makes the classes of two nodes one.
fn unite(alloc: Global, partition: &mut Partition, pair: Pair) -> Result<(), AllocError>
    requires { CanUnite pair (state_of partition.old) }
    ensures { OnOk result (Unites (length (state_of partition.old).labels) (state_of partition.old) (state_of partition.new) (pair ∷ [])) }
{
    let left = partition.label(pair.left);
    let right = partition.label(pair.right);
    if left == right {
        return Ok(());
    }
    let users = Lists::new(alloc, 0)?;
    let mut waiting = Vec::new(alloc);
    join(alloc, &users, partition, pair, &mut waiting)
}

/// Makes the classes of the sides of the equality that a literal is one.
fn unite_sides(
    alloc: Global,
    nodes: &Over,
    partition: &mut Partition,
    literal: Lit,
) -> Result<(), AllocError>
    requires { IsPartition (length nodes.now) (state_of partition.old) }
    ensures { OnOk result (Unites (length nodes.now) (state_of partition.old) (state_of partition.new) (equality_held nodes.now literal)) }
{
    if !literal.positive {
        return Ok(());
    }
    match sides(nodes, literal.node) {
        Some(pair) => unite(alloc, partition, pair),
        None => Ok(()),
    }
}

/// And so for each of some literals.
fn unite_all_sides(
    alloc: Global,
    nodes: &Over,
    partition: &mut Partition,
    literals: &[Lit],
) -> Result<(), AllocError>
    requires { IsPartition (length nodes.now) (state_of partition.old) }
    ensures { OnOk result (Unites (length nodes.now) (state_of partition.old) (state_of partition.new) (held_equalities nodes.now literals.now)) }
{
    for literal in literals {
        unite_sides(alloc, nodes, partition, *literal)?;
    }
    Ok(())
}

/// Makes the classes of two nodes one, where they are alike, and tells whether they are.
fn unite_alike(
    alloc: Global,
    nodes: &Over,
    partition: &mut Partition,
    pair: Pair,
) -> Result<bool, AllocError>
    requires { IsPartition (length nodes.now) (state_of partition.old) }
    ensures { IfOk result (λ yes. yes ≡ true → UnitesAlike nodes.now (state_of partition.old) (state_of partition.new) (pair ∷ [])) }
{
    if !are_alike(nodes, partition, pair) {
        return Ok(false);
    }
    unite(alloc, partition, pair)?;
    Ok(true)
}

/// And so for pairs in their order, as long as they are.
fn unite_all_alike(
    alloc: Global,
    nodes: &Over,
    partition: &mut Partition,
    pairs: &[Pair],
) -> Result<bool, AllocError>
    requires { IsPartition (length nodes.now) (state_of partition.old) }
    ensures { IfOk result (λ yes. yes ≡ true → UnitesAlike nodes.now (state_of partition.old) (state_of partition.new) pairs.now) }
{
    for pair in pairs {
        if !unite_alike(alloc, nodes, partition, *pair)? {
            return Ok(false);
        }
    }
    Ok(true)
}

/// Whether the negations of literals are the clause of a line of congruence with these pairs. All nodes
/// that are numbers are given.
pub(crate) fn is_line(
    alloc: Global,
    nodes: &Over,
    numbers: &[usize],
    literals: &[Lit],
    pairs: &[Pair],
) -> Result<bool, AllocError>
    requires { are_literals nodes.now literals.now ≡ true }
    ensures { IfOk result (λ yes. yes ≡ true → IsCongruence nodes.now (map negation literals.now) pairs.now) }
{
    let mut partition = Partition::new(alloc, nodes.len())?;
    unite_all_sides(alloc, nodes, &mut partition, literals)?;
    if !unite_all_alike(alloc, nodes, &mut partition, pairs)? {
        return Ok(false);
    }
    do_clash(alloc, nodes, &partition, numbers, literals)
}
