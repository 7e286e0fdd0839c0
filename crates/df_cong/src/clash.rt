//! Whether held literals clash by the labels of their nodes.

ghost use Rattle.std.specs.Prelude.{◌≡◌, ◌&&◌, ◌||◌, ◌==◌, not, ℕ, None, IfOk, OnOk, if◌then◌else◌};
ghost use Rattle.std.specs.Option.{option_or};
ghost use Rattle.std.specs.List.{list_any};
ghost use Rattle.std.specs.Ordering.{nat_cmp};
ghost use Rattle.std.specs.BTreeSet.{contains};
ghost use Rattle.std.specs.BTreeMap.{get};
ghost use Rattle.df_rules.specs.CongruenceLine.{has_positive, has_opposites as has_opposites_in, number_at, number_in, are_different, has_two_numbers as has_two_numbers_in};
ghost use Rattle.df_classes.specs.mirror.State.{label_of};
ghost use Rattle.df_classes.specs.mirror.Clash.{has_denied as has_denied_in, clash, AreNumbers};
ghost use Rattle.df_classes.specs.PartitionView.{state_of};

use df_classes::{Partition, is_denied, number};
use df_form::{Lit, NodeTable, Over};
use std::alloc::{AllocError, Global};
use std::collections::{BTreeMap, BTreeSet};

/// Whether one of some literals does.
fn has_denied(nodes: &Over, partition: &Partition, literals: &[Lit]) -> bool
    ensures { result ≡ has_denied_in nodes.now (label_of (state_of partition.now)) literals.now }
{
    for literal in literals {
        if is_denied(nodes, partition, *literal) {
            return true;
        }
    }
    false
}

/// The label of a positive literal, beside others.
fn add_positive(
    partition: &Partition,
    labels: &mut BTreeSet<usize>,
    literal: Lit,
) -> Result<(), AllocError>
    ensures { OnOk result ((c : ℕ) → contains nat_cmp labels.new c ≡ ((literal.positive && label_of (state_of partition.now) literal.node == c) || contains nat_cmp labels.old c)) }
{
    if literal.positive {
        labels.insert(partition.label(literal.node))?;
    }
    Ok(())
}

/// The labels of positive literals.
fn positives(
    alloc: Global,
    partition: &Partition,
    literals: &[Lit],
) -> Result<BTreeSet<usize>, AllocError>
    ensures { IfOk result (λ labels. (c : ℕ) → contains nat_cmp labels c ≡ has_positive (label_of (state_of partition.now)) literals.now c) }
{
    let mut labels = BTreeSet::new(alloc);
    for literal in literals {
        add_positive(partition, &mut labels, *literal)?;
    }
    Ok(labels)
}

/// Whether a negative literal is of one of these labels.
fn has_opposite(partition: &Partition, positives: &BTreeSet<usize>, literals: &[Lit]) -> bool
    ensures { result ≡ list_any (λ l. not l.positive && contains nat_cmp positives.now (label_of (state_of partition.now) l.node)) literals.now }
{
    for literal in literals {
        let label = partition.label(literal.node);
        if !literal.positive && positives.contains(&label) {
            return true;
        }
    }
    false
}

/// Whether a positive and a negative literal are of one label.
fn has_opposites(alloc: Global, partition: &Partition, literals: &[Lit]) -> Result<bool, AllocError>
    ensures { IfOk result (λ yes. yes ≡ has_opposites_in (label_of (state_of partition.now)) literals.now) }
{
    let positives = positives(alloc, partition, literals)?;
    Ok(has_opposite(partition, &positives, literals))
}

/// All nodes that are numbers.
pub(crate) fn numbers(alloc: Global, nodes: &Over) -> Result<Vec<usize>, AllocError>
    ensures { IfOk result (λ numbers. AreNumbers nodes.now numbers.items) }
{
    let mut numbers = Vec::new(alloc);
    for node in 0..nodes.len() {
        if number(nodes, node).is_some() {
            numbers.push(node)?;
        }
    }
    Ok(numbers)
}

/// The number of a node by its label, beside those of others.
fn add_number(
    nodes: &Over,
    partition: &Partition,
    by_label: &mut BTreeMap<usize, i128>,
    node: usize,
) -> Result<(), AllocError>
    ensures { OnOk result ((c : ℕ) → get nat_cmp by_label.new c ≡ option_or (if label_of (state_of partition.now) node == c then number_at nodes.now node else None) (get nat_cmp by_label.old c)) }
{
    if let Some(number) = number(nodes, node) {
        by_label.insert(partition.label(node), number)?;
    }
    Ok(())
}

/// The last number of each label among some nodes.
fn by_label(
    alloc: Global,
    nodes: &Over,
    partition: &Partition,
    numbers: &[usize],
) -> Result<BTreeMap<usize, i128>, AllocError>
    ensures { IfOk result (λ by_label. (c : ℕ) → get nat_cmp by_label c ≡ number_in nodes.now (label_of (state_of partition.now)) numbers.now c) }
{
    let mut by_label = BTreeMap::new(alloc);
    for node in numbers {
        add_number(nodes, partition, &mut by_label, *node)?;
    }
    Ok(by_label)
}

fn are_different_numbers(first: Option<i128>, second: Option<i128>) -> bool
    ensures { result ≡ are_different first second }
{
    match (first, second) {
        (Some(first), Some(second)) => first != second,
        _ => false,
    }
}

/// Whether one of some nodes is another number than its label has.
fn has_other_number(
    nodes: &Over,
    partition: &Partition,
    by_label: &BTreeMap<usize, i128>,
    numbers: &[usize],
) -> bool
    ensures { result ≡ list_any (λ n. are_different (number_at nodes.now n) (get nat_cmp by_label.now (label_of (state_of partition.now) n))) numbers.now }
{
    for node in numbers {
        let label = partition.label(*node);
        let other = by_label.get(&label).copied();
        if are_different_numbers(number(nodes, *node), other) {
            return true;
        }
    }
    false
}

/// Whether two different numbers have one label.
fn has_two_numbers(
    alloc: Global,
    nodes: &Over,
    partition: &Partition,
    numbers: &[usize],
) -> Result<bool, AllocError>
    ensures { IfOk result (λ yes. yes ≡ has_two_numbers_in nodes.now (label_of (state_of partition.now)) numbers.now) }
{
    let by_label = by_label(alloc, nodes, partition, numbers)?;
    Ok(has_other_number(nodes, partition, &by_label, numbers))
}

/// Whether literals clash: a denied equality has sides of one label, two literals of one label have
/// different signs, or two different numbers, all of which are given, have one label.
pub(crate) fn do_clash(
    alloc: Global,
    nodes: &Over,
    partition: &Partition,
    numbers: &[usize],
    literals: &[Lit],
) -> Result<bool, AllocError>
    ensures { IfOk result (λ yes. yes ≡ clash nodes.now (label_of (state_of partition.now)) numbers.now literals.now) }
{
    if has_denied(nodes, partition, literals) || has_opposites(alloc, partition, literals)? {
        return Ok(true);
    }
    has_two_numbers(alloc, nodes, partition, numbers)
}
