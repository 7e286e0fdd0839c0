//! Numbers of classes.

ghost use Rattle.std.specs.Prelude.{◌≡◌, ◌++◌, ◌==◌, ℕ, None, IfOk, OnOk, if◌then◌else◌};
ghost use Rattle.std.specs.Option.{option_or};
ghost use Rattle.std.specs.List.{list_any};
ghost use Rattle.std.specs.Ordering.{nat_cmp};
ghost use Rattle.std.specs.BTreeMap.{get};
ghost use Rattle.df_rules.specs.CongruenceLine.{number_at, number_in, are_different, members as members_of, has_two_numbers as has_two_numbers_in};
ghost use Rattle.df_kern.specs.ClassesView.{class_of};

use crate::classes::Classes;
use df_form::{NodeTable, Op, Over, Pair};
use std::alloc::{AllocError, Global};
use std::collections::BTreeMap;

/// The number that a node is.
fn number(nodes: &Over, node: usize) -> Option<i128>
    ensures { result ≡ number_at nodes.now node }
{
    match nodes.get(node)?.op {
        Op::Number(k) => Some(k),
        _ => None,
    }
}

/// More nodes: those of pairs.
fn push_members(nodes: &mut Vec<usize>, pairs: &[Pair]) -> Result<(), AllocError>
    ensures { OnOk result (nodes.new.items ≡ nodes.old.items ++ members_of pairs.now) }
{
    for pair in pairs {
        nodes.push(pair.left)?;
        nodes.push(pair.right)?;
    }
    Ok(())
}

/// The nodes of pairs.
pub(crate) fn members(
    alloc: Global,
    equalities: &[Pair],
    pairs: &[Pair],
) -> Result<Vec<usize>, AllocError>
    ensures { IfOk result (λ nodes. nodes.items ≡ members_of (equalities.now ++ pairs.now)) }
{
    let mut nodes = Vec::new(alloc);
    push_members(&mut nodes, equalities)?;
    push_members(&mut nodes, pairs)?;
    Ok(nodes)
}

/// The number of a node, beside those of other classes.
fn add_number(
    nodes: &Over,
    classes: &mut Classes,
    numbers: &mut BTreeMap<usize, i128>,
    member: usize,
) -> Result<(), AllocError>
    ensures more { OnOk result ((c : ℕ) → get nat_cmp numbers.new c ≡ option_or (if class_of classes.old member == c then number_at nodes.now member else None) (get nat_cmp numbers.old c)) }
    ensures same { OnOk result (class_of classes.new ≡ class_of classes.old) }
{
    if let Some(number) = number(nodes, member) {
        let class = classes.least(member)?;
        numbers.insert(class, number)?;
    }
    Ok(())
}

/// The last number of each class among some nodes.
fn numbers(
    alloc: Global,
    nodes: &Over,
    classes: &mut Classes,
    members: &[usize],
) -> Result<BTreeMap<usize, i128>, AllocError>
    ensures numbers { IfOk result (λ numbers. (c : ℕ) → get nat_cmp numbers c ≡ number_in nodes.now (class_of classes.old) members.now c) }
    ensures same { OnOk result (class_of classes.new ≡ class_of classes.old) }
{
    let mut numbers = BTreeMap::new(alloc);
    for member in members {
        add_number(nodes, classes, &mut numbers, *member)?;
    }
    Ok(numbers)
}

fn are_different_numbers(first: Option<i128>, second: Option<i128>) -> bool
    ensures { result ≡ are_different first second }
{
    match (first, second) {
        (Some(first), Some(second)) => first != second,
        _ => false,
    }
}

/// Whether a node is another number than its class has.
fn differs(
    nodes: &Over,
    classes: &mut Classes,
    numbers: &BTreeMap<usize, i128>,
    member: usize,
) -> Result<bool, AllocError>
    ensures differs { IfOk result (λ yes. yes ≡ are_different (number_at nodes.now member) (get nat_cmp numbers.now (class_of classes.old member))) }
    ensures same { OnOk result (class_of classes.new ≡ class_of classes.old) }
{
    let class = classes.least(member)?;
    let other = numbers.get(&class).copied();
    Ok(are_different_numbers(number(nodes, member), other))
}

/// Whether one of some nodes is.
fn has_other_number(
    nodes: &Over,
    classes: &mut Classes,
    numbers: &BTreeMap<usize, i128>,
    members: &[usize],
) -> Result<bool, AllocError>
    ensures other { IfOk result (λ yes. yes ≡ list_any (λ n. are_different (number_at nodes.now n) (get nat_cmp numbers.now (class_of classes.old n))) members.now) }
    ensures same { OnOk result (class_of classes.new ≡ class_of classes.old) }
{
    for member in members {
        if differs(nodes, classes, numbers, *member)? {
            return Ok(true);
        }
    }
    Ok(false)
}

/// Whether two different numbers are in one class.
pub(crate) fn has_two_numbers(
    alloc: Global,
    nodes: &Over,
    classes: &mut Classes,
    members: &[usize],
) -> Result<bool, AllocError>
    ensures { IfOk result (λ yes. yes ≡ has_two_numbers_in nodes.now (class_of classes.old) members.now) }
{
    let numbers = numbers(alloc, nodes, classes, members)?;
    has_other_number(nodes, classes, &numbers, members)
}
