//! The entries of sparse rows: nodes with their coefficients.

ghost use Rattle.std.specs.Prelude.{◌≡◌, true, OnOk, IfOk};
ghost use Rattle.std.specs.Bool.{MatchBool};
ghost use Rattle.df_row.specs.RowView.{coefficient_at as coefficient_at_of};
ghost use Rattle.df_level.specs.Entries.{ascends, coefficient_of, AreNarrow, HaveMultiples, LackMultiple};
ghost use Rattle.df_level.specs.Merge.{lowest, first_coefficient, others_after, with_entry, GivesSum};

use crate::exact::{has_product, weighted_sum};
use crate::fault::RowFault;
use std::alloc::{AllocError, Global};
use std::collections::BTreeMap;

/// A node with its coefficient.
pub(crate) type Entry = (usize, i128);

/// Whether the nodes ascend, and none has coefficient 0.
pub(crate) fn are_in_order(entries: &[Entry]) -> bool
    ensures order { result ≡ ascends 0 entries.now }
    ensures narrow { result ≡ true → AreNarrow entries.now }
{
    let mut low = 0;
    for entry in entries {
        let node = entry.0 as u128;
        if node < low || entry.1 == 0 {
            return false;
        }
        low = node + 1;
    }
    true
}

/// The coefficient of a node, 0 where it has none.
pub(crate) fn coefficient_at(entries: &[Entry], node: usize) -> i128
    ensures { result ≡ coefficient_of entries.now node }
{
    for entry in entries {
        if entry.0 == node {
            return entry.1;
        }
    }
    0
}

/// Whether so many times each coefficient has 128 bits.
pub(crate) fn have_multiples(entries: &[Entry], factor: i128) -> bool
    requires { ascends 0 entries.now ≡ true }
    ensures { MatchBool result (HaveMultiples factor entries.now) (LackMultiple factor entries.now) }
{
    for entry in entries {
        if !has_product(factor, entry.1) {
            return false;
        }
    }
    true
}

/// The lowest node of entries whose nodes ascend.
fn lowest_node(left: &[Entry], right: &[Entry]) -> Option<usize>
    ensures { result ≡ lowest left.now right.now }
{
    match (left, right) {
        ([], []) => None,
        ([(node, _), ..], []) | ([], [(node, _), ..]) => Some(*node),
        ([(node, _), ..], [(other, _), ..]) => Some((*node).min(*other)),
    }
}

/// The coefficient of the node, which no entry has below, and the entries of the nodes after it.
fn split_node(entries: &[Entry], node: usize) -> (i128, &[Entry])
    ensures coefficient { result.0 ≡ first_coefficient node entries.now }
    ensures others { result.1.now ≡ others_after node entries.now }
{
    match entries {
        [(first, coefficient), others @ ..] if *first == node => (*coefficient, others),
        _ => (0, entries),
    }
}

/// Adds an entry, unless its coefficient is 0.
fn push_entry(entries: &mut Vec<Entry>, node: usize, coefficient: i128) -> Result<(), AllocError>
    ensures entry { OnOk result (entries.new.items ≡ with_entry entries.old.items node coefficient) }
    ensures narrow { OnOk result (AreNarrow entries.old.items → AreNarrow entries.new.items) }
{
    if coefficient != 0 {
        entries.push((node, coefficient))?;
    }
    Ok(())
}

/// The entries of a map, without those of coefficient 0.
pub(crate) fn nonzero_entries(
    alloc: Global,
    map: &BTreeMap<usize, i128>,
) -> Result<Vec<Entry>, AllocError>
    ensures ordered { IfOk result (λ entries. ascends 0 entries.items ≡ true) }
    ensures coefficients { IfOk result (λ entries. coefficient_of entries.items ≡ coefficient_at_of map.now.entries) }
    ensures narrow { IfOk result (λ entries. AreNarrow entries.items) }
{
    let mut entries = Vec::new(alloc);
    for (node, coefficient) in map {
        push_entry(&mut entries, *node, *coefficient)?;
    }
    Ok(entries)
}

/// The entries of the sum of two rows by factors.
pub(crate) fn weighted_entries(
    alloc: Global,
    f: i128,
    left: &[Entry],
    g: i128,
    right: &[Entry],
) -> Result<Vec<Entry>, RowFault>
    requires left { ascends 0 left.now ≡ true }
    requires right { ascends 0 right.now ≡ true }
    ensures { GivesSum f left.now g right.now result }
{
    let mut sum = Vec::new(alloc);
    let mut left_rest = left;
    let mut right_rest = right;
    while let Some(node) = lowest_node(left_rest, right_rest) {
        let (a, left_others) = split_node(left_rest, node);
        let (b, right_others) = split_node(right_rest, node);
        let Some(coefficient) = weighted_sum(f, a, g, b) else {
            return Err(RowFault::Wide);
        };
        push_entry(&mut sum, node, coefficient)?;
        left_rest = left_others;
        right_rest = right_others;
    }
    Ok(sum)
}
