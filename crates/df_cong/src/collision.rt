//! Where held literals clash by the labels of their nodes.

use df_classes::{Partition, is_denied, number, sides};
use df_form::{Lit, Over, Pair};
use std::alloc::{AllocError, Global};
use std::collections::BTreeMap;

/// Two nodes of one label that must not be equal, because of the held literals of these numbers, or since
/// they are two different numbers.
#[derive(Clone, Copy, PartialEq, Eq)]
pub(crate) struct Collision {
    pub(crate) ends: Pair,
    pub(crate) first: Option<usize>,
    pub(crate) second: Option<usize>,
}

/// The sides of an equality that a literal denies.
fn denied(nodes: &Over, partition: &Partition, literals: &[Lit]) -> Option<Collision> {
    for (place, literal) in literals.iter().enumerate() {
        if is_denied(nodes, partition, *literal) {
            let ends = sides(nodes, literal.node)?;
            return Some(Collision {
                ends,
                first: Some(place),
                second: None,
            });
        }
    }
    None
}

/// The place of the last positive literal of each label.
fn positive_places(
    alloc: Global,
    partition: &Partition,
    literals: &[Lit],
) -> Result<BTreeMap<usize, usize>, AllocError> {
    let mut places = BTreeMap::new(alloc);
    for (place, literal) in literals.iter().enumerate() {
        if literal.positive {
            places.insert(partition.label(literal.node), place)?;
        }
    }
    Ok(places)
}

/// The nodes of a negative literal and of a positive one of its label.
fn opposite(
    partition: &Partition,
    places: &BTreeMap<usize, usize>,
    literals: &[Lit],
    place: usize,
    literal: Lit,
) -> Option<Collision> {
    if literal.positive {
        return None;
    }
    let label = partition.label(literal.node);
    let other = places.get(&label).copied()?;
    let positive = literals.get(other).copied()?;
    Some(Collision {
        ends: Pair {
            left: positive.node,
            right: literal.node,
        },
        first: Some(other),
        second: Some(place),
    })
}

/// The nodes of a positive and a negative literal of one label.
fn opposites(
    alloc: Global,
    partition: &Partition,
    literals: &[Lit],
) -> Result<Option<Collision>, AllocError> {
    let places = positive_places(alloc, partition, literals)?;
    for (place, literal) in literals.iter().enumerate() {
        let found = opposite(partition, &places, literals, place, *literal);
        if found.is_some() {
            return Ok(found);
        }
    }
    Ok(None)
}

/// The last of the nodes that are numbers for each label.
fn number_nodes(
    alloc: Global,
    partition: &Partition,
    numbers: &[usize],
) -> Result<BTreeMap<usize, usize>, AllocError> {
    let mut by_label = BTreeMap::new(alloc);
    for node in numbers {
        by_label.insert(partition.label(*node), *node)?;
    }
    Ok(by_label)
}

/// Two nodes of one label that are different numbers, among those that are numbers.
fn two_numbers(
    alloc: Global,
    nodes: &Over,
    partition: &Partition,
    numbers: &[usize],
) -> Result<Option<Collision>, AllocError> {
    let by_label = number_nodes(alloc, partition, numbers)?;
    for node in numbers {
        let label = partition.label(*node);
        let other = by_label.get(&label).copied().unwrap_or(*node);
        if number(nodes, *node) != number(nodes, other) {
            return Ok(Some(Collision {
                ends: Pair {
                    left: *node,
                    right: other,
                },
                first: None,
                second: None,
            }));
        }
    }
    Ok(None)
}

/// A collision of held literals, where there is one. All nodes that are numbers are given.
pub(crate) fn find_collision(
    alloc: Global,
    nodes: &Over,
    partition: &Partition,
    numbers: &[usize],
    literals: &[Lit],
) -> Result<Option<Collision>, AllocError> {
    let denied = denied(nodes, partition, literals);
    if denied.is_some() {
        return Ok(denied);
    }
    let opposites = opposites(alloc, partition, literals)?;
    if opposites.is_some() {
        return Ok(opposites);
    }
    two_numbers(alloc, nodes, partition, numbers)
}
