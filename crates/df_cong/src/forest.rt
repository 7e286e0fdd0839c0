//! The merges that led to classes, as trees of nodes.

use df_classes::{Holding, Level, Lists, sides};
use df_form::{Lit, Over, Pair};
use std::alloc::{AllocError, Global};

/// Why two nodes are equal.
#[derive(Clone, Copy, PartialEq, Eq)]
pub(crate) enum Cause {
    /// The held literal of this number is their equality.
    Literal(usize),
    /// They are of one operation, on parts that were equal before.
    Parts,
}

/// Two nodes whose classes became one.
#[derive(Clone, Copy, PartialEq, Eq)]
pub(crate) struct Merge {
    pub(crate) ends: Pair,
    pub(crate) cause: Cause,
}

/// What there was when the literal of a number came, or what there is now where it is yet to come.
fn level_at(holding: &Holding, place: usize) -> Level {
    match holding.levels.get(place).copied() {
        Some(level) => level,
        None => Level {
            changes: holding.partition.changes(),
            pairs: holding.partition.pairs.len(),
        },
    }
}

/// Adds the merges of the pairs from one number up to another.
fn add_pairs(
    merges: &mut Vec<Merge>,
    pairs: &[Pair],
    from: usize,
    to: usize,
) -> Result<(), AllocError> {
    for number in from..to {
        if let Some(ends) = pairs.get(number).copied() {
            merges.push(Merge {
                ends,
                cause: Cause::Parts,
            })?;
        }
    }
    Ok(())
}

/// Adds the merges that a literal brought: that of its equality, where its sides were apart, and those of
/// the pairs after it.
fn add_merges(
    merges: &mut Vec<Merge>,
    nodes: &Over,
    holding: &Holding,
    place: usize,
    literal: Lit,
) -> Result<(), AllocError> {
    let level = level_at(holding, place);
    let next = level_at(holding, place.saturating_add(1));
    if literal.positive && level.changes < next.changes {
        if let Some(ends) = sides(nodes, literal.node) {
            merges.push(Merge {
                ends,
                cause: Cause::Literal(place),
            })?;
        }
    }
    add_pairs(merges, &holding.partition.pairs, level.pairs, next.pairs)
}

/// The merges of held literals, in their order.
pub(crate) fn merges_of(
    alloc: Global,
    nodes: &Over,
    holding: &Holding,
) -> Result<Vec<Merge>, AllocError> {
    let mut merges = Vec::new(alloc);
    for (place, literal) in holding.held.iter().enumerate() {
        add_merges(&mut merges, nodes, holding, place, *literal)?;
    }
    Ok(merges)
}

/// The step from a node towards the root of its tree.
#[derive(Clone, Copy, PartialEq, Eq)]
struct Link {
    parent: usize,
    /// The number of the merge between them; a root has none.
    merge: Option<usize>,
    depth: usize,
}

/// Each node that was reached has a link; the nodes stand in the order in which they were reached.
#[derive(Drop)]
pub(crate) struct Forest {
    links: Vec<Option<Link>>,
    reached: Vec<usize>,
}

/// The numbers of the merges of each node.
fn merges_by_node(alloc: Global, count: usize, merges: &[Merge]) -> Result<Lists, AllocError> {
    let mut by_node = Lists::new(alloc, count)?;
    for (number, merge) in merges.iter().enumerate() {
        if merge.ends.left < by_node.len() {
            by_node.push(merge.ends.left, number)?;
        }
        if merge.ends.right < by_node.len() {
            by_node.push(merge.ends.right, number)?;
        }
    }
    Ok(by_node)
}

/// The node at the other end of a merge.
fn across(merge: Merge, node: usize) -> usize {
    if merge.ends.left == node {
        merge.ends.right
    } else {
        merge.ends.left
    }
}

impl Forest {
    fn link(&self, node: usize) -> Option<Link> {
        match self.links.get(node) {
            Some(link) => *link,
            None => None,
        }
    }

    /// Gives a node a link, where it has none.
    fn reach(&mut self, node: usize, link: Link) -> Result<(), AllocError> {
        if self.link(node).is_some() {
            return Ok(());
        }
        self.reached.push(node)?;
        if let Some(slot) = self.links.get_mut(node) {
            *slot = Some(link);
        }
        Ok(())
    }

    /// Reaches the nodes across merges of a node.
    fn reach_across(
        &mut self,
        merges: &[Merge],
        numbers: &[usize],
        node: usize,
    ) -> Result<(), AllocError> {
        let depth = match self.link(node) {
            Some(link) => link.depth.saturating_add(1),
            None => 0,
        };
        for number in numbers {
            if let Some(merge) = merges.get(*number).copied() {
                let link = Link {
                    parent: node,
                    merge: Some(*number),
                    depth,
                };
                self.reach(across(merge, node), link)?;
            }
        }
        Ok(())
    }

    /// Makes a node that was not reached a root, and reaches the nodes of its tree, the nearer ones first.
    fn reach_from(
        &mut self,
        merges: &[Merge],
        by_node: &Lists,
        root: usize,
    ) -> Result<(), AllocError> {
        let first = self.reached.len();
        let link = Link {
            parent: root,
            merge: None,
            depth: 0,
        };
        self.reach(root, link)?;
        for place in first..self.links.len() {
            let Some(node) = self.reached.get(place).copied() else {
                return Ok(());
            };
            self.reach_across(merges, by_node.list(node), node)?;
        }
        Ok(())
    }

    /// The trees of merges between so many nodes.
    pub(crate) fn new(alloc: Global, count: usize, merges: &[Merge]) -> Result<Forest, AllocError> {
        let by_node = merges_by_node(alloc, count, merges)?;
        let mut forest = Forest {
            links: vec![in alloc; None; count]?,
            reached: Vec::new(alloc),
        };
        for root in 0..count {
            forest.reach_from(merges, &by_node, root)?;
        }
        Ok(forest)
    }

    /// One merge on the way between two nodes, at the one that is further from the root, and the nodes
    /// between which the rest of the way is. There is none where the way ends.
    fn step(&self, ends: Pair) -> Option<(usize, Pair)> {
        if ends.left == ends.right {
            return None;
        }
        let left = self.link(ends.left)?;
        let right = self.link(ends.right)?;
        if left.depth < right.depth {
            let rest = Pair {
                left: ends.left,
                right: right.parent,
            };
            Some((right.merge?, rest))
        } else {
            let rest = Pair {
                left: left.parent,
                right: ends.right,
            };
            Some((left.merge?, rest))
        }
    }

    /// Marks the merges on the way between two nodes of one tree.
    pub(crate) fn mark_way(&self, marks: &mut [bool], ends: Pair) {
        let mut ends = ends;
        for _step in 0..self.links.len() {
            let Some((merge, rest)) = self.step(ends) else {
                return;
            };
            if merge < marks.len() {
                marks[merge] = true;
            }
            ends = rest;
        }
    }
}
