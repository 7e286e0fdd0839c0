//! Sequents that are drafted, and nodes that are numbered on.

use df_cases::{nodes_of, sequent_of};
use df_form::{Arena, Front, Node, NodeTable, Nodes, Over, Sequent};
use std::alloc::Global;

/// x <= 3 gives x + 1 <= 4.
const SEQUENT: &str = "x 3 le | x 1 plus 4 le";

/// The nodes of x 0, 3 1, x <= 3 2, 1 3, x + 1 4, 4 5, and x + 1 <= 4 6.
const NODES: &str = "x; 3; le 0 1; 1; plus 0 3; 4; le 4 5";

/// Whether both have the same node of this number.
fn is_same(nodes: &Front, wanted: &Nodes, number: usize) -> bool {
    let Some(node) = nodes.get(number) else {
        return false;
    };
    match wanted.get(number) {
        Some(other) => *node == *other,
        None => false,
    }
}

/// Whether each node stands at its number.
fn are_same(nodes: &Front, wanted: &Nodes) -> bool {
    for number in 0..wanted.len() {
        if !is_same(nodes, wanted, number) {
            return false;
        }
    }
    nodes.len() == wanted.len()
}

fn are_nodes(alloc: Global, nodes: &Front) -> bool {
    match nodes_of(alloc, NODES) {
        Ok(wanted) => are_same(nodes, &wanted),
        Err(_) => false,
    }
}

/// Whether the node 2 is the one hypothesis, and the node 6 the goal.
fn has_formulas(sequent: &Sequent) -> bool {
    sequent.hypotheses.as_slice() == [2].as_slice() && sequent.goal == 6
}

/// Whether the sequent has these nodes and formulas.
fn is_as_listed(alloc: Global, sequent: &Sequent) -> bool {
    are_nodes(alloc, &sequent.nodes) && has_formulas(sequent)
}

fn is_numbered(alloc: Global) -> bool {
    match sequent_of(alloc, SEQUENT) {
        Some(sequent) => is_as_listed(alloc, &sequent),
        None => false,
    }
}

#[test]
fn numbers_nodes_in_postorder_of_first_occurrence(rt: HostRuntime) {
    assert!(rt; is_numbered(rt.alloc()));
}

/// Whether a node gets this number, and is found there.
fn is_added(nodes: &mut Over, number: usize, node: &Node) -> bool {
    let parts = node.parts.as_slice();
    nodes.admits(node.op, parts)
        && nodes.add(node.op, parts).ok() == Some(number)
        && nodes.find(&node.op, parts) == Some(number)
}

/// Whether the node of this number is this one.
fn is_read(nodes: &Over, number: usize, node: &Node) -> bool {
    number < nodes.len()
        && *nodes.op(number) == node.op
        && nodes.parts(number) == node.parts.as_slice()
}

/// Whether nodes get their numbers once more.
fn are_added(nodes: &mut Over, wanted: &Nodes) -> bool {
    for number in 0..wanted.len() {
        let Some(node) = wanted.get(number) else {
            return false;
        };
        if !is_added(nodes, number, node) || !is_read(nodes, number, node) {
            return false;
        }
    }
    true
}

/// Whether the nodes get their numbers beside the first three, which are lent.
fn are_added_on(alloc: Global, wanted: &Nodes) -> bool {
    if wanted.len() < 3 {
        return false;
    }
    let mut nodes = Over::first(alloc, wanted, 3);
    are_added(&mut nodes, wanted)
}

fn are_numbered_on(alloc: Global) -> bool {
    match nodes_of(alloc, NODES) {
        Ok(wanted) => are_added_on(alloc, &wanted),
        Err(_) => false,
    }
}

#[test]
fn numbers_nodes_on(rt: HostRuntime) {
    assert!(rt; are_numbered_on(rt.alloc()));
}
