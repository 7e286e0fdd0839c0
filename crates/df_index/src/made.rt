//! Nodes that clauses may make.

use df_form::{Front, NodeTable, Op, Sort};

/// A node that clauses may make.
#[derive(Clone, Copy, PartialEq, Eq, Hash)]
pub enum Made {
    Number(i128),
    One(Op, usize),
    Two(Op, usize, usize),
}

impl Made {
    /// The node `a <= b`.
    pub fn at_most(a: usize, b: usize) -> Made {
        Made::Two(Op::AtMost, a, b)
    }

    pub fn op(self) -> Op {
        match self {
            Made::Number(number) => Op::Number(number),
            Made::One(op, _) | Made::Two(op, _, _) => op,
        }
    }

    pub fn part(self, place: usize) -> Option<usize> {
        match (self, place) {
            (Made::One(_, part), 0) => Some(part),
            (Made::Two(_, left, _), 0) => Some(left),
            (Made::Two(_, _, right), 1) => Some(right),
            _ => None,
        }
    }

    pub fn part_count(self) -> usize {
        match self {
            Made::Number(_) => 0,
            Made::One(..) => 1,
            Made::Two(..) => 2,
        }
    }
}

/// What the node of a number is, where clauses could make one like it.
pub(crate) fn made_like(nodes: &Front, number: usize) -> Option<Made> {
    let node = nodes.get(number)?;
    match (node.op, node.parts.as_slice()) {
        (Op::Number(number), _) => Some(Made::Number(number)),
        (op, [a]) => Some(Made::One(op, *a)),
        (op, [a, b]) => Some(Made::Two(op, *a, *b)),
        _ => None,
    }
}

fn is_literal(nodes: &Front, number: usize) -> bool {
    match nodes.get(number) {
        Some(node) => matches!(node.op, Op::Number(_)),
        None => false,
    }
}

/// Whether the node is a product, a character, or what a symbol gives that is no formula.
pub(crate) fn is_operation(nodes: &Front, number: usize) -> bool {
    let Some(node) = nodes.get(number) else {
        return false;
    };
    match (node.op, node.parts.as_slice()) {
        (Op::Times, [factor, _]) => !is_literal(nodes, *factor),
        (Op::Times, _) => true,
        (Op::Of(_, _), _) => node.op.sort() != Sort::Truth,
        (op, _) => op.sort() == Sort::Character,
    }
}
