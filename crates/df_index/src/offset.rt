//! Sums of a node and a number: a chain of them is one such sum.

use df_form::{Front, NodeTable, Op};

/// What a node is: another one and so much more, or a number where there is no other.
#[derive(Clone, Copy)]
pub struct Offset {
    pub base: Option<usize>,
    pub constant: i128,
}

/// The node itself.
fn itself(number: usize) -> Offset {
    Offset {
        base: Some(number),
        constant: 0,
    }
}

/// What a node is, by what those before it are.
pub(crate) fn offset_at(offsets: &[Offset], number: usize) -> Offset {
    match offsets.get(number) {
        Some(offset) => *offset,
        None => itself(number),
    }
}

/// What a sum of two is, where one of them is a number.
fn sum(left: Offset, right: Offset) -> Option<Offset> {
    let base = match (left.base, right.base) {
        (base, None) => base,
        (None, Some(base)) => Some(base),
        (Some(_), Some(_)) => return None,
    };
    Some(Offset {
        base,
        constant: left.constant.checked_add(right.constant)?,
    })
}

/// What a multiple of a number is.
fn multiple(factor: i128, number: Offset) -> Option<Offset> {
    match number.base {
        None => Some(Offset {
            base: None,
            constant: factor.checked_mul(number.constant)?,
        }),
        Some(_) => None,
    }
}

/// The number of a literal.
fn literal(nodes: &Front, number: usize) -> Option<i128> {
    match nodes.get(number)?.op {
        Op::Number(number) => Some(number),
        _ => None,
    }
}

/// What the node of a number is, by what those before it are.
pub(crate) fn offset_of(nodes: &Front, offsets: &[Offset], number: usize) -> Offset {
    let Some(node) = nodes.get(number) else {
        return itself(number);
    };
    let found = match (node.op, node.parts.as_slice()) {
        (Op::Number(constant), _) => Some(Offset {
            base: None,
            constant,
        }),
        (Op::Plus, [a, b]) => sum(offset_at(offsets, *a), offset_at(offsets, *b)),
        (Op::Times, [a, b]) => match literal(nodes, *a) {
            Some(factor) => multiple(factor, offset_at(offsets, *b)),
            None => None,
        },
        _ => None,
    };
    match found {
        Some(offset) => offset,
        None => itself(number),
    }
}
