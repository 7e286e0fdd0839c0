//! How wide nodes are as sums.

use df_form::{Front, NodeTable, Op};

/// The width of a node, by those of the nodes before it.
pub(crate) fn width_at(widths: &[usize], number: usize) -> usize {
    match widths.get(number) {
        Some(width) => *width,
        None => 0,
    }
}

/// The greatest width of some nodes.
fn widest(widths: &[usize], numbers: &[usize]) -> usize {
    let mut width = 0usize;
    for number in numbers {
        width = width.max(width_at(widths, *number));
    }
    width
}

/// How many members a number has as a sum, or what a comparison compares, at most; any other node is as wide as its widest
/// part.
pub(crate) fn width_of(nodes: &Front, widths: &[usize], number: usize) -> usize {
    let Some(node) = nodes.get(number) else {
        return 0;
    };
    match (node.op, node.parts.as_slice()) {
        (Op::Number(_), _) => 0,
        (Op::Plus | Op::AtMost | Op::Equal, [a, b]) => {
            width_at(widths, *a).saturating_add(width_at(widths, *b))
        }
        (_, parts) => widest(widths, parts).max(1),
    }
}
