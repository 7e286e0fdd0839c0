//! What nodes are: equalities with their sides, and numbers.

ghost use Rattle.std.specs.Prelude.{◌≡◌, ◌<◌, length, IfSome};
ghost use Rattle.df_rules.specs.Congruence.{equality};
ghost use Rattle.df_rules.specs.CongruenceLine.{number_at};
ghost use Rattle.df_classes.specs.mirror.State.{label_of};
ghost use Rattle.df_classes.specs.mirror.Clash.{is_denied as is_denied_in};
ghost use Rattle.df_classes.specs.PartitionView.{state_of};

use crate::partition::Partition;
use df_form::{Lit, NodeTable, Op, Over, Pair};

/// The sides of a node that is an equality; no other node has any.
pub fn sides(nodes: &Over, number: usize) -> Option<Pair>
    ensures sides { result ≡ equality nodes.now number }
    ensures left { IfSome result (λ pair. pair.left < length nodes.now) }
    ensures right { IfSome result (λ pair. pair.right < length nodes.now) }
{
    let node = nodes.get(number)?;
    match (node.op, node.parts.as_slice()) {
        (Op::Equal, [left, right]) => Some(Pair {
            left: *left,
            right: *right,
        }),
        _ => None,
    }
}

/// The number that a node is, where it is one.
pub fn number(nodes: &Over, node: usize) -> Option<i128>
    ensures { result ≡ number_at nodes.now node }
{
    match nodes.get(node)?.op {
        Op::Number(k) => Some(k),
        _ => None,
    }
}

/// Whether a literal denies an equality whose sides have one label.
pub fn is_denied(nodes: &Over, partition: &Partition, literal: Lit) -> bool
    ensures { result ≡ is_denied_in nodes.now (label_of (state_of partition.now)) literal }
{
    if literal.positive {
        return false;
    }
    match sides(nodes, literal.node) {
        Some(pair) => partition.label(pair.left) == partition.label(pair.right),
        None => false,
    }
}
