//! What nodes are found by.

use crate::node::Op;

/// What a node is found by: its operation, and the number of the list of its parts.
#[derive(Clone, Copy, PartialEq, Eq, Hash)]
pub(crate) struct Key {
    pub op: Op,
    pub list: usize,
}
