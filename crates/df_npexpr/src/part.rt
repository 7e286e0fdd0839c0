//! Parts of an expression that were read.

use df_ntree::{Expr, Operation};

/// An expression, and how many expressions stand inside one another in it.
#[derive(Drop)]
pub(crate) struct Part {
    pub(crate) tree: Expr,
    pub(crate) height: usize,
}

/// Expressions and the largest height.
#[derive(Drop)]
pub(crate) struct Parts {
    pub(crate) trees: Vec<Expr>,
    pub(crate) height: usize,
}

/// An operation and the height of its operand.
#[derive(Drop)]
pub(crate) struct Found {
    pub(crate) operation: Operation,
    pub(crate) height: usize,
}

/// Operations and the largest height.
#[derive(Drop)]
pub(crate) struct Row {
    pub(crate) operations: Vec<Operation>,
    pub(crate) height: usize,
}
