//! Typed expressions and operations.

use df_base::Pos;
use df_lang::{Expr, Ty};
use df_ntree as tree;
use df_ntree::BinaryOperator;

/// A typed expression, and its type.
#[derive(Drop)]
pub struct Typed {
    pub ty: Ty,
    pub expr: Expr,
}

/// A sign at `pos` and the operand after it: typed, unless it is made of literals alone.
#[derive(Drop)]
pub(crate) struct Row<'e> {
    pub(crate) operator: BinaryOperator,
    pub(crate) pos: Pos,
    pub(crate) operand: &'e tree::Expr,
    pub(crate) typed: Option<Typed>,
}

/// A sign at `pos`, and its typed right operand.
#[derive(Drop)]
pub(crate) struct Part {
    pub(crate) operator: BinaryOperator,
    pub(crate) pos: Pos,
    pub(crate) operand: Expr,
}
