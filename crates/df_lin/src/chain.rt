//! Ways to numbers past 128 bits.

use crate::point::Point;

/// A way to a number past 128 bits.
#[derive(Drop)]
pub enum Chain {
    /// On the way to a level of the rows: what a row or a sum of two is divided by, a factor, or a number
    /// of a multiple or of a sum.
    Elimination,
    /// By the numbers of the variables behind the node: a number on the way to the bound that a row sets
    /// the node, or that bound.
    Substitution { node: usize, point: Point },
}
