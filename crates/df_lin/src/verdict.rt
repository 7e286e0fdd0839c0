//! What linear arithmetic says of rows.

use crate::chain::Chain;
use crate::multipliers::Multipliers;
use crate::point::Point;

/// What linear arithmetic says of rows.
#[derive(Drop)]
pub enum Verdict {
    /// The multipliers give 0 <= c for a c below 0: no whole numbers meet all rows.
    Refuted(Multipliers),
    /// The point meets all rows. From the last level back, each variable has the whole number nearest 0
    /// that the rows allow it beside the numbers of the later ones.
    Point(Point),
    /// The same ends at a node: beside the numbers of the later variables the rows allow it only what lies
    /// strictly between the bound and the next number.
    Between {
        node: usize,
        bound: i128,
        point: Point,
    },
    /// A number on the way is past 128 bits.
    Wide(Chain),
    /// A level of the rows comes to so many distinct rows.
    Many(u64),
}
