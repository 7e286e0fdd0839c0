//! What back substitution answers.

/// Numbers by node.
#[derive(Drop)]
pub enum Back {
    /// The number of each node below the count.
    Point(Vec<i128>),
    /// The rows allow the node only what lies strictly between the bound and the next number.
    Between { node: usize, bound: i128 },
    /// A number on the way is past 128 bits.
    Wide,
}
