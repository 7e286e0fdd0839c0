//! Kinds of values.

use df_lang::Interval;

/// Which numbers there may be.
#[derive(Clone, Copy, PartialEq, Eq)]
pub enum Range {
    /// Those of an interval.
    Between(Interval),
    /// All: they are of `int` or `nat`.
    Unbounded,
}

/// What stands at a place.
#[derive(Clone, Copy, PartialEq, Eq)]
pub enum Kind {
    /// A number of the range.
    Number(Range),
    Truth,
    Character,
}
