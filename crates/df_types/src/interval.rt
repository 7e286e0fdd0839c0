//! Intervals of whole numbers.

ghost use Rattle.std.specs.Prelude.{◌≡◌, ◌&&◌, int_le, ◌≤ℤ◌, ◌↔◌, IsTrue, IsSome, IfSome};

/// The whole numbers from `low` to `high`, both inside.
#[derive(Clone, Copy, PartialEq, Eq)]
pub struct Interval {
    pub low: i128,
    pub high: i128,
    ghost is_ordered: { low ≤ℤ high },
}

impl Interval {
    ghost use Rattle.df_types.specs.Interval.{IsWithin};

    /// The interval between these ends, where `low <= high`.
    pub fn new(low: i128, high: i128) -> Option<Interval>
        ensures ordered { IsSome result ↔ (low ≤ℤ high) }
        ensures ends { IfSome result (λ interval. (interval.low ≡ low) × (interval.high ≡ high)) }
    {
        if low <= high {
            Some(Interval { low, high })
        } else {
            None
        }
    }

    /// Whether the number lies in the interval.
    pub fn holds(&self, number: i128) -> bool
        ensures within { IsTrue result ↔ IsWithin self.now.low self.now.high number }
        ensures test { result ≡ (int_le self.now.low number && int_le number self.now.high) }
    {
        self.low <= number && number <= self.high
    }
}
