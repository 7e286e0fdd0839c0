//! Intervals of whole numbers.

use crate::expecting::expect;
use df_lang::Interval;

/// The ends of intervals, a number, and whether it lies inside: none where the ends are turned.
const ROWS: [(i128, i128, i128, Option<bool>); 10] = [
    (-3, 4, -4, Some(false)),
    (-3, 4, -3, Some(true)),
    (-3, 4, 0, Some(true)),
    (-3, 4, 4, Some(true)),
    (-3, 4, 5, Some(false)),
    (7, 7, 7, Some(true)),
    (8, 7, 7, None),
    (i128::MIN, i128::MAX, i128::MIN, Some(true)),
    (i128::MIN, i128::MAX, i128::MAX, Some(true)),
    (i128::MAX, i128::MIN, 0, None),
];

/// Whether a number lies inside: none where the ends are turned.
fn inside(low: i128, high: i128, number: i128) -> Option<bool> {
    match Interval::new(low, high) {
        Some(interval) => Some(interval.holds(number)),
        None => None,
    }
}

#[test]
fn an_interval_holds_its_ends_and_nothing_beyond(rt: HostRuntime) {
    for (row, (low, high, number, holds)) in ROWS.iter().enumerate() {
        expect(&rt, row, inside(*low, *high, *number) == *holds);
    }
}
