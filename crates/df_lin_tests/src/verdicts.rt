//! Verdicts of linear arithmetic on rows, and sums of rows by factors at the ends of 128 bits.

use crate::expecting::expect;
use df_cases::{Sparse, Sum, combinations, row, rows};
use df_form::Combination;
use df_level::Row;
use df_lin::{Chain, Point, RowFault, Valuation, Verdict, refute};
use std::alloc::Global;

const MAX: i128 = i128::MAX;

const MIN: i128 = i128::MIN;

/// A number, a factor, and the product, where it has 128 bits.
const PRODUCTS: [(i128, i128, Option<i128>); 16] = [
    (MIN, MIN, None),
    (MIN, -1, None),
    (MIN, 0, Some(0)),
    (MIN, MAX, None),
    (-1, MIN, None),
    (-1, -1, Some(1)),
    (-1, 0, Some(0)),
    (-1, MAX, Some(MIN + 1)),
    (0, MIN, Some(0)),
    (0, -1, Some(0)),
    (0, 0, Some(0)),
    (0, MAX, Some(0)),
    (MAX, MIN, None),
    (MAX, -1, Some(MIN + 1)),
    (MAX, 0, Some(0)),
    (MAX, MAX, None),
];

/// Two numbers with their factors, and the sum of the products, where it has 128 bits.
const SUMS: [(i128, i128, i128, i128, Option<i128>); 8] = [
    (MIN, MIN, MIN, MAX, None),
    (MAX, MIN, MAX, MAX, Some(MIN + 1)),
    (MIN, MIN, MAX, MIN, None),
    (MIN, -1, -1, MAX, Some(1)),
    (MIN, -1, MAX, -1, Some(1)),
    (MAX, MAX, MAX, MIN, Some(MIN + 1)),
    (MIN, 0, MAX, 0, Some(0)),
    (-1, MIN, MAX, -1, Some(1)),
];

/// The number as a coefficient, and as the constant.
fn twice(alloc: Global, number: i128) -> Option<Row> {
    if number == 0 {
        row(alloc, (&[], 0))
    } else {
        row(alloc, (&[(3, number)], number))
    }
}

fn is_twice(alloc: Global, found: &Row, number: i128) -> bool {
    match twice(alloc, number) {
        Some(wanted) => *found == wanted,
        None => false,
    }
}

/// Whether a sum is the one of this number.
fn is_sum(alloc: Global, sum: &Result<Row, RowFault>, number: Option<i128>) -> bool {
    match sum {
        Ok(sum) => match number {
            Some(number) => is_twice(alloc, sum, number),
            None => false,
        },
        Err(fault) => number.is_none() && matches!(fault, RowFault::Wide),
    }
}

/// A number and its factor.
type Weighted = (i128, i128);

/// Whether two numbers by their factors have this sum.
fn has_sum(alloc: Global, first: Weighted, second: Weighted, sum: Option<i128>) -> Option<bool> {
    let one = twice(alloc, first.0)?;
    let other = twice(alloc, second.0)?;
    let found = one.combine(alloc, first.1, &other, second.1);
    Some(is_sum(alloc, &found, sum))
}

#[test]
fn adds_products_at_the_ends(rt: HostRuntime) {
    for (number, (first, factor, product)) in PRODUCTS.iter().enumerate() {
        let given = (*first, *factor);
        let found = has_sum(rt.alloc(), given, (0, MAX), *product);
        let turned = has_sum(rt.alloc(), (0, MIN), given, *product);
        expect(&rt, number, found == Some(true) && turned == Some(true));
    }
}

#[test]
fn adds_sums_of_products_at_the_ends(rt: HostRuntime) {
    for (number, (first, factor, second, other_factor, sum)) in SUMS.iter().enumerate() {
        let one = (*first, *factor);
        let other = (*second, *other_factor);
        let found = has_sum(rt.alloc(), one, other, *sum);
        let turned = has_sum(rt.alloc(), other, one, *sum);
        expect(&rt, number, found == Some(true) && turned == Some(true));
    }
}

/// The verdict on rows.
fn verdict(alloc: Global, given: &[Sparse]) -> Option<Verdict> {
    let rows = rows(alloc, given)?;
    refute(alloc, &rows).ok()
}

/// Rows that refute themselves, and by which multipliers.
const REFUTED: [(&[Sparse], &[Sum]); 3] = [
    (&[(&[], -1)], &[(1, &[(1, 0)]), (1, &[(1, 1)])]),
    // 2 * x >= 1 and 2 * x <= 1
    (
        &[(&[(0, 2)], -1), (&[(0, -2)], 1)],
        &[
            (2, &[(1, 0)]),
            (2, &[(1, 1)]),
            (1, &[(1, 2), (1, 3)]),
            (1, &[(1, 4)]),
        ],
    ),
    // 3 * x >= y, 2 * x <= y - 2 and y <= 5; z >= 0 is not needed
    (
        &[
            (&[(7, 1)], 0),
            (&[(0, 3), (1, -1)], 0),
            (&[(0, -2), (1, 1)], -2),
            (&[(1, -1)], 5),
        ],
        &[
            (1, &[(1, 1)]),
            (1, &[(1, 2)]),
            (1, &[(1, 3)]),
            (1, &[(2, 4), (3, 5)]),
            (1, &[(1, 6)]),
            (1, &[(1, 7), (1, 8)]),
            (1, &[(1, 9)]),
        ],
    ),
];

pub(crate) fn are_equal(found: &[Combination], wanted: &[Combination]) -> bool {
    if found.len() != wanted.len() {
        return false;
    }
    for (one, other) in found.iter().zip(wanted) {
        if one.divisor != other.divisor || one.members != other.members {
            return false;
        }
    }
    true
}

fn is_refutation(verdict: &Verdict, wanted: &[Combination]) -> bool {
    match verdict {
        Verdict::Refuted(found) => are_equal(&found.combinations, wanted),
        _ => false,
    }
}

fn is_refuted(alloc: Global, given: &[Sparse], wanted: &[Combination]) -> bool {
    match verdict(alloc, given) {
        Some(verdict) => is_refutation(&verdict, wanted),
        None => false,
    }
}

/// Whether rows refute themselves by these multipliers.
fn are_refuted(alloc: Global, given: &[Sparse], wanted: &[Sum]) -> bool {
    match combinations(alloc, wanted) {
        Some(wanted) => is_refuted(alloc, given, &wanted),
        None => false,
    }
}

#[test]
fn tells_of_rows_that_refute_themselves(rt: HostRuntime) {
    for (number, (given, wanted)) in REFUTED.iter().enumerate() {
        expect(&rt, number, are_refuted(rt.alloc(), *given, *wanted));
    }
}

/// Nodes with their numbers.
type Numbers<'a> = &'a [(usize, i128)];

fn has_numbers(point: &Point, numbers: Numbers) -> bool {
    for &(node, number) in numbers {
        if point.number(node) != number {
            return false;
        }
    }
    true
}

/// Rows, and the numbers nearest 0 that meet them.
const POINTS: [(&[Sparse], Numbers); 5] = [
    (&[], &[(0, 0), (usize::MAX, 0)]),
    // -1 <= x, x + y <= 5 and -3 <= y
    (
        &[(&[(0, 1)], 1), (&[(0, -1), (1, -1)], 5), (&[(1, 1)], 3)],
        &[(0, 0), (1, 0)],
    ),
    // 3 <= x, x + y <= 10 and y <= -2
    (
        &[(&[(0, 1)], -3), (&[(0, -1), (1, -1)], 10), (&[(1, -1)], -2)],
        &[(0, 3), (1, -2), (2, 0)],
    ),
    // 2 * x <= -5, and 7 <= z, far apart
    (
        &[(&[(9, -2)], -5), (&[(usize::MAX, 1)], -7)],
        &[(9, -3), (usize::MAX, 7), (10, 0)],
    ),
    // the ends of 128 bits
    (
        &[(&[(1, 1)], -MAX), (&[(2, -1)], MIN)],
        &[(1, MAX), (2, MIN)],
    ),
];

/// Whether a point has the numbers that it tells.
fn has_its_numbers(point: &Point) -> bool {
    for (node, number) in point.numbers() {
        if point.number(*node) != *number {
            return false;
        }
    }
    true
}

fn is_point(verdict: &Verdict, wanted: Numbers) -> bool {
    match verdict {
        Verdict::Point(point) => has_numbers(point, wanted) && has_its_numbers(point),
        _ => false,
    }
}

fn has_point(alloc: Global, given: &[Sparse], wanted: Numbers) -> bool {
    match verdict(alloc, given) {
        Some(verdict) => is_point(&verdict, wanted),
        None => false,
    }
}

#[test]
fn tells_of_points(rt: HostRuntime) {
    for (number, (given, wanted)) in POINTS.iter().enumerate() {
        expect(&rt, number, has_point(rt.alloc(), *given, *wanted));
    }
}

/// Rows by which a node lies strictly between the bound and the next number, and the numbers of the later
/// nodes.
const GAPS: [(&[Sparse], usize, i128, Numbers); 3] = [
    // 2 * x = y and y = 1
    (
        &[
            (&[(0, 2), (1, -1)], 0),
            (&[(0, -2), (1, 1)], 0),
            (&[(1, 1)], -1),
            (&[(1, -1)], 1),
        ],
        0,
        0,
        &[(1, 1)],
    ),
    // 2 * x = y and y = -1
    (
        &[
            (&[(0, 2), (1, -1)], 0),
            (&[(0, -2), (1, 1)], 0),
            (&[(1, 1)], 1),
            (&[(1, -1)], -1),
        ],
        0,
        -1,
        &[(1, -1)],
    ),
    // x >= 0, 3 * y = z and z = 5
    (
        &[
            (&[(0, 1)], 0),
            (&[(4, 3), (8, -1)], 0),
            (&[(4, -3), (8, 1)], 0),
            (&[(8, 1)], -5),
            (&[(8, -1)], 5),
        ],
        4,
        1,
        &[(8, 5), (0, 0)],
    ),
];

/// Whether the verdict is a gap at this node above this number, beside these numbers.
fn is_gap(verdict: &Verdict, wanted: usize, least: i128, numbers: Numbers) -> bool {
    match verdict {
        Verdict::Between { node, bound, point } => {
            *node == wanted && *bound == least && has_numbers(point, numbers)
        }
        _ => false,
    }
}

/// Whether rows have such a gap.
fn has_gap(alloc: Global, given: &[Sparse], wanted: usize, least: i128, numbers: Numbers) -> bool {
    match verdict(alloc, given) {
        Some(verdict) => is_gap(&verdict, wanted, least, numbers),
        None => false,
    }
}

#[test]
fn tells_of_gaps_between_numbers(rt: HostRuntime) {
    for (number, (given, wanted, least, numbers)) in GAPS.iter().enumerate() {
        let found = has_gap(rt.alloc(), *given, *wanted, *least, *numbers);
        expect(&rt, number, found);
    }
}

/// Rows on the way to whose levels a number is past 128 bits: a divisor, or a number of a sum.
const WIDE: [&[Sparse]; 2] = [
    &[(&[(0, MIN)], 0)],
    &[(&[(0, MAX), (1, 1)], 0), (&[(0, 1 - MAX), (1, 1)], 0)],
];

/// Rows whose levels fit, but not the bound that one sets a node beside the numbers of the later ones.
const WIDE_BOUNDS: [(&[Sparse], usize, Numbers); 2] = [
    // y + 1 <= x and the greatest number <= y
    (
        &[(&[(0, 1), (1, -1)], -1), (&[(1, 1)], -MAX)],
        0,
        &[(1, MAX)],
    ),
    // 2 * y <= x
    (
        &[(&[(0, 1), (1, -2)], 0), (&[(1, 1)], -MAX)],
        0,
        &[(1, MAX)],
    ),
];

fn is_wide_level(verdict: &Verdict) -> bool {
    match verdict {
        Verdict::Wide(Chain::Elimination) => true,
        _ => false,
    }
}

fn has_wide_level(alloc: Global, given: &[Sparse]) -> bool {
    match verdict(alloc, given) {
        Some(verdict) => is_wide_level(&verdict),
        None => false,
    }
}

#[test]
fn tells_of_levels_past_128_bits(rt: HostRuntime) {
    for (number, given) in WIDE.iter().enumerate() {
        expect(&rt, number, has_wide_level(rt.alloc(), *given));
    }
}

/// Whether the verdict is that this node has a bound that is too wide, beside these numbers.
fn is_wide_bound(verdict: &Verdict, wanted: usize, numbers: Numbers) -> bool {
    match verdict {
        Verdict::Wide(Chain::Substitution { node, point }) => {
            *node == wanted && has_numbers(point, numbers)
        }
        _ => false,
    }
}

fn has_wide_bound(alloc: Global, given: &[Sparse], wanted: usize, numbers: Numbers) -> bool {
    match verdict(alloc, given) {
        Some(verdict) => is_wide_bound(&verdict, wanted, numbers),
        None => false,
    }
}

#[test]
fn tells_of_bounds_past_128_bits(rt: HostRuntime) {
    for (number, (given, wanted, numbers)) in WIDE_BOUNDS.iter().enumerate() {
        let found = has_wide_bound(rt.alloc(), *given, *wanted, *numbers);
        expect(&rt, number, found);
    }
}

/// How many rows bound the number from below,
const LOWER_COUNT: u16 = 225;

/// and how many from above.
const UPPER_COUNT: u16 = 223;

/// Adds a row of one number.
fn add_bound(alloc: Global, given: &mut Vec<Row>, coefficient: i128, constant: i128) -> bool {
    match row(alloc, (&[(0, coefficient)], constant)) {
        Some(row) => given.push(row).is_ok(),
        None => false,
    }
}

/// Adds rows of one number, so many, whose constants are so far apart.
fn add_bounds(
    alloc: Global,
    given: &mut Vec<Row>,
    count: u16,
    coefficient: i128,
    distance: i128,
) -> bool {
    for number in 0..count {
        let constant = i128::from(number).saturating_mul(distance);
        if !add_bound(alloc, given, coefficient, constant) {
            return false;
        }
    }
    true
}

/// Whether the verdict is that there are too many rows on the way: 50,000 of them.
fn is_many(verdict: &Verdict) -> bool {
    match verdict {
        Verdict::Many(50_000) => true,
        _ => false,
    }
}

pub(crate) fn are_many(alloc: Global, given: &[Row]) -> bool {
    match refute(alloc, given) {
        Ok(verdict) => is_many(&verdict),
        Err(_) => false,
    }
}

/// Each of the 225 rows 0 <= x + i and each of the 223 rows 0 <= 1000 * j - x give the row 0 <= i + 1000 * j. No two
/// of these 50,175 rows are equal, and none is false.
#[test]
fn tells_of_too_many_rows(rt: HostRuntime) {
    let mut given = Vec::new(rt.alloc());
    assert!(rt; add_bounds(rt.alloc(), &mut given, LOWER_COUNT, 1, 1));
    assert!(rt; add_bounds(rt.alloc(), &mut given, UPPER_COUNT, -1, 1000));
    assert!(rt; are_many(rt.alloc(), &given));
}
