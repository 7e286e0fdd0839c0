//! Sparse rows and levels of rows.

use crate::expecting::expect;
use crate::verdicts::are_equal;
use df_cases::{Sparse, Sum, combinations, nodes_of, row, rows};
use df_form::{Combination, Lit, Over};
use df_level::{Level, LevelFault, Row, RowFault};
use df_row::rows_of_literals;
use std::alloc::Global;
use std::test::Fail;

const MAX: i128 = i128::MAX;

const MIN: i128 = i128::MIN;

/// Two rows with their factors, and the sum, where it has 128 bits.
const SUMS: [(Sparse, i128, Sparse, i128, Option<Sparse>); 11] = [
    (
        (&[(0, 1), (1, 2)], 3),
        2,
        (&[(1, -4), (2, 1)], -6),
        1,
        Some((&[(0, 2), (2, 1)], 0)),
    ),
    (
        (&[(3, 1)], 0),
        1,
        (&[(1, 1)], 0),
        1,
        Some((&[(1, 1), (3, 1)], 0)),
    ),
    ((&[(3, 5)], 7), 0, (&[(1, 1)], 2), 3, Some((&[(1, 3)], 6))),
    ((&[], 0), 1, (&[], 0), 1, Some((&[], 0))),
    // at the ends of 128 bits
    ((&[(0, MAX)], 0), 1, (&[(0, 1)], 0), 1, None),
    ((&[], MAX), 1, (&[], 1), 1, None),
    ((&[(0, MIN)], MIN), 1, (&[], 0), 0, Some((&[(0, MIN)], MIN))),
    ((&[(0, MIN)], 0), -1, (&[], 0), 0, None),
    // products past 128 bits
    (
        (&[(0, MAX)], MAX),
        2,
        (&[(0, MAX)], MAX),
        -2,
        Some((&[], 0)),
    ),
    (
        (&[(0, MIN)], MIN),
        -1,
        (&[(0, -1)], -1),
        1,
        Some((&[(0, MAX)], MAX)),
    ),
    (
        (&[(0, MIN)], 0),
        MAX,
        (&[(0, MAX)], 0),
        MAX,
        Some((&[(0, -MAX)], 0)),
    ),
];

/// Whether a row is the one that is wanted.
fn is_row(alloc: Global, found: &Row, wanted: Sparse) -> bool {
    match row(alloc, wanted) {
        Some(wanted) => *found == wanted,
        None => false,
    }
}

/// Whether a sum is the one that is wanted, or past 128 bits where there is none.
fn is_sum(alloc: Global, found: &Result<Row, RowFault>, wanted: Option<Sparse>) -> bool {
    match found {
        Ok(found) => match wanted {
            Some(wanted) => is_row(alloc, found, wanted),
            None => false,
        },
        Err(fault) => wanted.is_none() && matches!(fault, RowFault::Wide),
    }
}

/// A row and its factor.
type Weighted<'a> = (Sparse<'a>, i128);

/// Whether two rows by their factors have this sum.
fn has_sum(alloc: Global, one: Weighted, other: Weighted, sum: Option<Sparse>) -> Option<bool> {
    let first = row(alloc, one.0)?;
    let second = row(alloc, other.0)?;
    let found = first.combine(alloc, one.1, &second, other.1);
    Some(is_sum(alloc, &found, sum))
}

#[test]
fn adds_rows_by_factors(rt: HostRuntime) {
    for (number, (first, factor, second, other_factor, sum)) in SUMS.iter().enumerate() {
        let one = (*first, *factor);
        let other = (*second, *other_factor);
        expect(
            &rt,
            number,
            has_sum(rt.alloc(), one, other, *sum) == Some(true),
        );
    }
}

/// Rows, and what they are divided.
const QUOTIENTS: [(Sparse, Sparse); 7] = [
    ((&[(0, 4), (1, -6)], 7), (&[(0, 2), (1, -3)], 3)),
    ((&[(0, 4), (1, -6)], -7), (&[(0, 2), (1, -3)], -4)),
    ((&[(5, -2)], 7), (&[(5, -1)], 3)),
    ((&[(0, 2), (1, 3)], 5), (&[(0, 2), (1, 3)], 5)),
    ((&[], -5), (&[], -5)),
    ((&[(0, MIN)], 1), (&[(0, -1)], 0)),
    ((&[(0, MIN)], -1), (&[(0, -1)], -1)),
];

/// Whether a row is divided to this one.
fn has_quotient(alloc: Global, given: &Row, quotient: Sparse) -> bool {
    match given.divided(alloc) {
        Ok(found) => is_row(alloc, &found, quotient),
        Err(_) => false,
    }
}

fn divides(alloc: Global, given: Sparse, quotient: Sparse) -> bool {
    match row(alloc, given) {
        Some(given) => has_quotient(alloc, &given, quotient),
        None => false,
    }
}

#[test]
fn divides_rows(rt: HostRuntime) {
    for (number, (given, quotient)) in QUOTIENTS.iter().enumerate() {
        expect(&rt, number, divides(rt.alloc(), *given, *quotient));
    }
}

/// 3: x + y <= x
const COMPARISON: &str = "x; y; plus 0 1; le 2 0";

/// Whether the comparison is true, and its row: -y, or y - 1.
const OF_LITERALS: [(bool, Sparse); 2] = [(true, (&[(1, -1)], 0)), (false, (&[(1, 1)], -1))];

/// Whether the kernel's row is this one.
fn is_kernel_row(alloc: Global, given: &df_row::Row, wanted: Sparse) -> bool {
    match Row::of(alloc, given) {
        Ok(found) => is_row(alloc, &found, wanted),
        Err(_) => false,
    }
}

/// Whether this row alone is there.
fn is_only(alloc: Global, rows: &[df_row::Row], wanted: Sparse) -> bool {
    match rows {
        [given] => is_kernel_row(alloc, given, wanted),
        _ => false,
    }
}

/// Whether the literals have this row alone.
fn have_row(alloc: Global, nodes: &Over, literals: &[Lit], wanted: Sparse) -> bool {
    match rows_of_literals(alloc, nodes, literals) {
        Ok(rows) => is_only(alloc, &rows, wanted),
        Err(_) => false,
    }
}

#[test]
fn takes_rows_of_literals(rt: HostRuntime) -> Result<(), Fail> {
    let nodes = nodes_of(rt.alloc(), COMPARISON)?;
    let nodes = Over::new(rt.alloc(), &nodes);
    for (positive, wanted) in OF_LITERALS {
        let literals = [Lit { positive, node: 3 }];
        assert!(rt; have_row(rt.alloc(), &nodes, &literals, wanted));
    }
    Ok(())
}

/// The entries of a row.
const ENTRIES: [(usize, i128); 2] = [(2, 7), (usize::MAX, -1)];

/// Whether the row is 7 times the node 2, less the last node, and 9.
fn has_entries(row: &Row) -> bool {
    row.entries() == ENTRIES.as_slice()
        && row.coefficient(2) == 7
        && row.coefficient(3) == 0
        && row.coefficient(usize::MAX) == -1
        && row.constant() == 9
}

fn is_copied(alloc: Global, given: &Row) -> bool {
    match given.copy(alloc) {
        Ok(copy) => has_entries(&copy),
        Err(_) => false,
    }
}

fn copies(alloc: Global, given: Sparse) -> bool {
    match row(alloc, given) {
        Some(given) => is_copied(alloc, &given),
        None => false,
    }
}

#[test]
fn copies_rows(rt: HostRuntime) {
    assert!(rt; copies(rt.alloc(), (&ENTRIES, 9)));
}

/// Rows, and whether they are 0 <= c for a c below 0.
const FALSE: [(Sparse, bool); 5] = [
    ((&[], -1), true),
    ((&[], MIN), true),
    ((&[], 0), false),
    ((&[], MAX), false),
    ((&[(0, 1)], -1), false),
];

/// Whether a row is so.
fn is_false_row(alloc: Global, given: Sparse, is_false: bool) -> bool {
    match row(alloc, given) {
        Some(given) => given.is_false() == is_false,
        None => false,
    }
}

#[test]
fn tells_of_false_rows(rt: HostRuntime) {
    for (number, (given, is_false)) in FALSE.iter().enumerate() {
        expect(&rt, number, is_false_row(rt.alloc(), *given, *is_false));
    }
}

/// Entries whose nodes don't ascend, or of coefficient 0.
const UNORDERED: [&[(usize, i128)]; 3] = [&[(1, 1), (1, 2)], &[(2, 1), (1, 1)], &[(0, 0)]];

/// Whether entries are refused.
fn are_unordered(alloc: Global, entries: &[(usize, i128)]) -> bool {
    match Vec::from_slice(alloc, entries) {
        Ok(entries) => Row::new(entries, 0).is_none(),
        Err(_) => false,
    }
}

#[test]
fn takes_entries_in_order(rt: HostRuntime) {
    for (number, entries) in UNORDERED.iter().enumerate() {
        expect(&rt, number, are_unordered(rt.alloc(), *entries));
    }
}

/// Rows, how many nodes are eliminated, from 0, and the rows of the level after that.
const LEVELS: [(&[Sparse], usize, &[Sparse]); 8] = [
    // x + x <= 7 and x >= 4
    (
        &[(&[(0, -2)], 7), (&[(0, 1)], -4)],
        0,
        &[(&[(0, -1)], 3), (&[(0, 1)], -4)],
    ),
    (&[(&[(0, -2)], 7), (&[(0, 1)], -4)], 1, &[(&[], -1)]),
    // x <= y <= z < x
    (
        &[
            (&[(0, -1), (1, 1)], 0),
            (&[(1, -1), (2, 1)], 0),
            (&[(0, 1), (2, -1)], -1),
        ],
        1,
        &[(&[(1, -1), (2, 1)], 0), (&[(1, 1), (2, -1)], -1)],
    ),
    (
        &[
            (&[(0, -1), (1, 1)], 0),
            (&[(1, -1), (2, 1)], 0),
            (&[(0, 1), (2, -1)], -1),
        ],
        2,
        &[(&[], -1)],
    ),
    // least factors
    (
        &[(&[(0, 4), (1, 1)], 0), (&[(0, -6), (1, 1)], 0)],
        1,
        &[(&[(1, 1)], 0)],
    ),
    // equal rows once
    (&[(&[(1, 2)], 3), (&[(1, 1)], 1)], 0, &[(&[(1, 1)], 1)]),
    (
        &[
            (&[(0, 1)], 2),
            (&[(0, 1)], 3),
            (&[(0, -1)], 1),
            (&[(0, -1)], 0),
        ],
        1,
        &[(&[], 3), (&[], 2), (&[], 4)],
    ),
    (&[(&[(0, 1)], 5)], 1, &[]),
];

/// The level after a node is eliminated.
fn next(alloc: Global, level: &Option<Level>, node: usize) -> Option<Level> {
    match level {
        Some(level) => level.next(alloc, node).ok(),
        None => None,
    }
}

/// The level after so many nodes are eliminated from the first one, from 0.
fn level_after(alloc: Global, given: &[Row], count: usize) -> Option<Level> {
    let mut level = Level::first(alloc, given).ok();
    for node in 0..count {
        level = next(alloc, &level, node);
    }
    level
}

/// Whether the level after so many nodes has these rows, in this order.
fn has_rows(alloc: Global, given: &[Row], count: usize, wanted: &[Row]) -> bool {
    match level_after(alloc, given, count) {
        Some(level) => level.rows() == wanted,
        None => false,
    }
}

fn leaves(alloc: Global, given: &[Sparse], count: usize, wanted: &[Sparse]) -> Option<bool> {
    let given = rows(alloc, given)?;
    let wanted = rows(alloc, wanted)?;
    Some(has_rows(alloc, &given, count, &wanted))
}

#[test]
fn eliminates_nodes(rt: HostRuntime) {
    for (number, (given, count, wanted)) in LEVELS.iter().enumerate() {
        let found = leaves(rt.alloc(), *given, *count, *wanted);
        expect(&rt, number, found == Some(true));
    }
}

/// Rows, how many nodes are eliminated, from 0, how each row of the level after that comes of those before, and the
/// number of one that is 0 <= c for a c below 0.
type Way<'a> = (&'a [Sparse<'a>], usize, &'a [Sum<'a>], Option<usize>);

const WAYS: [Way; 5] = [
    // x + x <= 7 and x >= 4
    (
        &[(&[(0, -2)], 7), (&[(0, 1)], -4)],
        0,
        &[(2, &[(1, 0)]), (1, &[(1, 1)])],
        None,
    ),
    (
        &[(&[(0, -2)], 7), (&[(0, 1)], -4)],
        1,
        &[(1, &[(1, 1), (1, 0)])],
        Some(0),
    ),
    // 2 * x + y >= 0, -3 * x + 5 * y >= 0, and 4 * y - 2 >= 0, which stays
    (
        &[
            (&[(0, 2), (1, 1)], 0),
            (&[(0, -3), (1, 5)], 0),
            (&[(1, 4)], -2),
        ],
        1,
        &[(13, &[(3, 0), (2, 1)]), (1, &[(1, 2)])],
        None,
    ),
    // equal rows once, by the first way
    (
        &[(&[(1, 2)], 3), (&[(1, 1)], 1)],
        0,
        &[(2, &[(1, 0)])],
        None,
    ),
    (
        &[(&[], 2), (&[], -2), (&[], -3)],
        0,
        &[(1, &[(1, 0)]), (1, &[(1, 1)]), (1, &[(1, 2)])],
        Some(1),
    ),
];

/// Whether the rows of the level come so, and whether this is the first false one.
fn has_ways(level: &Level, ways: &[Combination], false_row: Option<usize>) -> bool {
    are_equal(level.ways(), ways)
        && level.false_row() == false_row
        && level.has_false() == false_row.is_some()
}

/// Whether the level after so many nodes is so.
fn comes_by(
    alloc: Global,
    given: &[Row],
    count: usize,
    ways: &[Combination],
    false_row: Option<usize>,
) -> bool {
    match level_after(alloc, given, count) {
        Some(level) => has_ways(&level, ways, false_row),
        None => false,
    }
}

fn has_way(alloc: Global, way: Way) -> Option<bool> {
    let (given, count, ways, false_row) = way;
    let given = rows(alloc, given)?;
    let ways = combinations(alloc, ways)?;
    Some(comes_by(alloc, &given, count, &ways, false_row))
}

#[test]
fn tells_of_ways_and_false_rows(rt: HostRuntime) {
    for (number, way) in WAYS.iter().enumerate() {
        expect(&rt, number, has_way(rt.alloc(), *way) == Some(true));
    }
}

/// Rows whose sum without the node 0 would be too wide.
const WIDE: [Sparse; 2] = [(&[(0, MAX), (1, 1)], 0), (&[(0, 1 - MAX), (1, 1)], 0)];

/// Whether the next level without the node would be too wide.
fn is_wide(alloc: Global, level: &Level, node: usize) -> bool {
    matches!(level.next(alloc, node), Err(LevelFault::Wide))
}

/// Whether the next level has so many rows.
fn has_count(alloc: Global, level: &Level, node: usize, count: usize) -> bool {
    match level.next(alloc, node) {
        Ok(next) => next.rows().len() == count,
        Err(_) => false,
    }
}

/// Whether the sum is too wide without the node 0, and both rows stay without the node 2.
fn is_wide_at_first(alloc: Global, given: &[Row]) -> bool {
    match Level::first(alloc, given) {
        Ok(level) => is_wide(alloc, &level, 0) && has_count(alloc, &level, 2, 2),
        Err(_) => false,
    }
}

fn are_wide(alloc: Global, given: &[Sparse]) -> bool {
    match rows(alloc, given) {
        Some(given) => is_wide_at_first(alloc, &given),
        None => false,
    }
}

#[test]
fn tells_of_sums_past_128_bits(rt: HostRuntime) {
    assert!(rt; are_wide(rt.alloc(), &WIDE));
}
