//! Elimination of variables, the combinations by which it refutes rows, and numbers for the variables.

ghost use Rattle.std.specs.Prelude.{◌≡◌, true};
ghost use Rattle.df_level.specs.Row.{function_row};
ghost use Rattle.df_level.specs.Levels.{rows_of};
ghost use Rattle.df_back.specs.Ranges.{AreInside};
ghost use Rattle.df_row.specs.RowView.{IsWithin};

use crate::expecting::expect;
use crate::verdicts::{are_equal, are_many};
use df_back::{Back, back};
use df_cases::{Sparse, Sum, combinations, row, rows};
use df_elim::{Elimination, eliminate};
use df_form::Combination;
use df_level::Row;
use df_lin::{Verdict, refute};
use df_refutation::{needed, refuting};
use std::alloc::{AllocError, Global};

const MAX: i128 = i128::MAX;

const MIN: i128 = i128::MIN;

/// Rows that are refuted, after how many levels, and by how many combinations.
const REFUTED: [(&[Sparse], usize, usize); 6] = [
    (&[(&[], 0), (&[], -1)], 1, 2),
    // x <= 3 and x >= 4
    (&[(&[(0, -1)], 3), (&[(0, 1)], -4)], 2, 4),
    // y >= 0 is not needed
    (&[(&[(0, 1)], -4), (&[(0, -1)], 3), (&[(1, 1)], 0)], 2, 4),
    // x + x <= 7 and x >= 4
    (&[(&[(8, -2)], 7), (&[(8, 1)], -4)], 2, 4),
    // x <= y <= z < x
    (
        &[
            (&[(0, -1), (1, 1)], 0),
            (&[(1, -1), (2, 1)], 0),
            (&[(0, 1), (2, -1)], -1),
        ],
        3,
        7,
    ),
    // a false row, and sums that would be too wide
    (
        &[
            (&[(0, MAX), (1, 1)], 0),
            (&[(0, 1 - MAX), (1, 1)], 0),
            (&[], -1),
        ],
        1,
        2,
    ),
];

/// Whether the rows are refuted after so many levels, by so many combinations.
fn are_refuted(
    alloc: Global,
    given: &[Row],
    level_count: usize,
    count: usize,
) -> Result<bool, AllocError> {
    let Elimination::Refuted(levels) = eliminate(alloc, given)? else {
        return Ok(false);
    };
    match refuting(alloc, given, &levels)? {
        Some(combinations) => Ok(levels.len() == level_count && combinations.len() == count),
        None => Ok(false),
    }
}

fn is_refuted(alloc: Global, given: &[Sparse], level_count: usize, count: usize) -> bool {
    match rows(alloc, given) {
        Some(given) => matches!(are_refuted(alloc, &given, level_count, count), Ok(true)),
        None => false,
    }
}

#[test]
fn refutes_rows(rt: HostRuntime) {
    for (number, (given, levels, combinations)) in REFUTED.iter().enumerate() {
        let is_right = is_refuted(rt.alloc(), *given, *levels, *combinations);
        expect(&rt, number, is_right);
    }
}

/// Combinations of two rows. The last one, of the rows 3 and 1, does not need those that give the rows 2
/// and 4.
const ALL: [Sum; 4] = [
    (1, &[(1, 0)]),
    (1, &[(1, 0), (1, 1)]),
    (1, &[(1, 2)]),
    (1, &[(1, 3), (1, 1)]),
];

const NEEDED: [Sum; 2] = [(1, &[(1, 0), (1, 1)]), (1, &[(1, 2), (1, 1)])];

/// Whether these are the combinations that are needed, in this order.
fn are_needed(alloc: Global, all: &[Combination], wanted: &[Combination]) -> bool {
    match needed(alloc, 2, all) {
        Ok(found) => are_equal(&found, wanted),
        Err(_) => false,
    }
}

/// Whether just these are needed of all.
fn needs(alloc: Global, all: &[Sum], wanted: &[Sum]) -> Option<bool> {
    let all = combinations(alloc, all)?;
    let wanted = combinations(alloc, wanted)?;
    Some(are_needed(alloc, &all, &wanted))
}

#[test]
fn drops_what_is_not_needed(rt: HostRuntime) {
    assert!(rt; needs(rt.alloc(), &ALL, &NEEDED) == Some(true));
}

/// Rows that are not refuted, their variables, and the last level.
const OPEN: [(&[Sparse], &[usize], &[Sparse]); 5] = [
    (&[], &[], &[]),
    (&[(&[(0, -1)], 7), (&[(0, 1)], -4)], &[0], &[(&[], 3)]),
    // the second node is in no sum
    (&[(&[(2, 1), (7, -1)], 0)], &[2], &[]),
    // 0 <= x <= y <= 9
    (
        &[(&[(0, -1), (3, 1)], 0), (&[(3, -1)], 9), (&[(0, 1)], 0)],
        &[0, 3],
        &[(&[], 9)],
    ),
    (&[(&[(usize::MAX, 1)], 0)], &[usize::MAX], &[]),
];

/// Whether the elimination has these variables, and leaves these rows.
fn is_left(elimination: &Elimination, variables: &[usize], wanted: &[Row]) -> bool {
    match elimination {
        Elimination::Open(levels) => {
            let last = levels.others.last().unwrap_or(&levels.first);
            levels.variables.as_slice() == variables && last.rows() == wanted
        }
        _ => false,
    }
}

/// Whether the rows have these variables, and are these rows without them.
fn are_left(alloc: Global, given: &[Row], variables: &[usize], wanted: &[Row]) -> bool {
    match eliminate(alloc, given) {
        Ok(elimination) => is_left(&elimination, variables, wanted),
        Err(_) => false,
    }
}

fn leave(alloc: Global, given: &[Sparse], variables: &[usize], wanted: &[Sparse]) -> Option<bool> {
    let given = rows(alloc, given)?;
    let wanted = rows(alloc, wanted)?;
    Some(are_left(alloc, &given, variables, &wanted))
}

#[test]
fn eliminates_variables(rt: HostRuntime) {
    for (number, (given, variables, wanted)) in OPEN.iter().enumerate() {
        let found = leave(rt.alloc(), *given, *variables, *wanted);
        expect(&rt, number, found == Some(true));
    }
}

/// Rows on whose way a number is past 128 bits: a divisor, or a sum.
const WIDE: [&[Sparse]; 2] = [
    &[(&[(0, MIN)], 0)],
    &[(&[(0, MAX), (1, 1)], 0), (&[(0, 1 - MAX), (1, 1)], 0)],
];

/// What an elimination came to, in a word.
fn word(elimination: &Elimination) -> &'static str {
    match elimination {
        Elimination::Refuted(_) => "refuted",
        Elimination::Open(_) => "open",
        Elimination::Wide => "wide",
        Elimination::Many(50_000) => "50,000 rows",
        Elimination::Many(_) => "many",
    }
}

/// What the elimination comes to, in a word.
fn end(alloc: Global, given: &[Row]) -> &'static str {
    match eliminate(alloc, given) {
        Ok(elimination) => word(&elimination),
        Err(_) => "no memory",
    }
}

fn sparse_end(alloc: Global, given: &[Sparse]) -> &'static str {
    match rows(alloc, given) {
        Some(given) => end(alloc, &given),
        None => "no rows",
    }
}

#[test]
fn tells_of_wide_rows(rt: HostRuntime) {
    for (number, given) in WIDE.iter().enumerate() {
        expect(&rt, number, sparse_end(rt.alloc(), *given) == "wide");
    }
}

/// Adds a row.
fn push(alloc: Global, rows: &mut Vec<Row>, sparse: Sparse) -> bool {
    match row(alloc, sparse) {
        Some(row) => rows.push(row).is_ok(),
        None => false,
    }
}

/// Adds rows that bound the node 0 from below.
fn push_lower(alloc: Global, rows: &mut Vec<Row>) -> bool {
    for number in 0..224_u16 {
        if !push(alloc, rows, (&[(0, 1)], i128::from(number))) {
            return false;
        }
    }
    true
}

/// Adds rows that bound the node 0 from above. No two sums of one of these and a lower one are equal.
fn push_upper(alloc: Global, rows: &mut Vec<Row>) -> bool {
    for number in 0..223_u16 {
        if !push(alloc, rows, (&[(0, -1)], i128::from(number) * 1000)) {
            return false;
        }
    }
    true
}

/// Adds so many rows without nodes, which equal no such sum.
fn push_others(alloc: Global, rows: &mut Vec<Row>, count: u16) -> bool {
    for number in 0..count {
        if !push(alloc, rows, (&[], i128::from(number) + 1_000_000)) {
            return false;
        }
    }
    true
}

/// Adds rows that bound a node from below and above, where no two sums are equal, and others without it.
fn push_bounds(alloc: Global, rows: &mut Vec<Row>, others: u16) -> bool {
    push_lower(alloc, rows) && push_upper(alloc, rows) && push_others(alloc, rows, others)
}

fn is_point(verdict: &Verdict) -> bool {
    match verdict {
        Verdict::Point(_) => true,
        _ => false,
    }
}

fn has_point(alloc: Global, given: &[Row]) -> bool {
    match refute(alloc, given) {
        Ok(verdict) => is_point(&verdict),
        Err(_) => false,
    }
}

/// 224 * 223 sums, and 47 rows.
#[test]
fn takes_almost_too_many_rows(rt: HostRuntime) {
    let mut given = Vec::new(rt.alloc());
    assert!(rt; push_bounds(rt.alloc(), &mut given, 47));
    assert!(rt; end(rt.alloc(), &given) == "open");
    assert!(rt; has_point(rt.alloc(), &given));
}

/// 224 * 223 sums, and 48 rows: elimination gives up at 50,000.
#[test]
fn tells_of_many_rows(rt: HostRuntime) {
    let mut given = Vec::new(rt.alloc());
    assert!(rt; push_bounds(rt.alloc(), &mut given, 48));
    assert!(rt; end(rt.alloc(), &given) == "50,000 rows");
    assert!(rt; are_many(rt.alloc(), &given));
}

/// Whether only nodes below the count have a coefficient in the row.
fn is_inside(row: &Row, count: usize) -> bool
    ensures { result ≡ true → IsWithin count (function_row row.now) }
{
    for entry in row.entries() {
        if entry.0 >= count {
            return false;
        }
    }
    true
}

fn are_inside(rows: &[Row], count: usize) -> bool
    ensures { result ≡ true → AreInside count (rows_of rows.now) }
{
    for row in rows {
        if !is_inside(row, count) {
            return false;
        }
    }
    true
}

/// Numbers for the first two nodes, where the rows are not refuted and have no others.
fn solution(alloc: Global, given: &[Row]) -> Result<Option<Back>, AllocError> {
    let Elimination::Open(levels) = eliminate(alloc, given)? else {
        return Ok(None);
    };
    if !are_inside(levels.first.rows(), 2) {
        return Ok(None);
    }
    let back = back(alloc, 2, &levels.first, &levels.variables, &levels.others)?;
    Ok(Some(back))
}

/// Numbers for x and y.
fn solved(alloc: Global, given: &[Sparse]) -> Option<Back> {
    let given = rows(alloc, given)?;
    match solution(alloc, &given) {
        Ok(back) => back,
        Err(_) => None,
    }
}

/// Rows of x and y, and the numbers nearest 0.
const POINTS: [(&[Sparse], [i128; 2]); 2] = [
    // -1 <= x, x + y <= 5 and -3 <= y
    (
        &[(&[(0, 1)], 1), (&[(0, -1), (1, -1)], 5), (&[(1, 1)], 3)],
        [0, 0],
    ),
    // 3 <= x, x + y <= 10 and y <= -2
    (
        &[(&[(0, 1)], -3), (&[(0, -1), (1, -1)], 10), (&[(1, -1)], -2)],
        [3, -2],
    ),
];

fn is_solution(back: &Back, wanted: &[i128]) -> bool {
    match back {
        Back::Point(numbers) => numbers.as_slice() == wanted,
        _ => false,
    }
}

fn has_numbers(alloc: Global, given: &[Sparse], wanted: &[i128]) -> bool {
    match solved(alloc, given) {
        Some(back) => is_solution(&back, wanted),
        None => false,
    }
}

#[test]
fn finds_numbers_nearest_zero(rt: HostRuntime) {
    for (number, (given, wanted)) in POINTS.iter().enumerate() {
        expect(
            &rt,
            number,
            has_numbers(rt.alloc(), *given, wanted.as_slice()),
        );
    }
}

/// Rows by which x lies strictly between the number and the next one.
const GAPS: [(&[Sparse], i128); 2] = [
    // 2x = y and y = 1
    (
        &[
            (&[(0, 2), (1, -1)], 0),
            (&[(0, -2), (1, 1)], 0),
            (&[(1, 1)], -1),
            (&[(1, -1)], 1),
        ],
        0,
    ),
    // 2x = y and y = -1
    (
        &[
            (&[(0, 2), (1, -1)], 0),
            (&[(0, -2), (1, 1)], 0),
            (&[(1, 1)], 1),
            (&[(1, -1)], -1),
        ],
        -1,
    ),
];

fn has_gap(alloc: Global, given: &[Sparse], wanted: i128) -> bool {
    match solved(alloc, given) {
        Some(Back::Between { node, bound }) => node == 0 && bound == wanted,
        Some(_) | None => false,
    }
}

#[test]
fn tells_of_gaps(rt: HostRuntime) {
    for (number, (given, wanted)) in GAPS.iter().enumerate() {
        expect(&rt, number, has_gap(rt.alloc(), *given, *wanted));
    }
}

/// Rows by which a number on the way back is past 128 bits.
const WIDE_BACK: [&[Sparse]; 2] = [
    // y + 1 <= x and the greatest number <= y
    &[(&[(0, 1), (1, -1)], -1), (&[(1, 1)], -MAX)],
    // 2y <= x
    &[(&[(0, 1), (1, -2)], 0), (&[(1, 1)], -MAX)],
];

fn is_wide(alloc: Global, given: &[Sparse]) -> bool {
    matches!(solved(alloc, given), Some(Back::Wide))
}

#[test]
fn tells_of_wide_numbers(rt: HostRuntime) {
    for (number, given) in WIDE_BACK.iter().enumerate() {
        expect(&rt, number, is_wide(rt.alloc(), *given));
    }
}
