//! The kernel's linear arithmetic: rows of literals, and combinations that refute them.

use crate::expecting::expect;
use df_cases::{Signed, Sum, combinations, literals, nodes_of};
use df_form::{Nodes, Over};
use df_row::{Row, RowFault, is_linear, rows_of_literals};
use std::alloc::Global;
use std::process::Abort;
use std::test::Fail;

const MAX: i128 = i128::MAX;

/// 3: x + x <= 1, 4: 1 <= x + x, 5: x + x = 1.
/// 9: MAX * (x + x) <= 1, which has no row.
/// 14: MAX * (x + x) <= MAX * (2 * x) + x.
/// 18: MAX + MAX + -MAX <= 1.
/// 19: MAX + MAX <= 1.
const NODES: &str = "x; plus 0 0; 1; le 1 2; le 2 1; eq 1 2; p; max; \
    times 7 1; le 8 2; 2; times 10 0; times 7 11; plus 12 0; le 8 13; \
    -170141183460469231731687303715884105727; plus 7 7; plus 16 15; le 17 2; le 16 2";

/// Literals, and their rows: the coefficient of x, where there is one, and the constant. Or a number of
/// one is past 128 bits.
type Given<'a> = (&'a [Signed], Option<&'a [(Option<i128>, i128)]>);

const ROWS: [Given; 11] = [
    (&[], Some(&[])),
    (&[(true, 3)], Some(&[(Some(-2), 1)])),
    (&[(true, 4)], Some(&[(Some(2), -1)])),
    (&[(false, 3)], Some(&[(Some(2), -2)])),
    (&[(true, 5)], Some(&[(Some(-2), 1), (Some(2), -1)])),
    // the negation of an equality, and a free formula, have none
    (&[(false, 5), (true, 6)], Some(&[])),
    (
        &[(true, 4), (false, 5), (false, 3)],
        Some(&[(Some(2), -1), (Some(2), -2)]),
    ),
    (&[(false, 3), (false, 9)], None),
    // numbers on the way may be wider
    (&[(true, 14)], Some(&[(Some(1), 0)])),
    (&[(true, 18)], Some(&[(None, 1 - MAX)])),
    // MAX + MAX - 2
    (&[(false, 19)], None),
];

const HALF: Sum = (2, &[(1, 0)]);

const OTHER_HALF: Sum = (2, &[(1, 1)]);

const BOTH: Sum = (1, &[(1, 2), (1, 3)]);

/// That the first two comparisons are not both true. Their rows are 1 - 2x and 2x - 1, and halved -x and
/// x - 1.
const APART: &[Signed] = &[(false, 3), (false, 4)];

/// Combinations of the rows of the negated literals of a clause, and whether these refute them.
type Combined<'a> = (&'a [Sum<'a>], bool);

/// Those of the first two comparisons.
const COMBINATIONS: [Combined; 21] = [
    (&[HALF, OTHER_HALF, BOTH], true),
    (&[HALF, BOTH, OTHER_HALF], false),
    (&[HALF, OTHER_HALF, (1, &[(1, 5)])], false),
    // the last row is to be false
    (&[], false),
    (&[HALF], false),
    (&[(1, &[(1, 0), (1, 1)])], false),
    (&[(1, &[])], false),
    (&[HALF, OTHER_HALF, BOTH, HALF], false),
    (&[HALF, OTHER_HALF, BOTH, (7, &[(1, 4)])], true),
    // factors
    (&[HALF, (1, &[(-1, 0), (2, 2)])], false),
    (&[HALF, (1, &[(1, 1), (2, 2)])], true),
    (&[HALF, (1, &[(1, 1), (1, 2)])], false),
    (&[OTHER_HALF, (1, &[(1, 0), (2, 2)])], true),
    (&[HALF, OTHER_HALF, (1, &[(0, 2), (0, 3)])], false),
    // divisors
    (&[HALF, OTHER_HALF, (0, &[(1, 2), (1, 3)])], false),
    (&[HALF, OTHER_HALF, (-1, &[(1, 2), (1, 3)])], false),
    (&[(4, &[(1, 0)]), OTHER_HALF, BOTH], false),
    (&[HALF, OTHER_HALF, (9, &[(1, 2), (1, 3)])], true),
    // numbers past 128 bits
    (&[HALF, OTHER_HALF, (1, &[(MAX, 2), (MAX, 3)])], true),
    (
        &[HALF, OTHER_HALF, (1, &[(MAX, 2), (MAX, 3), (2, 2), (2, 3)])],
        false,
    ),
    (&[(1, &[(MAX, 0)]), OTHER_HALF, BOTH], false),
];

/// Clauses of which no combinations tell: one has a row past 128 bits, and in the other a number is no formula.
const UNTOLD: [&[Signed]; 2] = [
    &[(false, 3), (false, 4), (false, 9)],
    &[(false, 3), (false, 4), (false, 0)],
];

fn all_nodes(alloc: Global) -> Result<Nodes, &'static str> {
    nodes_of(alloc, NODES)
}

/// Whether the combinations refute the negation of the clause.
fn refute(alloc: Global, nodes: &Over, clause: &[Signed], sums: &[Sum]) -> Option<bool> {
    let literals = literals(alloc, clause)?;
    let combinations = combinations(alloc, sums)?;
    is_linear(alloc, nodes, &literals, &combinations).ok()
}

fn apart() -> &'static [Signed] {
    APART
}

fn tells_each(rt: &impl Abort, alloc: Global, nodes: &Over, table: &[Combined]) {
    for (number, (sums, wanted)) in table.iter().enumerate() {
        let told = refute(alloc, nodes, apart(), *sums);
        expect(rt, number, told == Some(*wanted));
    }
}

/// What is said of each combination: here and below a function names a table alone, since it carries it.
fn tells_of_combinations(rt: &impl Abort, alloc: Global, nodes: &Over) {
    tells_each(rt, alloc, nodes, &COMBINATIONS);
}

fn halves_refute(alloc: Global, nodes: &Over, clause: &[Signed]) -> Option<bool> {
    refute(alloc, nodes, clause, &[HALF, OTHER_HALF, BOTH])
}

/// What refutes the first two comparisons refutes no such clause.
fn tells_of_none(rt: &impl Abort, alloc: Global, nodes: &Over) {
    for (number, clause) in UNTOLD.iter().enumerate() {
        let told = halves_refute(alloc, nodes, *clause);
        expect(rt, number, told == Some(false));
    }
}

#[test]
fn refutes_by_combinations(rt: HostRuntime) -> Result<(), Fail> {
    let nodes = all_nodes(rt.alloc())?;
    let nodes = Over::new(rt.alloc(), &nodes);
    tells_of_combinations(&rt, rt.alloc(), &nodes);
    tells_of_none(&rt, rt.alloc(), &nodes);
    Ok(())
}

/// Whether the row has this coefficient of x, and this constant.
fn is_row(row: &Row, wanted: (Option<i128>, i128)) -> bool {
    let (coefficient, constant) = wanted;
    row.coefficients().get(&0).copied() == coefficient && row.constant() == constant
}

fn are_rows(rows: &[Row], wanted: &[(Option<i128>, i128)]) -> bool {
    if rows.len() != wanted.len() {
        return false;
    }
    for (row, wanted) in rows.iter().zip(wanted) {
        if !is_row(row, *wanted) {
            return false;
        }
    }
    true
}

fn are_all_rows(rows: &[Row], wanted: Option<&[(Option<i128>, i128)]>) -> bool {
    match wanted {
        Some(wanted) => are_rows(rows, wanted),
        None => false,
    }
}

/// Whether the literals have these rows, or a number of one is past 128 bits where there are none.
fn have_rows(
    alloc: Global,
    nodes: &Over,
    signed: &[Signed],
    wanted: Option<&[(Option<i128>, i128)]>,
) -> bool {
    let Some(literals) = literals(alloc, signed) else {
        return false;
    };
    match rows_of_literals(alloc, nodes, &literals) {
        Ok(rows) => are_all_rows(&rows, wanted),
        Err(fault) => wanted.is_none() && matches!(fault, RowFault::Refused),
    }
}

fn finds_each(rt: &impl Abort, alloc: Global, nodes: &Over, table: &[Given]) {
    for (number, given) in table.iter().enumerate() {
        let (signed, wanted) = *given;
        expect(rt, number, have_rows(alloc, nodes, signed, wanted));
    }
}

fn finds_rows(rt: &impl Abort, alloc: Global, nodes: &Over) {
    finds_each(rt, alloc, nodes, &ROWS);
}

#[test]
fn finds_rows_of_literals(rt: HostRuntime) -> Result<(), Fail> {
    let nodes = all_nodes(rt.alloc())?;
    let nodes = Over::new(rt.alloc(), &nodes);
    finds_rows(&rt, rt.alloc(), &nodes);
    Ok(())
}
