//! Closures by hand.

use crate::expecting::expect;
use df_cases::{Signed, are_literals, literals};
use df_clause::GroundClause;
use df_closure::{Closure, close};
use std::alloc::Global;
use std::process::Abort;

/// The equality that a clause is bound to, and its literals.
const CLAUSES: [(Option<usize>, &[Signed]); 7] = [
    (None, &[(true, 1)]),
    (None, &[(false, 1), (true, 2)]),
    (None, &[(false, 2), (true, 3), (true, 4)]),
    (Some(9), &[(false, 9), (true, 5)]),
    (Some(9), &[(true, 9), (false, 5), (false, 6)]),
    (None, &[(false, 7), (true, 8), (true, 8)]),
    (None, &[(false, 8), (false, 4)]),
];

/// A list, what is learned beside it, and by which clauses.
const CLOSED: [(&[Signed], &str, &[usize]); 6] = [
    (&[], "+1 +2", &[0, 1]),
    (&[(false, 3)], "+1 +2 +4 -8 -7", &[0, 1, 2, 6, 5]),
    // a clause that is bound to an equality counts where this is known
    (&[(true, 5), (true, 6)], "+1 +2", &[0, 1]),
    (&[(true, 9)], "+1 +2 +5", &[0, 1, 3]),
    (&[(false, 9), (true, 5)], "+1 +2 -6", &[0, 1, 4]),
    // a literal that stands twice
    (&[(true, 7), (true, 3)], "+1 +2 +8 -4", &[0, 1, 5, 6]),
];

/// A list beside which a clause is false, and how this is seen.
const REFUTED: [(&[Signed], &[usize]); 3] = [
    (&[(false, 3), (false, 4)], &[0, 1, 2]),
    (&[(false, 9), (true, 5), (true, 6)], &[0, 1, 4]),
    (&[(false, 2)], &[0, 1]),
];

fn push_clause(
    alloc: Global,
    clauses: &mut Vec<GroundClause>,
    bound: Option<usize>,
    signed: &[Signed],
) -> bool {
    match literals(alloc, signed) {
        Some(literals) => clauses.push(GroundClause { literals, bound }).is_ok(),
        None => false,
    }
}

/// Adds the clauses.
fn push_clauses(alloc: Global, clauses: &mut Vec<GroundClause>) -> bool {
    for (bound, signed) in &CLAUSES {
        if !push_clause(alloc, clauses, *bound, *signed) {
            return false;
        }
    }
    true
}

/// The closure of a list beside the clauses.
fn closure(alloc: Global, clauses: &[GroundClause], list: &[Signed]) -> Option<Closure> {
    let list = literals(alloc, list)?;
    close(alloc, clauses, &list).ok()
}

/// Whether just these literals are learned beside a list, by these clauses.
fn teaches(
    alloc: Global,
    clauses: &[GroundClause],
    list: &[Signed],
    wanted: &str,
    by: &[usize],
) -> bool {
    match &closure(alloc, clauses, list) {
        Some(
            Closure::Closed {
                learned,
                reasons,
                ..
            },
        ) => are_literals(alloc, learned, wanted) && reasons.as_slice() == by,
        Some(Closure::Refuted(_)) | None => false,
    }
}

/// Each list teaches what it says.
fn expect_closed(rt: &impl Abort, alloc: Global, clauses: &[GroundClause]) {
    for (number, (list, wanted, by)) in CLOSED.iter().enumerate() {
        let is_right = teaches(alloc, clauses, *list, *wanted, *by);
        expect(rt, number, is_right);
    }
}

#[test]
fn closes_lists(rt: HostRuntime) {
    let mut clauses = Vec::new(rt.alloc());
    assert!(rt; push_clauses(rt.alloc(), &mut clauses));
    expect_closed(&rt, rt.alloc(), &clauses);
}

/// Whether a clause is false beside a list, which these clauses show.
fn refutes(alloc: Global, clauses: &[GroundClause], list: &[Signed], by: &[usize]) -> bool {
    match &closure(alloc, clauses, list) {
        Some(Closure::Refuted(numbers)) => numbers.as_slice() == by,
        Some(Closure::Closed { .. }) | None => false,
    }
}

/// Each list is refuted as it says.
fn expect_refuted(rt: &impl Abort, alloc: Global, clauses: &[GroundClause]) {
    for (number, (list, by)) in REFUTED.iter().enumerate() {
        expect(rt, number, refutes(alloc, clauses, *list, *by));
    }
}

#[test]
fn finds_false_clauses(rt: HostRuntime) {
    let mut clauses = Vec::new(rt.alloc());
    assert!(rt; push_clauses(rt.alloc(), &mut clauses));
    expect_refuted(&rt, rt.alloc(), &clauses);
}
