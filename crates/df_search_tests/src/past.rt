//! Searches that end without a proof or a table, since a number is past all of 128 bits: under many hypotheses, and for
//! a deep goal.

use crate::endings::{Ending, ends};
use crate::large::{assume_bounds, push_chain};
use df_cases::{P, Terms, X, Y, assume, conclude, draft, sequent};
use df_form::{Draft, Op, Sequent};
use std::alloc::Global;

/// The greatest number is below y: no table has y, and the engine finds nothing.
const PAST: Terms = &[
    (Y, 0),
    (Op::Number(i128::MAX), 0),
    (Op::AtMost, 2),
    (Op::Not, 1),
];

fn past() -> Terms<'static> {
    PAST
}

/// Whether a search that may close one branch, without rounds of instances, ends so.
fn ends_past(alloc: Global, sequent: Option<Sequent>, wanted: Ending) -> bool {
    match &sequent {
        Some(sequent) => ends(alloc, sequent, 1, 0, wanted),
        None => false,
    }
}

fn of_bounds_in<'a>(alloc: Global, draft: &mut Draft<'a>) -> Option<Sequent<'a>> {
    if assume_bounds(draft) && assume(draft, past()) {
        conclude(alloc, draft, &[(P, 0)])
    } else {
        None
    }
}

/// The sequent of many bounds of x, where y is past all numbers.
fn of_bounds(alloc: Global) -> Option<Sequent<'static>> {
    match draft(alloc) {
        Some(mut draft) => of_bounds_in(alloc, &mut draft),
        None => None,
    }
}

/// The first level holds a row for each bound: more than it may.
#[test]
fn tells_of_too_many_hypotheses(rt: HostRuntime) {
    assert!(rt; ends_past(rt.alloc(), of_bounds(rt.alloc()), Ending::Many));
}

/// x + 1 + 1 .. <= 0
const DEEP: (Terms, Terms, Terms) = (
    &[(X, 0)],
    &[(Op::Number(1), 0), (Op::Plus, 2)],
    &[(Op::Number(0), 0), (Op::AtMost, 2)],
);

/// Whether the search for a deep goal ends at the number of y.
fn is_deep_told(alloc: Global) -> bool {
    let (first, link, last) = DEEP;
    let mut goal = Vec::new(alloc);
    if push_chain(&mut goal, first, link, last).is_err() {
        return false;
    }
    ends_past(alloc, sequent(alloc, &[past()], &goal), Ending::Wide)
}

#[test]
fn tells_of_a_number_beside_a_deep_goal(rt: HostRuntime) {
    assert!(rt; is_deep_told(rt.alloc()));
}
