//! Searches that end without a model: with as many closed branches as there may be, a number past 128 bits, or too many
//! instances or rows.

use crate::endings::search_to;
use df_cases::{Terms, X, Y, Z, assume, assume_all, conclude, draft, sequent};
use df_form::{Draft, Free, Op, Sequent, Sort};
use df_search::{Found, What};
use std::alloc::Global;

/// The atoms a, b and another one.
pub(crate) const A: Op = Op::Free(Free {
    number: 10,
    sort: Sort::Truth,
});

pub(crate) const B: Op = Op::Free(Free {
    number: 11,
    sort: Sort::Truth,
});

const OTHER: Op = Op::Free(Free {
    number: 12,
    sort: Sort::Truth,
});

/// Why a search stops, with how many branches are closed, and how many literals the branch has that is left.
#[derive(Clone, Copy)]
pub(crate) enum Stop {
    Proved,
    Modelled,
    Spent(usize),
    Wide {
        closed: usize,
        branch: usize,
    },
    /// So many instances.
    Instances(u64),
    /// So many rows.
    Rows {
        count: u64,
        closed: usize,
        branch: usize,
    },
}

fn stop_of(found: &Found) -> Stop {
    match found {
        Found::Proved { .. } => Stop::Proved,
        Found::Modelled(_) => Stop::Modelled,
        Found::Spent(branches) => Stop::Spent(branches.len()),
        Found::Wide { closed, branch } => Stop::Wide {
            closed: closed.len(),
            branch: branch.len(),
        },
        Found::Many(What::Instances(count)) => Stop::Instances(*count),
        Found::Many(
            What::Rows {
                count,
                closed,
                branch,
            },
        ) => Stop::Rows {
            count: *count,
            closed: closed.len(),
            branch: branch.len(),
        },
    }
}

fn stop_within(alloc: Global, sequent: &Sequent, steps: u64, rounds: u32) -> Option<Stop> {
    match search_to(alloc, sequent, steps, rounds) {
        Some(found) => Some(stop_of(&found)),
        None => None,
    }
}

/// Why the search stops under these hypotheses, with another atom as goal.
pub(crate) fn stop_under(alloc: Global, hypotheses: &[Terms], steps: u64) -> Option<Stop> {
    match sequent(alloc, hypotheses, &[(OTHER, 0)]) {
        Some(sequent) => stop_within(alloc, &sequent, steps, 0),
        None => None,
    }
}

/// x and the greatest number are at most -2 together, which no number of 128 bits shows.
const PAST: Terms = &[
    (X, 0),
    (Op::Number(i128::MAX), 0),
    (Op::Plus, 2),
    (Op::Number(-2), 0),
    (Op::AtMost, 2),
];

/// a makes b true and false, and without a there is a number past 128 bits.
const GUARDED: [Terms; 3] = [
    &[(A, 0), (Op::Not, 1), (B, 0), (Op::Or, 2)],
    &[(A, 0), (Op::Not, 1), (B, 0), (Op::Not, 1), (Op::Or, 2)],
    &[
        (A, 0),
        (X, 0),
        (Op::Number(i128::MAX), 0),
        (Op::Plus, 2),
        (Op::Number(-2), 0),
        (Op::AtMost, 2),
        (Op::Or, 2),
    ],
];

fn stop_of_guarded(alloc: Global, steps: u64) -> Option<Stop> {
    stop_under(alloc, &GUARDED, steps)
}

/// The first branch is closed, and that is all it may close.
#[test]
fn tells_of_closed_branches(rt: HostRuntime) {
    let stop = stop_of_guarded(rt.alloc(), 1);
    assert!(rt; matches!(stop, Some(Stop::Spent(1))));
}

/// With another one it comes to the number.
#[test]
fn tells_of_wide_numbers_past_a_closed_branch(rt: HostRuntime) {
    let stop = stop_of_guarded(rt.alloc(), 2);
    assert!(rt; matches!(stop, Some(Stop::Wide { closed: 1, .. })));
}

#[test]
fn tells_of_wide_numbers(rt: HostRuntime) {
    let stop = stop_under(rt.alloc(), &[PAST], 1);
    assert!(rt;
        matches!(
            stop,
            Some(Stop::Wide {
                closed: 0,
                branch: 0
            })
        )
    );
}

/// How many products have z as their second factor: each two of them are compared.
const PRODUCT_COUNT: u16 = 450;

fn assume_compared(draft: &mut Draft) -> bool {
    for factor in 0..PRODUCT_COUNT {
        let terms = [
            (Op::Number(i128::from(factor)), 0),
            (Z, 0),
            (Op::Times, 2),
            (Z, 0),
            (Op::AtMost, 2),
        ];
        if !assume(draft, &terms) {
            return false;
        }
    }
    true
}

fn compared_in<'a>(alloc: Global, draft: &mut Draft<'a>) -> Option<Sequent<'a>> {
    if assume_compared(draft) {
        conclude(alloc, draft, &[(OTHER, 0)])
    } else {
        None
    }
}

/// Products that are compared with z.
pub(crate) fn compared(alloc: Global) -> Option<Sequent<'static>> {
    match draft(alloc) {
        Some(mut draft) => compared_in(alloc, &mut draft),
        None => None,
    }
}

fn stop_of_compared(alloc: Global, rounds: u32) -> Option<Stop> {
    match compared(alloc) {
        Some(sequent) => stop_within(alloc, &sequent, 1, rounds),
        None => None,
    }
}

#[test]
fn models_products_without_rounds(rt: HostRuntime) {
    let stop = stop_of_compared(rt.alloc(), 0);
    assert!(rt; matches!(stop, Some(Stop::Modelled)));
}

#[test]
fn tells_of_too_many_instances(rt: HostRuntime) {
    let stop = stop_of_compared(rt.alloc(), 1);
    assert!(rt; matches!(stop, Some(Stop::Instances(200_000))));
}

/// The greatest number is at most y, and y is below x.
const BEYOND: [Terms; 2] = [
    &[(Op::Number(i128::MAX), 0), (Y, 0), (Op::AtMost, 2)],
    &[
        (Y, 0),
        (Op::Number(1), 0),
        (Op::Plus, 2),
        (X, 0),
        (Op::AtMost, 2),
    ],
];

/// How many numbers bound z from below,
const LOWER_COUNT: u16 = 225;

/// and how many from above.
const UPPER_COUNT: u16 = 223;

/// z + i is at least 0 for so many numbers i.
fn bound_below(draft: &mut Draft) -> bool {
    for number in 0..LOWER_COUNT {
        let more = Op::Number(i128::from(number));
        let terms = [
            (Op::Number(0), 0),
            (Z, 0),
            (more, 0),
            (Op::Plus, 2),
            (Op::AtMost, 2),
        ];
        if !assume(draft, &terms) {
            return false;
        }
    }
    true
}

/// z is at most so many multiples of 1,000.
fn bound_above(draft: &mut Draft) -> bool {
    for number in 0..UPPER_COUNT {
        let bound = Op::Number(i128::from(number) * 1000);
        if !assume(draft, &[(Z, 0), (bound, 0), (Op::AtMost, 2)]) {
            return false;
        }
    }
    true
}

fn assume_bounded(draft: &mut Draft) -> bool {
    bound_below(draft) && bound_above(draft) && assume_all(draft, &BEYOND)
}

fn bounded_in<'a>(alloc: Global, draft: &mut Draft<'a>) -> Option<Sequent<'a>> {
    if assume_bounded(draft) {
        conclude(alloc, draft, &[(OTHER, 0)])
    } else {
        None
    }
}

/// z is bounded so, and x is past all numbers of 128 bits, so no table is found.
fn bounded(alloc: Global) -> Option<Sequent<'static>> {
    match draft(alloc) {
        Some(mut draft) => bounded_in(alloc, &mut draft),
        None => None,
    }
}

fn stop_of_bounded(alloc: Global) -> Option<Stop> {
    match bounded(alloc) {
        Some(sequent) => stop_within(alloc, &sequent, 1, 0),
        None => None,
    }
}

/// z comes first among the nodes, so it is eliminated first: each of the 225 rows 0 <= z + i and each of the 223 rows
/// 0 <= 1000 * j - z give the row 0 <= i + 1000 * j. No two of these 50,175 rows are equal, and none is false; the
/// rows of x and y stay. So the level comes to its limit at the empty branch.
#[test]
fn tells_of_too_many_rows(rt: HostRuntime) {
    let stop = stop_of_bounded(rt.alloc());
    assert!(rt;
        matches!(
            stop,
            Some(Stop::Rows {
                count: 50_000,
                closed: 0,
                branch: 0
            })
        )
    );
}
