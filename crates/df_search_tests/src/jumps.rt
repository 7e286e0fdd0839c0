//! Searches that go back over decisions that no conflict needs.

use crate::evidence::{A, B, Stop, stop_under};
use df_cases::{P, Q, Terms, X};
use df_form::{Free, Op, Sort};
use std::alloc::Global;

const C: Op = Op::Free(Free {
    number: 13,
    sort: Sort::Truth,
});

/// Further atoms, of which no conflict needs one.
const D: Op = Op::Free(Free {
    number: 14,
    sort: Sort::Truth,
});

const E: Op = Op::Free(Free {
    number: 15,
    sort: Sort::Truth,
});

const F: Op = Op::Free(Free {
    number: 16,
    sort: Sort::Truth,
});

const G: Op = Op::Free(Free {
    number: 17,
    sort: Sort::Truth,
});

/// Without a there is a number past 128 bits; one of each pair is true; with a the four clauses of b and c with each
/// sign are false together.
const PAIRS: [Terms; 8] = [
    &[
        (A, 0),
        (X, 0),
        (Op::Number(i128::MAX), 0),
        (Op::Plus, 2),
        (Op::Number(-2), 0),
        (Op::AtMost, 2),
        (Op::Or, 2),
    ],
    &[(P, 0), (Q, 0), (Op::Or, 2)],
    &[(D, 0), (E, 0), (Op::Or, 2)],
    &[(F, 0), (G, 0), (Op::Or, 2)],
    &[(A, 0), (Op::Not, 1), (B, 0), (C, 0), (Op::Or, 3)],
    &[
        (A, 0),
        (Op::Not, 1),
        (B, 0),
        (C, 0),
        (Op::Not, 1),
        (Op::Or, 3),
    ],
    &[
        (A, 0),
        (Op::Not, 1),
        (B, 0),
        (Op::Not, 1),
        (C, 0),
        (Op::Or, 3),
    ],
    &[
        (A, 0),
        (Op::Not, 1),
        (B, 0),
        (Op::Not, 1),
        (C, 0),
        (Op::Not, 1),
        (Op::Or, 3),
    ],
];

fn stop_beside_pairs(alloc: Global, steps: u64) -> Option<Stop> {
    stop_under(alloc, &PAIRS, steps)
}

/// The clauses are open in this order, so a, p, d, f and b are decided. Both sides of b are closed by a and b alone: two
/// branches. Then a is turned, whatever p, d and f are; no list between the number and the turned a counts.
#[test]
fn goes_back_over_what_no_conflict_needs(rt: HostRuntime) {
    let stop = stop_beside_pairs(rt.alloc(), 3);
    assert!(rt;
        matches!(
            stop,
            Some(Stop::Wide {
                closed: 2,
                branch: 1
            })
        )
    );
}

/// These two branches are as many as it may close.
#[test]
fn counts_both_sides_of_the_last_decision(rt: HostRuntime) {
    let stop = stop_beside_pairs(rt.alloc(), 2);
    assert!(rt; matches!(stop, Some(Stop::Spent(2))));
}
