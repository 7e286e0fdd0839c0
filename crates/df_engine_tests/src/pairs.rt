//! Clauses of two atoms that are false together, beside clauses that a proof does without.

use df_cases::{P, Q, Terms, assume, assume_all, conclude, draft};
use df_form::{Draft, Free, Op, Sequent, Sort};
use df_kern::check;
use df_search::{Budget, Found, search};
use std::alloc::Global;

/// A further atom.
fn atom(number: usize) -> Op {
    Op::Free(Free {
        number,
        sort: Sort::Truth,
    })
}

/// The four clauses of two atoms with each sign.
const CLAUSES: [Terms; 4] = [
    &[(P, 0), (Q, 0), (Op::Or, 2)],
    &[(P, 0), (Q, 0), (Op::Not, 1), (Op::Or, 2)],
    &[(P, 0), (Op::Not, 1), (Q, 0), (Op::Or, 2)],
    &[(P, 0), (Op::Not, 1), (Q, 0), (Op::Not, 1), (Op::Or, 2)],
];

/// How many clauses speak of atoms of their own.
const PAIRS: usize = 6;

/// That one of the two atoms of each pair is true.
fn assume_pairs(draft: &mut Draft) -> bool {
    for pair in 0..PAIRS {
        let first = atom(20 + pair);
        let second = atom(40 + pair);
        if !assume(draft, &[(first, 0), (second, 0), (Op::Or, 2)]) {
            return false;
        }
    }
    true
}

fn assume_clauses(draft: &mut Draft) -> bool {
    assume_all(draft, &CLAUSES)
}

fn beside_pairs_in<'a>(alloc: Global, draft: &mut Draft<'a>) -> Option<Sequent<'a>> {
    if assume_clauses(draft) && assume_pairs(draft) {
        conclude(alloc, draft, &[(atom(12), 0)])
    } else {
        None
    }
}

/// The clauses of two atoms, and as many of two atoms each of their own, with another atom as goal.
pub(crate) fn beside_pairs(alloc: Global) -> Option<Sequent<'static>> {
    match draft(alloc) {
        Some(mut draft) => beside_pairs_in(alloc, &mut draft),
        None => None,
    }
}

/// Whether it is a log that the kernel takes.
fn is_log(alloc: Global, sequent: &Sequent, found: &Found) -> bool {
    match found {
        Found::Proved { log, .. } => check(alloc, sequent, log).is_ok(),
        Found::Modelled(_) | Found::Spent(_) | Found::Wide { .. } | Found::Many(_) => false,
    }
}

/// Whether the search in 16 steps without rounds of instances ends with a log that the kernel takes.
fn is_proved(alloc: Global, sequent: &Sequent) -> bool {
    let budget = Budget {
        steps: 16,
        rounds: 0,
    };
    match search(alloc, sequent, budget) {
        Ok(found) => is_log(alloc, sequent, &found),
        Err(_) => false,
    }
}

fn are_pairs_proved(alloc: Global) -> bool {
    match beside_pairs(alloc) {
        Some(sequent) => is_proved(alloc, &sequent),
        None => false,
    }
}

#[test]
fn proves_beside_other_clauses(rt: HostRuntime) {
    assert!(rt; are_pairs_proved(rt.alloc()));
}
