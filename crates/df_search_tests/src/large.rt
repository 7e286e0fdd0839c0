//! Searches over many hypotheses, and over goals that are as deep as they are long.

use crate::endings::{Ending, ends};
use crate::expecting::expect;
use df_cases::{Terms, X, assume, conclude, draft, sequent};
use df_form::{Draft, Op, Sequent};
use std::alloc::{AllocError, Global};

/// How many hypotheses there are, and how many operations stand on one another.
const COUNT: u32 = 100_000;

/// 0 <= x
const POSITIVE: Terms = &[(Op::Number(0), 0), (X, 0), (Op::AtMost, 2)];

/// x is at most the number that no hypothesis has.
const BELOW_LAST: Terms = &[(X, 0), (Op::Number(100_000), 0), (Op::AtMost, 2)];

/// How a goal begins, what comes next so many times, and how it ends.
const CHAINS: [(Terms, Terms, Terms); 2] = [
    // 0 <= x + 1 + 1 + ..
    (
        &[(Op::Number(0), 0), (X, 0)],
        &[(Op::Number(1), 0), (Op::Plus, 2)],
        &[(Op::AtMost, 2)],
    ),
    // an even number of negations
    (POSITIVE, &[(Op::Not, 1)], &[]),
];

/// Whether a search that may close one branch proves the sequent, and the kernel takes its log.
fn is_proved(alloc: Global, sequent: Option<Sequent>) -> bool {
    match &sequent {
        Some(sequent) => ends(alloc, sequent, 1, 1, Ending::Proved),
        None => false,
    }
}

/// That x is at most each number from 0 on.
pub(crate) fn assume_bounds(draft: &mut Draft) -> bool {
    for number in 0..COUNT {
        let bound = Op::Number(i128::from(number));
        if !assume(draft, &[(X, 0), (bound, 0), (Op::AtMost, 2)]) {
            return false;
        }
    }
    true
}

fn of_bounds_in<'a>(alloc: Global, draft: &mut Draft<'a>) -> Option<Sequent<'a>> {
    if assume_bounds(draft) {
        conclude(alloc, draft, BELOW_LAST)
    } else {
        None
    }
}

/// The sequent of many bounds of x.
fn of_bounds(alloc: Global) -> Option<Sequent<'static>> {
    match draft(alloc) {
        Some(mut draft) => of_bounds_in(alloc, &mut draft),
        None => None,
    }
}

#[test]
fn proves_under_many_hypotheses(rt: HostRuntime) {
    assert!(rt; is_proved(rt.alloc(), of_bounds(rt.alloc())));
}

/// Puts the links of a chain.
fn push_links(terms: &mut Vec<(Op, usize)>, link: Terms) -> Result<(), AllocError> {
    for _ in 0..COUNT {
        terms.extend_from_slice(link)?;
    }
    Ok(())
}

/// Puts a chain.
pub(crate) fn push_chain(
    terms: &mut Vec<(Op, usize)>,
    first: Terms,
    link: Terms,
    last: Terms,
) -> Result<(), AllocError> {
    terms.extend_from_slice(first)?;
    push_links(terms, link)?;
    terms.extend_from_slice(last)
}

fn is_goal_proved(alloc: Global, goal: Terms) -> bool {
    is_proved(alloc, sequent(alloc, &[POSITIVE], goal))
}

/// Whether a chain is proved where x is not below 0.
fn is_chain_proved(alloc: Global, first: Terms, link: Terms, last: Terms) -> bool {
    let mut goal = Vec::new(alloc);
    if push_chain(&mut goal, first, link, last).is_err() {
        return false;
    }
    is_goal_proved(alloc, &goal)
}

#[test]
fn proves_deep_goals(rt: HostRuntime) {
    for (number, (first, link, last)) in CHAINS.iter().enumerate() {
        let is_right = is_chain_proved(rt.alloc(), *first, *link, *last);
        expect(&rt, number, is_right);
    }
}
