//! Logs that are built, and the branch of a search.

use crate::lines::steps_of;
use df_cases::{Signed, Sum, combinations, literals, sequent_of};
use df_form::{Lit, Node, NodeTable, Op, Sequent};
use df_kern::check;
use df_logbuild::{Derivation, logs_end_with_empty_clauses};
use df_trail::{Conflict, Retreat, Trail, negations};
use std::alloc::Global;

/// A log of these lines, each of which adds a clause.
fn begun<'a>(alloc: Global, sequent: &'a Sequent<'a>, lines: &str) -> Option<Derivation<'a>> {
    let lines = steps_of(alloc, lines, "")?;
    let count = lines.len();
    Some(Derivation::new(sequent.nodes.over(alloc), lines, count))
}

/// The number of the clause that follows through clauses by propagation.
fn propagate(
    alloc: Global,
    derivation: &mut Derivation,
    numbers: &[usize],
    conclusion: Vec<Lit>,
) -> Option<usize> {
    match Vec::from_slice(alloc, numbers) {
        Ok(numbers) => derivation.propagate(numbers, conclusion).ok(),
        Err(_) => None,
    }
}

/// x <= 3, where x is node 0 and this one 2, gives x <= 4, which is node 4.
const SEQUENT: &str = "x 3 le | x 4 le";

/// That the hypothesis is false, or the goal true.
const CONCLUSION: [Signed; 2] = [(false, 2), (true, 4)];

/// 3 - x and x - 5 add up to -2.
const SUMS: [Sum; 1] = [(1, &[(1, 0), (1, 1)])];

/// The number of the clause that the sum refutes.
fn refute(alloc: Global, derivation: &mut Derivation) -> Option<usize> {
    let conclusion = literals(alloc, &CONCLUSION)?;
    let combinations = combinations(alloc, &SUMS)?;
    derivation.refute(conclusion, combinations).ok()
}

/// The number of the node of 7.
fn make_seven(alloc: Global, derivation: &mut Derivation) -> Option<usize> {
    let seven = Node {
        op: Op::Number(7),
        parts: Vec::new(alloc),
    };
    if !derivation.nodes.admits(seven.op, &seven.parts) {
        return None;
    }
    derivation.make(seven).ok()
}

/// Adds lines to the hypothesis and the negated goal, up to the empty clause: whether the lines and the nodes have
/// their numbers, where a node that is there is not made again.
fn build(alloc: Global, derivation: &mut Derivation) -> bool {
    refute(alloc, derivation) == Some(2)
        && make_seven(alloc, derivation) == Some(5)
        && make_seven(alloc, derivation) == Some(5)
        && propagate(alloc, derivation, &[0, 1, 2], Vec::new(alloc)) == Some(3)
}

/// Whether the log that is built has five lines, and is accepted.
fn is_built(alloc: Global, sequent: &Sequent) -> bool {
    match begun(alloc, sequent, "h 0; g") {
        Some(mut derivation) => {
            build(alloc, &mut derivation)
                && derivation.lines.len() == 5
                && check(alloc, sequent, &derivation.lines).is_ok()
        }
        None => false,
    }
}

/// Whether the log for the goal is built, and accepted.
fn builds(alloc: Global) -> bool {
    match sequent_of(alloc, SEQUENT) {
        Some(sequent) => is_built(alloc, &sequent),
        None => false,
    }
}

#[test]
fn builds_a_log_that_is_accepted(rt: HostRuntime) {
    logs_end_with_empty_clauses();
    assert!(rt; builds(rt.alloc()));
}

/// The negated goal `p || !p`, and what the goal and the negation of p mean: p is node 0, its negation 1,
/// and the goal 2.
const LINES: &str = "g; x 2 1; x 2 2; x 1 0; x 1 1";

/// Decides p.
fn decide(trail: &mut Trail) -> bool {
    let literal = Lit {
        positive: true,
        node: 0,
    };
    trail.decide(literal).is_ok()
}

/// Says that the literals are not all true, by propagation through clauses, and closes the branch by that.
fn close_by(
    alloc: Global,
    derivation: &mut Derivation,
    trail: &mut Trail,
    numbers: &[usize],
    needed: Vec<Lit>,
) -> Option<Retreat> {
    match negations(alloc, &needed) {
        Ok(conclusion) => {
            let number = propagate(alloc, derivation, numbers, conclusion)?;
            trail
                .retreat(alloc, derivation, Conflict { number, needed })
                .ok()
        }
        Err(_) => None,
    }
}

/// Closes the branch by propagation through clauses.
fn close(
    alloc: Global,
    derivation: &mut Derivation,
    trail: &mut Trail,
    numbers: &[usize],
) -> Option<Retreat> {
    match trail.branch(alloc) {
        Ok(needed) => close_by(alloc, derivation, trail, numbers, needed),
        Err(_) => None,
    }
}

/// Whether the branch is of the negation of p alone.
fn is_turned(alloc: Global, trail: &Trail) -> bool {
    let turned = Lit {
        positive: false,
        node: 0,
    };
    match trail.branch(alloc) {
        Ok(branch) => branch.as_slice() == [turned].as_slice(),
        Err(_) => false,
    }
}

/// Closes the branch of p, which makes the goal true, and then the one of its negation, which does so too.
fn close_both(alloc: Global, derivation: &mut Derivation, trail: &mut Trail) -> bool {
    close(alloc, derivation, trail, &[0, 1]) == Some(Retreat::Turned)
        && is_turned(alloc, trail)
        && close(alloc, derivation, trail, &[0, 2, 4]) == Some(Retreat::Ended)
}

/// Whether both branches are closed.
fn closes(alloc: Global, derivation: &mut Derivation) -> bool {
    let mut trail = Trail::new(alloc);
    decide(&mut trail) && close_both(alloc, derivation, &mut trail)
}

/// Whether the log of the two branches is accepted.
fn is_closed(alloc: Global, sequent: &Sequent) -> bool {
    match begun(alloc, sequent, LINES) {
        Some(mut derivation) => {
            closes(alloc, &mut derivation) && check(alloc, sequent, &derivation.lines).is_ok()
        }
        None => false,
    }
}

/// Whether the log for `p || !p` is accepted.
fn closes_both(alloc: Global) -> bool {
    match sequent_of(alloc, "| p p not or") {
        Some(sequent) => is_closed(alloc, &sequent),
        None => false,
    }
}

#[test]
fn closes_both_sides_of_a_decision(rt: HostRuntime) {
    assert!(rt; closes_both(rt.alloc()));
}

/// The decision of a node.
fn decide_node(trail: &mut Trail, node: usize) -> bool {
    trail
        .decide(Lit {
            positive: true,
            node,
        })
        .is_ok()
}

/// Closes a branch of p and two more decisions by what p alone makes false.
fn close_by_first(alloc: Global, derivation: &mut Derivation, trail: &mut Trail) -> bool {
    let first = Lit {
        positive: true,
        node: 0,
    };
    match vec![in alloc; first] {
        Ok(needed) => {
            close_by(alloc, derivation, trail, &[0, 1], needed) == Some(Retreat::Turned)
        }
        Err(_) => false,
    }
}

/// Whether the two later decisions are taken back, and not turned.
fn goes_back(alloc: Global, derivation: &mut Derivation) -> bool {
    let mut trail = Trail::new(alloc);
    decide(&mut trail)
        && decide_node(&mut trail, 1)
        && decide_node(&mut trail, 2)
        && close_by_first(alloc, derivation, &mut trail)
        && is_turned(alloc, &trail)
}

fn goes_back_in(alloc: Global, sequent: &Sequent) -> bool {
    match begun(alloc, sequent, LINES) {
        Some(mut derivation) => goes_back(alloc, &mut derivation),
        None => false,
    }
}

/// Whether that is so beside `p || !p`.
fn goes_back_over(alloc: Global) -> bool {
    match sequent_of(alloc, "| p p not or") {
        Some(sequent) => goes_back_in(alloc, &sequent),
        None => false,
    }
}

#[test]
fn goes_back_over_what_is_not_needed(rt: HostRuntime) {
    assert!(rt; goes_back_over(rt.alloc()));
}

/// Whether the list is of p alone.
fn is_of_first(literals: &[Lit]) -> bool {
    let first = Lit {
        positive: true,
        node: 0,
    };
    literals == [first].as_slice()
}

/// Whether p is what stands before the last decision.
fn is_before(alloc: Global, trail: &Trail) -> bool {
    match trail.before(alloc) {
        Ok(Some(before)) => is_of_first(&before),
        Ok(None) | Err(_) => false,
    }
}

/// Whether p is what is decided.
fn is_left(alloc: Global, trail: &Trail) -> bool {
    match trail.branch(alloc) {
        Ok(branch) => is_of_first(&branch),
        Err(_) => false,
    }
}

/// Whether p is told before a second decision, and left when that is taken back.
fn takes_back(alloc: Global) -> bool {
    let mut trail = Trail::new(alloc);
    let is_told = decide(&mut trail) && decide_node(&mut trail, 1) && is_before(alloc, &trail);
    trail.take_back();
    is_told && is_left(alloc, &trail)
}

#[test]
fn takes_a_decision_back(rt: HostRuntime) {
    assert!(rt; takes_back(rt.alloc()));
}
