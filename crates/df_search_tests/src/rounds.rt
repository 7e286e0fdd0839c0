//! Rounds of instances by hand.

use crate::evidence::compared;
use crate::expecting::expect;
use crate::grounds::has_lines;
use df_axiom::{AxiomFault, Schemas, Written, instance};
use df_cases::sequent_of;
use df_clause::{Ground, clauses};
use df_form::{Arena, Lit, Sequent, Term, World};
use df_trig::{TrigFault, instances, round};
use std::alloc::Global;

/// x / y is the remainder.
const PARTS: &str = "| x y div x y mod eq";

/// A sequent, how many rounds there are, how many clauses its ground set then has, and how many of them are bound to no
/// equality.
type Case<'a> = (&'a str, u32, usize, usize);

const CASES: [Case; 7] = [
    // without rounds nothing is known of types
    ("x is:byte | x is:i8", 0, 2, 2),
    ("x is:byte | x is:i8", 1, 8, 8),
    // a further round adds nothing
    ("x is:byte | x is:i8", 2, 8, 8),
    (PARTS, 0, 4, 1),
    // what quotient and remainder are is one clause, found by either; there are three on the remainder, and
    // the equalities that y is 0 and that x is the sum have their own
    (PARTS, 1, 14, 5),
    ("| x z times y z times le", 0, 1, 1),
    // of each product: its factors change, it is at least 0 where they are, and two comparisons, one with
    // itself
    ("| x z times y z times le", 1, 15, 9),
];

/// Whether a ground set has so many clauses, and so many of them are bound to no equality.
fn is_counted_so(
    alloc: Global,
    sequent: &Sequent,
    set: &Ground,
    count: usize,
    instance_count: usize,
) -> bool {
    has_lines(alloc, sequent, set)
        && set.clauses.len() == count
        && set.clauses.instance_count() == instance_count
}

/// Whether there are so many clauses after so many rounds, and so many of them are bound to no equality.
fn has_counts(
    alloc: Global,
    sequent: &Sequent,
    rounds: u32,
    count: usize,
    instance_count: usize,
) -> bool {
    match instances(alloc, sequent, &Written {}, rounds) {
        Ok(set) => is_counted_so(alloc, sequent, &set, count, instance_count),
        Err(_) => false,
    }
}

/// Whether a case is as it says.
fn is_counted(alloc: Global, case: Case) -> bool {
    let (text, rounds, count, instance_count) = case;
    match sequent_of(alloc, text) {
        Some(sequent) => has_counts(alloc, &sequent, rounds, count, instance_count),
        None => false,
    }
}

#[test]
fn adds_each_match_once(rt: HostRuntime) {
    for (number, case) in CASES.iter().enumerate() {
        expect(&rt, number, is_counted(rt.alloc(), *case));
    }
}

/// The schemas, with memory that is refused to the third.
#[derive(Clone, Copy)]
struct Refused {}

impl Schemas for Refused {
    fn instance<A: Arena>(
        &self,
        alloc: Global,
        world: World,
        nodes: &mut A,
        schema: u8,
        number: u32,
        terms: &[Term],
    ) -> Result<Vec<Lit>, AxiomFault> {
        if schema == 3 {
            return Err(AxiomFault::Memory);
        }
        instance(alloc, world, nodes, schema, number, terms)
    }
}

/// How many clauses there are after a round that is refused memory.
fn kept_count(alloc: Global, sequent: &Sequent, set: &mut Ground) -> Option<usize> {
    let answer = round(alloc, set, sequent, &Refused {});
    if matches!(answer, Err(TrigFault::Memory)) && has_lines(alloc, sequent, set) {
        Some(set.clauses.len())
    } else {
        None
    }
}

/// Whether a ground set has so many clauses before such a round, and so many after it.
fn set_keeps(
    alloc: Global,
    sequent: &Sequent,
    set: &mut Ground,
    before: usize,
    after: usize,
) -> bool {
    set.clauses.len() == before && kept_count(alloc, sequent, set) == Some(after)
}

/// Whether there are so many clauses before such a round, and so many after it.
fn keeps(alloc: Global, sequent: &Sequent, before: usize, after: usize) -> bool {
    match clauses(alloc, sequent) {
        Ok(mut set) => set_keeps(alloc, sequent, &mut set, before, after),
        Err(_) => false,
    }
}

/// Whether so many clauses of quotient and remainder are kept.
fn keeps_parts(alloc: Global, before: usize, after: usize) -> bool {
    match sequent_of(alloc, PARTS) {
        Some(sequent) => keeps(alloc, &sequent, before, after),
        None => false,
    }
}

#[test]
fn keeps_what_came_before_a_refusal(rt: HostRuntime) {
    // the clause on both, and the first on the remainder
    assert!(rt; keeps_parts(rt.alloc(), 4, 6));
}

/// Whether a round comes to the limit, and the set has so many.
fn reaches_limit(alloc: Global, sequent: &Sequent, set: &mut Ground) -> bool {
    let answer = round(alloc, set, sequent, &Written {});
    matches!(answer, Err(TrigFault::Many(200_000))) && set.clauses.instance_count() == 200_000
}

/// Whether a first round comes to the limit, and a second one, where there are too many to begin with.
fn set_stays_at_limit(alloc: Global, sequent: &Sequent, set: &mut Ground) -> bool {
    reaches_limit(alloc, sequent, set) && reaches_limit(alloc, sequent, set)
}

fn stays_at_limit(alloc: Global, sequent: &Sequent) -> bool {
    match clauses(alloc, sequent) {
        Ok(mut set) => set_stays_at_limit(alloc, sequent, &mut set),
        Err(_) => false,
    }
}

/// Whether the rounds of products that are compared stay at the limit.
fn compared_stays_at_limit(alloc: Global) -> bool {
    match compared(alloc) {
        Some(sequent) => stays_at_limit(alloc, &sequent),
        None => false,
    }
}

#[test]
fn ends_at_the_limit(rt: HostRuntime) {
    assert!(rt; compared_stays_at_limit(rt.alloc()));
}
