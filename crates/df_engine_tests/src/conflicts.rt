//! How many conflicts the engine comes to, and a long chain of equalities.

use crate::pairs::beside_pairs;
use crate::proposals::proposed;
use df_cases::{Z, assume, conclude, draft};
use df_form::{Draft, Free, Op, Sequent, Sort};
use df_kern::check;
use df_solve::{Counted, Proposal};
use std::alloc::{AllocError, Global};

/// How many atoms the clauses are over.
const ATOM_COUNT: usize = 6;

/// There is a clause for each way to give the atoms signs.
const CLAUSE_COUNT: u32 = 64;

/// How long the chain is.
const LENGTH: usize = 1_000;

/// The free truth or number of this number.
fn free(number: usize, sort: Sort) -> Op {
    Op::Free(Free { number, sort })
}

/// Whether it is a log that the kernel takes.
fn is_proof(alloc: Global, sequent: &Sequent, proposal: &Proposal) -> bool {
    match proposal {
        Proposal::Proved(log) => check(alloc, sequent, log).is_ok(),
        Proposal::Modelled(_) | Proposal::GaveUp => false,
    }
}

/// How many conflicts came before what is proposed, if it is a log that the kernel takes.
fn conflicts_before(alloc: Global, sequent: &Sequent, counted: &Counted) -> Option<u64> {
    if is_proof(alloc, sequent, &counted.proposal) {
        Some(counted.conflicts)
    } else {
        None
    }
}

/// How many conflicts come before a log that the kernel takes, without rounds of instances.
fn conflicts(alloc: Global, sequent: &Sequent) -> Option<u64> {
    match proposed(alloc, sequent, 0) {
        Some(counted) => conflicts_before(alloc, sequent, &counted),
        None => None,
    }
}

/// Whether a log that the kernel takes comes after at most so many conflicts.
fn is_proved(alloc: Global, sequent: &Sequent, most: u64) -> bool {
    match conflicts(alloc, sequent) {
        Some(count) => count <= most,
        None => false,
    }
}

/// Adds a clause of the six atoms: each bit of the number is a sign.
fn push_clause(terms: &mut Vec<(Op, usize)>, number: u32) -> Result<(), AllocError> {
    let mut rest = number;
    for atom in 0..ATOM_COUNT {
        terms.push((free(atom, Sort::Truth), 0))?;
        if rest % 2 == 1 {
            terms.push((Op::Not, 1))?;
        }
        rest /= 2;
    }
    Ok(terms.push((Op::Or, ATOM_COUNT))?)
}

fn assume_clause(alloc: Global, draft: &mut Draft, number: u32) -> bool {
    let mut terms = Vec::new(alloc);
    if push_clause(&mut terms, number).is_err() {
        return false;
    }
    assume(draft, &terms)
}

fn assume_clauses(alloc: Global, draft: &mut Draft) -> bool {
    for number in 0..CLAUSE_COUNT {
        if !assume_clause(alloc, draft, number) {
            return false;
        }
    }
    true
}

fn of_all_signs_in<'a>(alloc: Global, draft: &mut Draft<'a>) -> Option<Sequent<'a>> {
    if assume_clauses(alloc, draft) {
        conclude(alloc, draft, &[(free(ATOM_COUNT, Sort::Truth), 0)])
    } else {
        None
    }
}

/// All clauses of the six atoms, with another atom as goal.
fn of_all_signs(alloc: Global) -> Option<Sequent<'static>> {
    match draft(alloc) {
        Some(mut draft) => of_all_signs_in(alloc, &mut draft),
        None => None,
    }
}

/// Whether the clauses beside pairs take at most so many conflicts.
fn are_pairs_proved(alloc: Global, most: u64) -> bool {
    match beside_pairs(alloc) {
        Some(sequent) => is_proved(alloc, &sequent, most),
        None => false,
    }
}

/// Four clauses of two atoms are false together: no more conflicts are needed than there are clauses.
#[test]
fn proves_beside_pairs_with_few_conflicts(rt: HostRuntime) {
    assert!(rt; are_pairs_proved(rt.alloc(), 6));
}

/// Whether the clauses of all signs take at most so many conflicts.
fn are_signs_proved(alloc: Global, most: u64) -> bool {
    match of_all_signs(alloc) {
        Some(sequent) => is_proved(alloc, &sequent, most),
        None => false,
    }
}

/// Each conflict makes one clause false, and the last decision of two such may be the same atom: at least 32.
#[test]
fn proves_of_all_signs_with_few_conflicts(rt: HostRuntime) {
    assert!(rt; are_signs_proved(rt.alloc(), 64));
}

/// That each number is equal to the next one.
fn assume_links(draft: &mut Draft) -> bool {
    for number in 0..LENGTH {
        let left = free(100 + number, Sort::Number);
        let right = free(101 + number, Sort::Number);
        if !assume(draft, &[(left, 0), (right, 0), (Op::Equal, 2)]) {
            return false;
        }
    }
    true
}

/// That the products of the first number and of the last with z are equal.
fn conclude_products<'a>(alloc: Global, draft: &mut Draft<'a>) -> Option<Sequent<'a>> {
    let goal = [
        (free(100, Sort::Number), 0),
        (Z, 0),
        (Op::Times, 2),
        (free(100 + LENGTH, Sort::Number), 0),
        (Z, 0),
        (Op::Times, 2),
        (Op::Equal, 2),
    ];
    conclude(alloc, draft, &goal)
}

fn chain_in<'a>(alloc: Global, draft: &mut Draft<'a>) -> Option<Sequent<'a>> {
    if assume_links(draft) {
        conclude_products(alloc, draft)
    } else {
        None
    }
}

/// Numbers of which each is equal to the next one; the products of the first and of the last with z are equal.
fn chain(alloc: Global) -> Option<Sequent<'static>> {
    match draft(alloc) {
        Some(mut draft) => chain_in(alloc, &mut draft),
        None => None,
    }
}

/// Whether the chain takes at most so many conflicts.
fn is_chain_proved(alloc: Global, most: u64) -> bool {
    match chain(alloc) {
        Some(sequent) => is_proved(alloc, &sequent, most),
        None => false,
    }
}

#[test]
fn proves_along_a_chain(rt: HostRuntime) {
    assert!(rt; is_chain_proved(rt.alloc(), 64));
}
