//! What a closed branch needs: the literals of it behind what is false. They are proposals: what is done with them is
//! checked.

ghost use Rattle.std.specs.Prelude.{◌≡◌, IfOk, filter};
ghost use Rattle.df_rules.specs.Known.{knows};
ghost use Rattle.df_trail.specs.Trail.{HasAll};

use df_clause::GroundClause;
use df_closure::known_of;
use df_form::Lit;
use df_rules::{Known, no_of, yes_of};
use std::alloc::{AllocError, Global};

/// What the clause of this number teaches beside known literals.
fn taught_by(clauses: &[GroundClause], known: &Known, number: usize) -> Option<Lit> {
    match clauses.get(number) {
        Some(clause) => known.only_left(&clause.literals),
        None => None,
    }
}

/// What the clauses of these numbers teach beside the list, one after another, as long as they teach.
fn taught(
    alloc: Global,
    clauses: &[GroundClause],
    list: &[Lit],
    numbers: &[usize],
) -> Result<Vec<Lit>, AllocError> {
    let mut known = known_of(alloc, list)?;
    let mut taught = Vec::new(alloc);
    for number in numbers {
        let Some(literal) = taught_by(clauses, &known, *number) else {
            return Ok(taught);
        };
        known.insert(literal)?;
        taught.push(literal)?;
    }
    Ok(taught)
}

/// Adds what makes literals false.
fn add_negations(needed: &mut Known, literals: &[Lit]) -> Result<(), AllocError> {
    for literal in literals {
        needed.insert(literal.negation())?;
    }
    Ok(())
}

/// Adds what makes literals of a clause false, and what makes it count.
fn add_clause(needed: &mut Known, clause: &GroundClause) -> Result<(), AllocError> {
    add_negations(needed, &clause.literals)?;
    if let Some(node) = clause.bound {
        needed.insert(yes_of(node))?;
        needed.insert(no_of(node))?;
    }
    Ok(())
}

/// Adds what the clause at the place needs.
fn add_reason(
    needed: &mut Known,
    clauses: &[GroundClause],
    numbers: &[usize],
    place: usize,
) -> Result<(), AllocError> {
    let Some(number) = numbers.get(place) else {
        return Ok(());
    };
    match clauses.get(*number) {
        Some(clause) => add_clause(needed, clause),
        None => Ok(()),
    }
}

/// Literals that are needed: those that make the literals false, or the last clause, and from the end on
/// those by which the clauses teach what is needed.
fn needs(
    alloc: Global,
    clauses: &[GroundClause],
    list: &[Lit],
    numbers: &[usize],
    literals: &[Lit],
) -> Result<Known, AllocError> {
    let mut taught = taught(alloc, clauses, list, numbers)?;
    let mut needed = Known::of_negations(alloc, literals)?;
    add_reason(&mut needed, clauses, numbers, taught.len())?;
    while let Some(literal) = taught.pop() {
        if needed.has(literal) {
            add_reason(&mut needed, clauses, numbers, taught.len())?;
        }
    }
    Ok(needed)
}

/// The literals of the list that are in the set.
fn held(alloc: Global, list: &[Lit], set: &Known) -> Result<Vec<Lit>, AllocError>
    ensures { IfOk result (λ held. held.items ≡ filter (knows set.now) list.now) }
{
    let mut held = Vec::new(alloc);
    for literal in list {
        if set.has(*literal) {
            held.push(*literal)?;
        }
    }
    Ok(held)
}

/// The literals of the list that are needed where clauses of these numbers teach one after another, and
/// then the last one is false, or all of the literals are.
pub(crate) fn needed(
    alloc: Global,
    clauses: &[GroundClause],
    list: &[Lit],
    numbers: &[usize],
    literals: &[Lit],
) -> Result<Vec<Lit>, AllocError>
    ensures { IfOk result (λ needed. HasAll list.now needed.items) }
{
    let set = needs(alloc, clauses, list, numbers, literals)?;
    held(alloc, list, &set)
}
