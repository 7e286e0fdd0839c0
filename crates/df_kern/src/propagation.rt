//! Unit propagation.

ghost use Rattle.std.specs.Prelude.{◌≡◌, List, IfOk, map, slice_get};
ghost use Rattle.std.specs.Option.{is_some, option_map};
ghost use Rattle.df_form.specs.declared.log.Lit.{Lit};
ghost use Rattle.df_rules.specs.Propagation.{propagation_line};
ghost use Rattle.df_rules.specs.Known.{IsSetOf};
ghost use Rattle.df_rules.specs.Learning.{Learns, refutes};

use df_form::{Lit, NodeTable, Over};
use df_rules::Known;
use std::alloc::{AllocError, Global};

fn clause_at(clauses: &[Vec<Lit>], number: usize) -> Option<&[Lit]>
    ensures { option_map (λ clause. clause.now) result ≡ slice_get (map (λ clause. clause.items) clauses.now) number }
{
    match clauses.get(number) {
        Some(clause) => Some(clause.as_slice()),
        None => None,
    }
}

/// The literals that are known after clauses by their numbers, each of which leaves one; none where a
/// clause leaves another number of them, or isn't there.
fn learn(known: &mut Known, clauses: &[Vec<Lit>], numbers: &[usize]) -> Result<bool, AllocError>
    ensures { IfOk result (λ all. (literals : List Lit) → IsSetOf literals known.old → Learns literals (map (λ clause. clause.items) clauses.now) numbers.now known.new all) }
{
    for number in numbers {
        let Some(clause) = clause_at(clauses, *number) else {
            return Ok(false);
        };
        let Some(literal) = known.only_left(clause) else {
            return Ok(false);
        };
        known.insert(literal)?;
    }
    Ok(true)
}

/// Whether nothing is left of the clause of a number.
fn is_refuted(known: &Known, clauses: &[Vec<Lit>], number: usize) -> bool
    ensures { (literals : List Lit) → IsSetOf literals known.now → result ≡ refutes literals (slice_get (map (λ clause. clause.items) clauses.now) number) }
{
    match clause_at(clauses, number) {
        Some(clause) => known.refutes(clause),
        None => false,
    }
}

/// Whether the conclusion follows from the clauses of these numbers by unit propagation.
pub(crate) fn is_propagation(
    alloc: Global,
    nodes: &Over,
    clauses: &[Vec<Lit>],
    numbers: &[usize],
    conclusion: &[Lit],
) -> Result<bool, AllocError>
    ensures { IfOk result (λ yes. yes ≡ is_some (propagation_line nodes.now (map (λ clause. clause.items) clauses.now) numbers.now conclusion.now)) }
{
    if !nodes.are_literals(conclusion) {
        return Ok(false);
    }
    let Some((last, others)) = numbers.split_last() else {
        return Ok(false);
    };
    let mut known = Known::of_negations(alloc, conclusion)?;
    if !learn(&mut known, clauses, others)? {
        return Ok(false);
    }
    Ok(is_refuted(&known, clauses, *last))
}
