//! The defining clauses of connectives.

ghost use Rattle.std.specs.Prelude.{◌≡◌, ◌≤◌, length, IfSome, ◌∷◌, [], map, slice_get};
ghost use Rattle.df_form.specs.Clause.{yes, no};
ghost use Rattle.df_rules.specs.Connective.{not_clauses, and_clauses, or_clauses, implies_clauses, iff_clauses, of_one, of_two, equal_clause, connective_line};
ghost use Rattle.df_rules.specs.Connecting.{plain_clause, equality_of, plain_line};
ghost use Rattle.df_rules.specs.Answers.{Gives, Adds};
ghost use Rattle.df_rules.specs.Growth.{IsNumber};

use crate::bound::comparison;
use crate::literal::{no_of, with_each, with_no_each, yes_of};
use df_form::{Lit, Node, NodeTable, Op, Over, Sort};
use std::alloc::{AllocError, Global};

fn not_clause(
    alloc: Global,
    number: usize,
    parts: &[usize],
    clause: usize,
) -> Result<Option<Vec<Lit>>, AllocError>
    ensures { Gives result (of_one (λ p. slice_get (not_clauses number p) clause) parts.now) }
{
    match (parts, clause) {
        ([part], 0) => Ok(Some(vec![in alloc; no_of(number), no_of(*part)]?)),
        ([part], 1) => Ok(Some(vec![in alloc; yes_of(number), yes_of(*part)]?)),
        _ => Ok(None),
    }
}

fn and_clause(
    alloc: Global,
    number: usize,
    parts: &[usize],
    clause: usize,
) -> Result<Option<Vec<Lit>>, AllocError>
    ensures { Gives result (slice_get (and_clauses number parts.now) clause) }
{
    match parts.get(clause) {
        Some(part) => Ok(Some(vec![in alloc; no_of(number), yes_of(*part)]?)),
        None if clause == parts.len() => Ok(Some(with_no_each(alloc, yes_of(number), parts)?)),
        None => Ok(None),
    }
}

/// What one part gives an `or`.
fn part_clause(
    alloc: Global,
    number: usize,
    parts: &[usize],
    part: usize,
) -> Result<Option<Vec<Lit>>, AllocError>
    ensures { Gives result (slice_get (map (λ p. yes number ∷ no p ∷ []) parts.now) part) }
{
    match parts.get(part) {
        Some(part) => Ok(Some(vec![in alloc; yes_of(number), no_of(*part)]?)),
        None => Ok(None),
    }
}

fn or_clause(
    alloc: Global,
    number: usize,
    parts: &[usize],
    clause: usize,
) -> Result<Option<Vec<Lit>>, AllocError>
    ensures { Gives result (slice_get (or_clauses number parts.now) clause) }
{
    if clause == 0 {
        return Ok(Some(with_each(alloc, no_of(number), parts)?));
    }
    part_clause(alloc, number, parts, clause - 1)
}

fn implies_clause(
    alloc: Global,
    number: usize,
    parts: &[usize],
    clause: usize,
) -> Result<Option<Vec<Lit>>, AllocError>
    ensures { Gives result (of_two (λ a b. slice_get (implies_clauses number a b) clause) parts.now) }
{
    let [a, b] = parts else {
        return Ok(None);
    };
    match clause {
        0 => Ok(Some(vec![in alloc; no_of(number), no_of(*a), yes_of(*b)]?)),
        1 => Ok(Some(vec![in alloc; yes_of(number), yes_of(*a)]?)),
        2 => Ok(Some(vec![in alloc; yes_of(number), no_of(*b)]?)),
        _ => Ok(None),
    }
}

fn iff_clause(
    alloc: Global,
    number: usize,
    parts: &[usize],
    clause: usize,
) -> Result<Option<Vec<Lit>>, AllocError>
    ensures { Gives result (of_two (λ a b. slice_get (iff_clauses number a b) clause) parts.now) }
{
    let [a, b] = parts else {
        return Ok(None);
    };
    match clause {
        0 => Ok(Some(vec![in alloc; no_of(number), no_of(*a), yes_of(*b)]?)),
        1 => Ok(Some(vec![in alloc; no_of(number), yes_of(*a), no_of(*b)]?)),
        2 => Ok(Some(vec![in alloc; yes_of(number), yes_of(*a), yes_of(*b)]?)),
        3 => Ok(Some(vec![in alloc; yes_of(number), no_of(*a), no_of(*b)]?)),
        _ => Ok(None),
    }
}

fn plain_clause_of(
    alloc: Global,
    node: &Node,
    number: usize,
    clause: usize,
) -> Result<Option<Vec<Lit>>, AllocError>
    ensures { Gives result (plain_clause number clause node.now.op node.now.parts.items) }
{
    let parts = node.parts.as_slice();
    match node.op {
        Op::Not => not_clause(alloc, number, parts, clause),
        Op::And => and_clause(alloc, number, parts, clause),
        Op::Or => or_clause(alloc, number, parts, clause),
        Op::Implies => implies_clause(alloc, number, parts, clause),
        Op::Iff => iff_clause(alloc, number, parts, clause),
        Op::Number(_)
        | Op::Free(_)
        | Op::Plus
        | Op::Times
        | Op::Equal
        | Op::AtMost
        | Op::Of(_, _) => Ok(None),
    }
}

/// The two sides, where the node is an equality of numbers.
fn sides(nodes: &Over, number: usize) -> Option<(usize, usize)>
    ensures sides { result ≡ equality_of nodes.now number }
    ensures numbers { IfSome result (λ sides. IsNumber nodes.now sides.0 × IsNumber nodes.now sides.1) }
{
    let node = nodes.get(number)?;
    match (node.op, node.parts.as_slice()) {
        (Op::Equal, [a, b]) => match nodes.sort(*a) {
            Sort::Number => Some((*a, *b)),
            Sort::Truth | Sort::Character => None,
        },
        _ => None,
    }
}

/// A clause of an equality, which counts as the `and` of two comparisons.
fn equality_clause(
    alloc: Global,
    nodes: &mut Over,
    number: usize,
    sides: (usize, usize),
    clause: usize,
) -> Result<Option<Vec<Lit>>, AllocError>
    requires left { IsNumber nodes.old sides.0 }
    requires right { IsNumber nodes.old sides.1 }
    ensures adds { Adds nodes.old nodes.new result (equal_clause nodes.old number sides.0 sides.1 clause) }
    ensures longer { length nodes.old ≤ length nodes.new }
{
    let (a, b) = sides;
    match clause {
        0 => {
            let up = comparison(nodes, a, b)?;
            Ok(Some(vec![in alloc; no_of(number), yes_of(up)]?))
        }
        1 => {
            let down = comparison(nodes, b, a)?;
            Ok(Some(vec![in alloc; no_of(number), yes_of(down)]?))
        }
        2 => {
            let up = comparison(nodes, a, b)?;
            let down = comparison(nodes, b, a)?;
            Ok(Some(vec![in alloc; yes_of(number), no_of(up), no_of(down)]?))
        }
        _ => Ok(None),
    }
}

fn plain_clause_at(
    alloc: Global,
    nodes: &Over,
    number: usize,
    clause: usize,
) -> Result<Option<Vec<Lit>>, AllocError>
    ensures { Gives result (plain_line nodes.now number clause) }
{
    match nodes.get(number) {
        Some(node) => plain_clause_of(alloc, node, number, clause),
        None => Ok(None),
    }
}

/// The clause of this number of a connective, with the comparisons that it needs; none, and no new node,
/// where there is none. For want of memory the nodes stand as before up to those that were made.
pub fn connective_clause_of(
    alloc: Global,
    nodes: &mut Over,
    number: usize,
    clause: usize,
) -> Result<Option<Vec<Lit>>, AllocError>
    ensures adds { Adds nodes.old nodes.new result (connective_line nodes.old number clause) }
    ensures longer { length nodes.old ≤ length nodes.new }
{
    match sides(nodes, number) {
        Some(sides) => equality_clause(alloc, nodes, number, sides, clause),
        None => plain_clause_at(alloc, nodes, number, clause),
    }
}
