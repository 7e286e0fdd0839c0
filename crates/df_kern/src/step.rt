//! The lines that are neither connectives, schemas, propagation nor arithmetic.

ghost use Rattle.std.specs.Prelude.{◌≡◌, ◌<◌, ◌≤◌, ◌+ℤ◌, pos, length, IfOk, ◌∷◌, [], slice_get, Some};
ghost use Rattle.std.specs.Bool.{OnTrue};
ghost use Rattle.std.specs.Option.{option_map};
ghost use Rattle.df_form.specs.Node.{node_of, same_sort};
ghost use Rattle.df_form.specs.SequentView.{sequent_of};
ghost use Rattle.df_form.specs.World.{world_of};
ghost use Rattle.df_form.specs.Clause.{yes, no};
ghost use Rattle.df_row.specs.RowView.{narrow};
ghost use Rattle.df_rules.specs.Derivation.{split_line, made_line, is_number as is_number_of, is_undeclared as is_undeclared_in, is_unknown as is_unknown_in, is_foreign as is_foreign_in};
ghost use Rattle.df_rules.specs.Answers.{Gives, Adds, Makes};

use crate::bound::{at_least_of, at_most_of};
use df_form::{Arena, Lit, Node, NodeTable, Op, Over, Sequent, Sort, World};
use df_lang::Ty;
use df_rules::{no_of, yes_of};
use std::alloc::{AllocError, Global};

/// A hypothesis.
pub(crate) fn hypothesis_clause(
    alloc: Global,
    sequent: &Sequent,
    number: usize,
) -> Result<Option<Vec<Lit>>, AllocError>
    ensures { Gives result (option_map (λ h. yes h ∷ []) (slice_get (sequent_of sequent.now).hypotheses number)) }
{
    match sequent.hypotheses.as_slice().get(number) {
        Some(formula) => Ok(Some(vec![in alloc; yes_of(*formula)]?)),
        None => Ok(None),
    }
}

/// The negated goal.
pub(crate) fn goal_clause(alloc: Global, sequent: &Sequent) -> Result<Option<Vec<Lit>>, AllocError>
    ensures { Gives result (Some (no (sequent_of sequent.now).goal ∷ [])) }
{
    Ok(Some(vec![in alloc; no_of(sequent.goal)]?))
}

/// The next number, where it has 128 bits.
fn next_of(bound: i128) -> Option<i128>
    ensures { result ≡ narrow (bound +ℤ pos 1) }
{
    bound.checked_add(1)
}

/// A number is at most a bound, or at least the next number.
pub(crate) fn split_clause(
    alloc: Global,
    nodes: &mut Over,
    number: usize,
    bound: i128,
) -> Result<Option<Vec<Lit>>, AllocError>
    ensures adds { Adds nodes.old nodes.new result (split_line nodes.old number bound) }
    ensures longer { length nodes.old ≤ length nodes.new }
{
    let Some(next) = next_of(bound) else {
        return Ok(None);
    };
    if !is_number(nodes, number) {
        return Ok(None);
    }
    let below = at_most_of(nodes, number, bound)?;
    let above = at_least_of(nodes, next, number)?;
    Ok(Some(vec![in alloc; yes_of(below), yes_of(above)]?))
}

fn is_number(nodes: &Over, number: usize) -> bool
    ensures { result ≡ is_number_of nodes.now number }
{
    number < nodes.len() && is_numeric(nodes.sort(number))
}

fn is_numeric(sort: Sort) -> bool
    ensures { result ≡ same_sort sort Sort.Number }
{
    match sort {
        Sort::Number => true,
        Sort::Truth | Sort::Character => false,
    }
}

/// Whether no newtype has this number.
fn is_undeclared(world: World, number: usize) -> bool
    ensures { result ≡ is_undeclared_in (world_of world.entry) number }
{
    match world.interval(number) {
        Some(_) => false,
        None => true,
    }
}

/// Whether the type is none of the program.
fn is_unknown(world: World, ty: Ty) -> bool
    ensures { result ≡ is_unknown_in (world_of world.entry) ty }
{
    match ty {
        Ty::Newtype(number) => is_undeclared(world, number),
        Ty::Int | Ty::Nat | Ty::Bool | Ty::Char => false,
    }
}

/// Whether it is a free term, or tests a type that is none of the program.
fn is_foreign(world: World, op: Op) -> bool
    ensures { result ≡ is_foreign_in (world_of world.entry) op }
{
    match op {
        Op::Free(_) => true,
        Op::Of(_, payload) => is_unknown(world, payload.ty()),
        Op::Number(_)
        | Op::Plus
        | Op::Times
        | Op::Equal
        | Op::AtMost
        | Op::Not
        | Op::And
        | Op::Or
        | Op::Implies
        | Op::Iff => false,
    }
}

/// Makes a node that differs from all before. Whether it could.
pub(crate) fn make(world: World, nodes: &mut Over, node: &Node) -> Result<bool, AllocError>
    ensures makes { Makes nodes.old nodes.new result (made_line (world_of world.entry) nodes.old (node_of node.now)) }
    ensures longer { IfOk result (λ made. OnTrue made (length nodes.old < length nodes.new)) }
{
    if is_foreign(world, node.op) || !nodes.admits(node.op, &node.parts) {
        return Ok(false);
    }
    let before = nodes.len();
    let number = nodes.add(node.op, &node.parts)?;
    Ok(number == before)
}
