//! Congruence.

ghost use Rattle.std.specs.Prelude.{◌≡◌, IfOk, OnOk};
ghost use Rattle.std.specs.Option.{is_some};
ghost use Rattle.std.specs.Cmp.Lexicographic.{pointwise};
ghost use Rattle.df_rules.specs.Classes.{is_together};
ghost use Rattle.df_rules.specs.CongruenceLine.{is_congruent as is_congruent_pair, closes as closes_by, congruence_line};
ghost use Rattle.df_kern.specs.ClassesView.{class_of};
ghost use Rattle.df_kern.specs.Closing.{Closes};

use crate::classes::Classes;
use crate::equality::{has_equality, negative_equalities};
use crate::number::{has_two_numbers, members};
use crate::opposite::has_opposites;
use df_form::{Lit, NodeTable, Over, Pair};
use std::alloc::{AllocError, Global};

/// Whether arguments are in one class place by place.
fn are_together(
    classes: &mut Classes,
    first: &[usize],
    second: &[usize],
) -> Result<bool, AllocError>
    ensures together { IfOk result (λ yes. yes ≡ pointwise (is_together (class_of classes.old)) first.now second.now) }
    ensures same { OnOk result (class_of classes.new ≡ class_of classes.old) }
{
    if first.len() != second.len() {
        return Ok(false);
    }
    for (place, number) in first.iter().enumerate() {
        let Some(other) = second.get(place) else {
            return Ok(false);
        };
        if !classes.are_together(*number, *other)? {
            return Ok(false);
        }
    }
    Ok(true)
}

/// Whether two nodes are of one operation, with arguments in one class.
#[tactic(auto, unfolding(df_form::specs::Symbol::same_symbol))]
fn is_congruent(nodes: &Over, classes: &mut Classes, pair: Pair) -> Result<bool, AllocError>
    ensures congruent { IfOk result (λ yes. yes ≡ is_congruent_pair nodes.now (class_of classes.old) pair) }
    ensures same { OnOk result (class_of classes.new ≡ class_of classes.old) }
{
    match (nodes.get(pair.left), nodes.get(pair.right)) {
        (Some(first), Some(second)) if first.op == second.op => are_together(
            classes,
            &first.parts,
            &second.parts,
        ),
        _ => Ok(false),
    }
}

/// Closes the classes by pairs, where each is congruent in its turn.
fn close(nodes: &Over, classes: &mut Classes, pairs: &[Pair]) -> Result<bool, AllocError>
    ensures { IfOk result (Closes nodes.now (class_of classes.old) (class_of classes.new) pairs.now) }
{
    for pair in pairs {
        if !is_congruent(nodes, classes, *pair)? {
            return Ok(false);
        }
        classes.join(*pair)?;
    }
    Ok(true)
}

/// Whether the classes, whose nodes these are, close the clause.
fn closes(
    alloc: Global,
    nodes: &Over,
    classes: &mut Classes,
    clause: &[Lit],
    members: &[usize],
) -> Result<bool, AllocError>
    ensures { IfOk result (λ yes. yes ≡ closes_by nodes.now clause.now members.now (class_of classes.old)) }
{
    if has_equality(nodes, classes, clause)? || has_opposites(alloc, classes, clause)? {
        return Ok(true);
    }
    has_two_numbers(alloc, nodes, classes, members)
}

/// Whether the conclusion holds by congruence, with these pairs in their order.
pub(crate) fn is_congruence(
    alloc: Global,
    nodes: &Over,
    conclusion: &[Lit],
    pairs: &[Pair],
) -> Result<bool, AllocError>
    ensures { IfOk result (λ yes. yes ≡ is_some (congruence_line nodes.now conclusion.now pairs.now)) }
{
    if !nodes.are_literals(conclusion) {
        return Ok(false);
    }
    let equalities = negative_equalities(alloc, nodes, conclusion)?;
    let mut classes = Classes::new(alloc);
    classes.join_all(&equalities)?;
    if !close(nodes, &mut classes, pairs)? {
        return Ok(false);
    }
    let members = members(alloc, &equalities, pairs)?;
    closes(alloc, nodes, &mut classes, conclusion, &members)
}
