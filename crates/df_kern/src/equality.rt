//! Equalities of clauses.

ghost use Rattle.std.specs.Prelude.{◌≡◌, ◌&&◌, IfOk, OnOk};
ghost use Rattle.df_rules.specs.Congruence.{equality as equality_of, negative_equality as negative_equality_of, negative_equalities as negative_equalities_of};
ghost use Rattle.df_rules.specs.CongruenceLine.{is_paired, has_equality as has_equality_in};
ghost use Rattle.df_kern.specs.ClassesView.{class_of};

use crate::classes::Classes;
use df_form::{Lit, NodeTable, Op, Over, Pair};
use std::alloc::{AllocError, Global};

/// The sides of an equality.
fn equality(nodes: &Over, number: usize) -> Option<Pair>
    ensures { result ≡ equality_of nodes.now number }
{
    let node = nodes.get(number)?;
    match (node.op, node.parts.as_slice()) {
        (Op::Equal, [left, right]) => Some(Pair {
            left: *left,
            right: *right,
        }),
        _ => None,
    }
}

fn negative_equality(nodes: &Over, literal: Lit) -> Option<Pair>
    ensures { result ≡ negative_equality_of nodes.now literal }
{
    if literal.positive {
        return None;
    }
    equality(nodes, literal.node)
}

/// The sides of the negative equalities of a clause.
pub(crate) fn negative_equalities(
    alloc: Global,
    nodes: &Over,
    clause: &[Lit],
) -> Result<Vec<Pair>, AllocError>
    ensures { IfOk result (λ pairs. pairs.items ≡ negative_equalities_of nodes.now clause.now) }
{
    let mut pairs = Vec::new(alloc);
    for literal in clause {
        if let Some(pair) = negative_equality(nodes, *literal) {
            pairs.push(pair)?;
        }
    }
    Ok(pairs)
}

/// Whether the sides of an equality are in one class.
fn is_equality(nodes: &Over, classes: &mut Classes, literal: Lit) -> Result<bool, AllocError>
    ensures equality { IfOk result (λ yes. yes ≡ (literal.positive && is_paired (class_of classes.old) (equality_of nodes.now literal.node))) }
    ensures same { OnOk result (class_of classes.new ≡ class_of classes.old) }
{
    if !literal.positive {
        return Ok(false);
    }
    match equality(nodes, literal.node) {
        Some(pair) => classes.are_together(pair.left, pair.right),
        None => Ok(false),
    }
}

/// Whether a positive equality of the clause is in the classes.
pub(crate) fn has_equality(
    nodes: &Over,
    classes: &mut Classes,
    clause: &[Lit],
) -> Result<bool, AllocError>
    ensures equality { IfOk result (λ yes. yes ≡ has_equality_in nodes.now (class_of classes.old) clause.now) }
    ensures same { OnOk result (class_of classes.new ≡ class_of classes.old) }
{
    for literal in clause {
        if is_equality(nodes, classes, *literal)? {
            return Ok(true);
        }
    }
    Ok(false)
}
