//! Which held literals and which pairs a collision needs.

ghost use Rattle.std.specs.Prelude.{IfOk, OnOk};
ghost use Rattle.df_cong.specs.mirror.Replay.{AreFrom};

use crate::answer::Reason;
use crate::collision::Collision;
use crate::forest::{Cause, Forest, Merge, merges_of};
use df_classes::Holding;
use df_form::{Lit, NodeTable, Over, Pair};
use std::alloc::{AllocError, Global};

/// Whether there is such a number, and it is marked.
fn is_marked(marks: &[bool], number: usize) -> bool {
    match marks.get(number) {
        Some(mark) => *mark,
        None => false,
    }
}

fn mark(marks: &mut [bool], number: usize) {
    if number < marks.len() {
        marks[number] = true;
    }
}

/// Marks the ways between parts, place by place.
fn mark_ways(forest: &Forest, marks: &mut [bool], first: &[usize], second: &[usize]) {
    for (place, left) in first.iter().enumerate() {
        if let Some(right) = second.get(place) {
            let ends = Pair {
                left: *left,
                right: *right,
            };
            forest.mark_way(marks, ends);
        }
    }
}

/// Marks the merges that a merge by equal parts needs.
fn mark_causes(nodes: &Over, forest: &Forest, marks: &mut [bool], merge: Merge) {
    if merge.cause != Cause::Parts {
        return;
    }
    if let (Some(first), Some(second)) = (nodes.get(merge.ends.left), nodes.get(merge.ends.right)) {
        mark_ways(forest, marks, &first.parts, &second.parts);
    }
}

/// Marks of the merges by which two nodes are equal. What a merge needs came before it.
fn needed_marks(
    alloc: Global,
    nodes: &Over,
    merges: &[Merge],
    ends: Pair,
) -> Result<Vec<bool>, AllocError> {
    let forest = Forest::new(alloc, nodes.len(), merges)?;
    let mut marks = vec![in alloc; false; merges.len()]?;
    forest.mark_way(&mut marks, ends);
    for (number, merge) in merges.iter().enumerate().rev() {
        if is_marked(&marks, number) {
            mark_causes(nodes, &forest, &mut marks, *merge);
        }
    }
    Ok(marks)
}

/// Marks the literals of marked merges.
fn mark_literals(merges: &[Merge], marks: &[bool], literals: &mut [bool]) {
    for (number, merge) in merges.iter().enumerate() {
        if let Cause::Literal(place) = merge.cause {
            if is_marked(marks, number) {
                mark(literals, place);
            }
        }
    }
}

/// Marks of the literals that a collision needs, among so many.
fn literal_marks(
    alloc: Global,
    merges: &[Merge],
    marks: &[bool],
    collision: Collision,
    count: usize,
) -> Result<Vec<bool>, AllocError> {
    let mut literals = vec![in alloc; false; count]?;
    mark_literals(merges, marks, &mut literals);
    if let Some(place) = collision.first {
        mark(&mut literals, place);
    }
    if let Some(place) = collision.second {
        mark(&mut literals, place);
    }
    Ok(literals)
}

/// The pairs of marked merges, in their order.
fn marked_pairs(alloc: Global, merges: &[Merge], marks: &[bool]) -> Result<Vec<Pair>, AllocError> {
    let mut pairs = Vec::new(alloc);
    for (number, merge) in merges.iter().enumerate() {
        if merge.cause == Cause::Parts && is_marked(marks, number) {
            pairs.push(merge.ends)?;
        }
    }
    Ok(pairs)
}

/// Keeps the literal of a number beside others.
fn keep(kept: &mut Vec<Lit>, literals: &[Lit], place: usize) -> Result<(), AllocError>
    requires { AreFrom literals.now kept.old.items }
    ensures { OnOk result (AreFrom literals.now kept.new.items) }
{
    let Some(literal) = literals.get(place) else {
        return Ok(());
    };
    kept.push(*literal)?;
    Ok(())
}

/// Keeps it where it is marked.
fn keep_marked(
    kept: &mut Vec<Lit>,
    literals: &[Lit],
    marks: &[bool],
    place: usize,
) -> Result<(), AllocError>
    requires { AreFrom literals.now kept.old.items }
    ensures { OnOk result (AreFrom literals.now kept.new.items) }
{
    if !is_marked(marks, place) {
        return Ok(());
    }
    keep(kept, literals, place)
}

/// The marked ones of some literals.
fn marked_literals(alloc: Global, literals: &[Lit], marks: &[bool]) -> Result<Vec<Lit>, AllocError>
    ensures { IfOk result (λ kept. AreFrom literals.now kept.items) }
{
    let mut kept = Vec::new(alloc);
    for place in 0..literals.len() {
        keep_marked(&mut kept, literals, marks, place)?;
    }
    Ok(kept)
}

/// The marked ones of the held literals.
fn marked_held(alloc: Global, holding: &Holding, marks: &[bool]) -> Result<Vec<Lit>, AllocError>
    ensures { IfOk result (λ kept. AreFrom holding.now.held.items kept.items) }
{
    marked_literals(alloc, &holding.held, marks)
}

/// The held literals and the pairs that a collision needs.
pub(crate) fn explanation(
    alloc: Global,
    nodes: &Over,
    holding: &Holding,
    collision: Collision,
) -> Result<Reason, AllocError>
    ensures { IfOk result (λ reason. AreFrom holding.now.held.items reason.literals.items) }
{
    let merges = merges_of(alloc, nodes, holding)?;
    let marks = needed_marks(alloc, nodes, &merges, collision.ends)?;
    let literals = literal_marks(alloc, &merges, &marks, collision, holding.held.len())?;
    Ok(Reason {
        literals: marked_held(alloc, holding, &literals)?,
        pairs: marked_pairs(alloc, &merges, &marks)?,
    })
}
