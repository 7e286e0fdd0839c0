//! Negative and positive literals of one class.

ghost use Rattle.std.specs.Prelude.{◌≡◌, ◌&&◌, ◌||◌, ◌==◌, not, ℕ, IfOk, OnOk};
ghost use Rattle.std.specs.List.{list_any};
ghost use Rattle.std.specs.Ordering.{nat_cmp};
ghost use Rattle.std.specs.BTreeSet.{contains};
ghost use Rattle.df_rules.specs.CongruenceLine.{has_positive, has_opposites as has_opposites_in};
ghost use Rattle.df_kern.specs.ClassesView.{class_of};

use crate::classes::Classes;
use df_form::Lit;
use std::alloc::{AllocError, Global};
use std::collections::BTreeSet;

/// The class of a positive literal, beside others.
fn add_positive(
    classes: &mut Classes,
    set: &mut BTreeSet<usize>,
    literal: Lit,
) -> Result<(), AllocError>
    ensures more { OnOk result ((c : ℕ) → contains nat_cmp set.new c ≡ ((literal.positive && class_of classes.old literal.node == c) || contains nat_cmp set.old c)) }
    ensures same { OnOk result (class_of classes.new ≡ class_of classes.old) }
{
    if literal.positive {
        let class = classes.least(literal.node)?;
        set.insert(class)?;
    }
    Ok(())
}

/// The classes of the clause's positive literals.
fn positives(
    alloc: Global,
    classes: &mut Classes,
    clause: &[Lit],
) -> Result<BTreeSet<usize>, AllocError>
    ensures positives { IfOk result (λ set. (c : ℕ) → contains nat_cmp set c ≡ has_positive (class_of classes.old) clause.now c) }
    ensures same { OnOk result (class_of classes.new ≡ class_of classes.old) }
{
    let mut set = BTreeSet::new(alloc);
    for literal in clause {
        add_positive(classes, &mut set, *literal)?;
    }
    Ok(set)
}

/// Whether the literal is negative, and its class is one of these.
fn is_opposite(
    classes: &mut Classes,
    positives: &BTreeSet<usize>,
    literal: Lit,
) -> Result<bool, AllocError>
    ensures opposite { IfOk result (λ yes. yes ≡ (not literal.positive && contains nat_cmp positives.now (class_of classes.old literal.node))) }
    ensures same { OnOk result (class_of classes.new ≡ class_of classes.old) }
{
    if literal.positive {
        return Ok(false);
    }
    let class = classes.least(literal.node)?;
    Ok(positives.contains(&class))
}

/// Whether a negative literal of the clause is of one of these classes.
fn has_opposite(
    classes: &mut Classes,
    positives: &BTreeSet<usize>,
    clause: &[Lit],
) -> Result<bool, AllocError>
    ensures opposite { IfOk result (λ yes. yes ≡ list_any (λ (l : Lit). not l.positive && contains nat_cmp positives.now (class_of classes.old l.node)) clause.now) }
    ensures same { OnOk result (class_of classes.new ≡ class_of classes.old) }
{
    for literal in clause {
        if is_opposite(classes, positives, *literal)? {
            return Ok(true);
        }
    }
    Ok(false)
}

/// Whether a negative and a positive literal of the clause are in one class.
pub(crate) fn has_opposites(
    alloc: Global,
    classes: &mut Classes,
    clause: &[Lit],
) -> Result<bool, AllocError>
    ensures opposites { IfOk result (λ yes. yes ≡ has_opposites_in (class_of classes.old) clause.now) }
    ensures same { OnOk result (class_of classes.new ≡ class_of classes.old) }
{
    let positives = positives(alloc, classes, clause)?;
    has_opposite(classes, &positives, clause)
}
