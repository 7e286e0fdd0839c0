//! Two closed sides.

ghost use Rattle.std.specs.Prelude.{◌≡◌, ◌≤◌, ◌++◌, IfOk, OnOk, OnErr, map, length};
ghost use Rattle.df_form.specs.Clause.{negation, is_among};
ghost use Rattle.df_logbuild.specs.Front.{IsFront};
ghost use Rattle.df_trail.specs.Trail.{others_of, JoinsSides};

use crate::decision::Conflict;
use df_form::Lit;
use df_logbuild::Derivation;
use std::alloc::{AllocError, Global};

/// Whether the literal is one of the list.
pub fn holds(literals: &[Lit], literal: Lit) -> bool
    ensures { result ≡ is_among literals.now literal }
{
    for other in literals {
        if *other == literal {
            return true;
        }
    }
    false
}

/// The clause that the literals are not all true.
pub fn negations(alloc: Global, literals: &[Lit]) -> Result<Vec<Lit>, AllocError>
    ensures { IfOk result (λ clause. clause.items ≡ map negation literals.now) }
{
    let mut clause = Vec::new(alloc);
    for literal in literals {
        clause.push(literal.negation())?;
    }
    Ok(clause)
}

/// Adds the literals but the one.
fn add_others(kept: &mut Vec<Lit>, literals: &[Lit], literal: Lit) -> Result<(), AllocError>
    ensures { OnOk result (kept.new.items ≡ kept.old.items ++ others_of literal literals.now) }
{
    for other in literals {
        if *other != literal {
            kept.push(*other)?;
        }
    }
    Ok(())
}

/// Adds that what both sides of a literal need, but for it, is not all true: the one conflict is of its
/// negation, the other one of the literal. An error adds nothing.
pub(crate) fn join(
    alloc: Global,
    derivation: &mut Derivation,
    literal: Lit,
    other: &Conflict,
    conflict: &Conflict,
) -> Result<Conflict, AllocError>
    ensures joins { IfOk result (λ joined. JoinsSides literal other.now conflict.now derivation.old derivation.new joined) }
    ensures number { IfOk result (λ joined. joined.number ≡ derivation.old.clauses) }
    ensures nodes { derivation.new.nodes ≡ derivation.old.nodes }
    ensures longer { length derivation.old.lines.items ≤ length derivation.new.lines.items }
    ensures unchanged { OnErr result (derivation.new.lines.items ≡ derivation.old.lines.items) }
    ensures uncounted { OnErr result (derivation.new.clauses ≡ derivation.old.clauses) }
    ensures grows { IsFront derivation.old.lines.items derivation.new.lines.items }
{
    let mut needed = Vec::new(alloc);
    add_others(&mut needed, &other.needed, literal.negation())?;
    add_others(&mut needed, &conflict.needed, literal)?;
    let conclusion = negations(alloc, &needed)?;
    let number = derivation.propagate(vec![in alloc; other.number, conflict.number]?, conclusion)?;
    Ok(Conflict { number, needed })
}
