//! Literals, and clauses made of parts.

ghost use Rattle.std.specs.Prelude.{◌≡◌, ◌∷◌, map, IfOk};
ghost use Rattle.df_form.specs.Clause.{yes, no, same_literal as same_literal_of};

use df_form::Lit;
use std::alloc::{AllocError, Global};

/// The node itself.
pub fn yes_of(node: usize) -> Lit
    ensures { result ≡ yes node }
{
    Lit {
        positive: true,
        node,
    }
}

/// The node's negation.
pub fn no_of(node: usize) -> Lit
    ensures { result ≡ no node }
{
    Lit {
        positive: false,
        node,
    }
}

/// Whether two literals are the same.
pub(crate) fn is_same(a: Lit, b: Lit) -> bool
    ensures { result ≡ same_literal_of a b }
{
    a.positive == b.positive && a.node == b.node
}

/// A first literal, and each part.
pub(crate) fn with_each(alloc: Global, first: Lit, parts: &[usize]) -> Result<Vec<Lit>, AllocError>
    ensures { IfOk result (λ clause. clause.items ≡ first ∷ map yes parts.now) }
{
    let mut clause = vec![in alloc; first]?;
    for part in parts {
        clause.push(yes_of(*part))?;
    }
    Ok(clause)
}

/// A first literal, and the negation of each part.
pub(crate) fn with_no_each(
    alloc: Global,
    first: Lit,
    parts: &[usize],
) -> Result<Vec<Lit>, AllocError>
    ensures { IfOk result (λ clause. clause.items ≡ first ∷ map no parts.now) }
{
    let mut clause = vec![in alloc; first]?;
    for part in parts {
        clause.push(no_of(*part))?;
    }
    Ok(clause)
}
