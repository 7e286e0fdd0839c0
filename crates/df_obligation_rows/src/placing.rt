//! The lines of the obligations of a program.

use crate::declarations::{Head, name_of};
use df_nowed::{MethodObligations, Obligation, Obligations};
use std::alloc::{AllocError, Global};

/// The place and the kind of an obligation.
pub(crate) fn place(alloc: Global, obligation: &Obligation) -> Result<String, AllocError> {
    let line = obligation.pos.line;
    let col = obligation.pos.col;
    let kind = obligation.kind.word();
    format!(in alloc; "{line}:{col} {kind}")
}

/// Whether a line with the name stands in front of the lines of a method: where several methods have some.
pub(crate) fn are_named(obligations: &Obligations) -> bool {
    let mut count: u64 = 0;
    for method in &obligations.methods {
        if !method.obligations.is_empty() {
            count = count.saturating_add(1);
        }
    }
    count > 1
}

/// Adds the line with the name of a method.
fn push_name(
    text: &mut String,
    heads: &[Head],
    method: &MethodObligations,
) -> Result<(), AllocError> {
    text.push_str(name_of(heads, method.declaration))?;
    text.push_str(":\n")
}

/// Adds the line of an obligation.
fn push_place(alloc: Global, text: &mut String, obligation: &Obligation) -> Result<(), AllocError> {
    let place = place(alloc, obligation)?;
    text.push_str(place.as_str())?;
    text.push_str("\n")
}

/// Adds a line for each obligation of a method.
fn push_places(
    alloc: Global,
    text: &mut String,
    method: &MethodObligations,
) -> Result<(), AllocError> {
    for obligation in &method.obligations {
        push_place(alloc, text, obligation)?;
    }
    Ok(())
}

/// Adds the name of a method, where it stands in front of its lines.
pub(crate) fn push_name_of_some(
    text: &mut String,
    heads: &[Head],
    method: &MethodObligations,
    are_named: bool,
) -> Result<(), AllocError> {
    if are_named && !method.obligations.is_empty() {
        push_name(text, heads, method)
    } else {
        Ok(())
    }
}

/// Adds a line for each obligation of each method.
fn push_listing(
    alloc: Global,
    text: &mut String,
    heads: &[Head],
    obligations: &Obligations,
) -> Result<(), AllocError> {
    let are_named = are_named(obligations);
    for method in &obligations.methods {
        push_name_of_some(text, heads, method, are_named)?;
        push_places(alloc, text, method)?;
    }
    Ok(())
}

/// A line for each obligation of a program, in the order of evaluation.
pub fn listing(
    alloc: Global,
    heads: &[Head],
    obligations: &Obligations,
) -> Result<String, AllocError> {
    let mut text = String::new(alloc);
    push_listing(alloc, &mut text, heads, obligations)?;
    Ok(text)
}
