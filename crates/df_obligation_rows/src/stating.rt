//! The sequents of the obligations of a program, in words.

use crate::declarations::Head;
use crate::placing::{are_named, place, push_name_of_some};
use crate::term::{text_of, texts};
use df_nowed::{MethodObligations, Obligation, Obligations};
use std::alloc::{AllocError, Global};

/// Adds the line of a formula that is known.
fn push_hypothesis(text: &mut String, formula: &str) -> Result<(), AllocError> {
    text.push_str("have ")?;
    text.push_str(formula)?;
    text.push_str("\n")
}

/// Adds a line for each formula that is known from one place on, up to another.
fn push_known(
    text: &mut String,
    texts: &[String],
    method: &MethodObligations,
    from: usize,
    to: usize,
) -> Result<(), AllocError> {
    for place in from..to {
        if let Some(formula) = method.known.as_slice().get(place) {
            push_hypothesis(text, text_of(texts, *formula))?;
        }
    }
    Ok(())
}

/// Adds the line of a goal at a place.
fn push_formula(text: &mut String, place: &str, formula: &str) -> Result<(), AllocError> {
    text.push_str("show ")?;
    text.push_str(place)?;
    text.push_str(": ")?;
    text.push_str(formula)?;
    text.push_str("\n")
}

/// Adds the line of a goal.
fn push_goal(
    alloc: Global,
    text: &mut String,
    texts: &[String],
    obligation: &Obligation,
) -> Result<(), AllocError> {
    let place = place(alloc, obligation)?;
    push_formula(text, place.as_str(), text_of(texts, obligation.goal))
}

/// Adds the sequents of a method whose nodes have these texts. The hypotheses of an obligation are all that stand
/// before its goal.
fn push_with_texts(
    alloc: Global,
    text: &mut String,
    texts: &[String],
    method: &MethodObligations,
) -> Result<(), AllocError> {
    let mut known = 0;
    for obligation in &method.obligations {
        push_known(text, texts, method, known, obligation.hypothesis_count)?;
        push_goal(alloc, text, texts, obligation)?;
        known = obligation.hypothesis_count;
    }
    Ok(())
}

/// Adds the sequents of a method.
fn push_method(
    alloc: Global,
    text: &mut String,
    heads: &[Head],
    method: &MethodObligations,
) -> Result<(), AllocError> {
    let texts = texts(alloc, heads, &method.nodes)?;
    push_with_texts(alloc, text, &texts, method)
}

/// Adds a line for each hypothesis and each goal of the obligations of a program.
pub(crate) fn push_sequents(
    alloc: Global,
    text: &mut String,
    heads: &[Head],
    obligations: &Obligations,
) -> Result<(), AllocError> {
    let are_named = are_named(obligations);
    for method in &obligations.methods {
        push_name_of_some(text, heads, method, are_named)?;
        push_method(alloc, text, heads, method)?;
    }
    Ok(())
}

/// A line for each hypothesis and each goal of the obligations of a program.
pub fn sequents(
    alloc: Global,
    heads: &[Head],
    obligations: &Obligations,
) -> Result<String, AllocError> {
    let mut text = String::new(alloc);
    push_sequents(alloc, &mut text, heads, obligations)?;
    Ok(text)
}
