//! Verdicts on obligations that are written beside a source.

use crate::assignment::Assignment;
use crate::declarations::Head;
use crate::evaluation::{Value, values};
use crate::placing::place;
use df_form::Formula;
use df_nowed::{MethodObligations, Obligation, Obligations};
use std::alloc::{AllocError, Global};

/// Whether the formula has this truth among the values.
fn is_truth(values: &[Option<Value>], formula: Formula, truth: bool) -> bool {
    match values.get(formula) {
        Some(value) => *value == Some(Value::Truth(truth)),
        None => false,
    }
}

/// Whether all hypotheses of an obligation are true among the values, and its goal false.
fn is_refuted_by(
    values: &[Option<Value>],
    method: &MethodObligations,
    obligation: &Obligation,
) -> bool {
    for formula in method
        .known
        .as_slice()
        .iter()
        .take(obligation.hypothesis_count)
    {
        if !is_truth(values, *formula, true) {
            return false;
        }
    }
    is_truth(values, obligation.goal, false)
}

/// Whether these values of free terms make all hypotheses of an obligation true and its goal false.
fn is_refuted_under(
    alloc: Global,
    heads: &[Head],
    method: &MethodObligations,
    obligation: &Obligation,
    assignment: &Assignment,
) -> bool {
    match values(alloc, heads, assignment, &method.nodes) {
        Ok(values) => is_refuted_by(&values, method, obligation),
        Err(_) => false,
    }
}

/// Whether the values that words give do so.
fn is_refuted(
    alloc: Global,
    heads: &[Head],
    method: &MethodObligations,
    obligation: &Obligation,
    given: &str,
) -> bool {
    match Assignment::read(alloc, given) {
        Some(assignment) => is_refuted_under(alloc, heads, method, obligation, &assignment),
        None => false,
    }
}

/// Whether the words behind an obligation are a verdict on it: that it is valid, which is taken as it stands, or
/// that it is invalid, with values that refute it.
fn is_verdict(
    alloc: Global,
    heads: &[Head],
    method: &MethodObligations,
    obligation: &Obligation,
    words: &str,
) -> bool {
    if words == " valid" {
        return true;
    }
    match words.strip_prefix(" invalid") {
        Some(given) => is_refuted(alloc, heads, method, obligation, given),
        None => false,
    }
}

/// Adds the lines with verdicts.
fn push_lines<'a>(lines: &mut Vec<&'a str>, text: &'a str) -> Result<(), AllocError> {
    for line in text.lines() {
        if !line.is_empty() && !line.starts_with('#') && !line.ends_with(':') {
            lines.push(line)?;
        }
    }
    Ok(())
}

/// The lines with verdicts, and how many of them were taken.
#[derive(Drop)]
struct Lines<'a> {
    lines: Vec<&'a str>,
    taken: usize,
}

impl<'a> Lines<'a> {
    fn read(alloc: Global, text: &'a str) -> Result<Lines<'a>, AllocError> {
        let mut lines = Vec::new(alloc);
        push_lines(&mut lines, text)?;
        Ok(Lines { lines, taken: 0 })
    }

    /// Takes the next line; an empty one where none is left.
    fn take(&mut self) -> &'a str {
        match self.lines.get(self.taken) {
            Some(line) => {
                self.taken = self.taken.saturating_add(1);
                *line
            }
            None => "",
        }
    }

    fn are_taken(&self) -> bool {
        self.taken == self.lines.len()
    }
}

/// Whether the line has this place, and a verdict on the obligation there.
fn has_verdict(
    alloc: Global,
    heads: &[Head],
    method: &MethodObligations,
    obligation: &Obligation,
    line: &str,
    place: &str,
) -> bool {
    match line.strip_prefix(place) {
        Some(words) => is_verdict(alloc, heads, method, obligation, words),
        None => false,
    }
}

/// Adds that a line has no verdict on the obligation at this place.
fn push_unjudged(
    alloc: Global,
    text: &mut String,
    place: &str,
    line: &str,
) -> Result<(), AllocError> {
    let told = format!(in alloc; "{place}: {line:?} is no verdict\n")?;
    text.push_str(told.as_str())
}

/// Adds so where the line has no verdict on the obligation at this place.
fn judge_at(
    alloc: Global,
    text: &mut String,
    heads: &[Head],
    method: &MethodObligations,
    obligation: &Obligation,
    line: &str,
    place: &str,
) -> Result<(), AllocError> {
    if has_verdict(alloc, heads, method, obligation, line, place) {
        Ok(())
    } else {
        push_unjudged(alloc, text, place, line)
    }
}

/// Adds so where the line does not have the place of an obligation and a verdict on it.
fn judge(
    alloc: Global,
    text: &mut String,
    heads: &[Head],
    method: &MethodObligations,
    obligation: &Obligation,
    line: &str,
) -> Result<(), AllocError> {
    let place = place(alloc, obligation)?;
    judge_at(alloc, text, heads, method, obligation, line, place.as_str())
}

/// Adds each obligation of a method on which the next lines have no verdict.
fn judge_method(
    alloc: Global,
    text: &mut String,
    heads: &[Head],
    method: &MethodObligations,
    lines: &mut Lines,
) -> Result<(), AllocError> {
    for obligation in &method.obligations {
        let line = lines.take();
        judge(alloc, text, heads, method, obligation, line)?;
    }
    Ok(())
}

/// Adds each obligation of a program on which the lines have no verdict, in order, and whether lines are left.
fn judge_all(
    alloc: Global,
    text: &mut String,
    heads: &[Head],
    obligations: &Obligations,
    lines: &mut Lines,
) -> Result<(), AllocError> {
    for method in &obligations.methods {
        judge_method(alloc, text, heads, method, lines)?;
    }
    if lines.are_taken() {
        Ok(())
    } else {
        text.push_str("further lines\n")
    }
}

/// All of that as a text.
fn unjudged_by(
    alloc: Global,
    heads: &[Head],
    obligations: &Obligations,
    lines: &mut Lines,
) -> Result<String, AllocError> {
    let mut text = String::new(alloc);
    judge_all(alloc, &mut text, heads, obligations, lines)?;
    Ok(text)
}

/// What of the obligations of a program has no verdict in a text: a line for each obligation on which the next line of
/// the text has none, and one where lines are left. It is empty where each has one.
pub fn unjudged(
    alloc: Global,
    heads: &[Head],
    obligations: &Obligations,
    text: &str,
) -> Result<String, AllocError> {
    let mut lines = Lines::read(alloc, text)?;
    unjudged_by(alloc, heads, obligations, &mut lines)
}
