//! The files beside a source that tell what is owed of it.

use crate::beside::{is_there, text_of};
use anyhow::Result;
use df_nowed::Obligations;
use df_obligation_rows::{Head, listing, sequents, unjudged};
use std::alloc::{AllocError, Global};

/// What one of the files tells.
#[derive(Clone, Copy)]
enum Part {
    /// A line for each obligation.
    Listing,
    /// The hypotheses and the goal of each.
    Sequents,
    /// A verdict on each.
    Verdicts,
}

/// The ending of the file of a part.
fn ending(part: Part) -> &'static str {
    match part {
        Part::Listing => ".obligations",
        Part::Sequents => ".sequents",
        Part::Verdicts => ".valid",
    }
}

/// Adds the lines of a file that are neither empty nor begin with `#`.
fn push_expected(lines: &mut String, text: &str) -> Result<(), AllocError> {
    for line in text.lines() {
        if !line.is_empty() && !line.starts_with('#') {
            lines.push_str(line)?;
            lines.push_str("\n")?;
        }
    }
    Ok(())
}

/// The lines of a text that are neither empty nor begin with `#`.
fn expected(alloc: Global, text: &str) -> Result<String, AllocError> {
    let mut lines = String::new(alloc);
    push_expected(&mut lines, text)?;
    Ok(lines)
}

/// Tells what came, where it is not what is expected.
fn tell_difference(
    rt: &HostRuntime,
    name: &str,
    ending: &str,
    expected: &str,
    came: &str,
) -> Result<bool> {
    if expected == came {
        return Ok(true);
    }
    println!(rt; "{name}{ending} is not what comes:\n{came}")?;
    Ok(false)
}

/// Compares what came with the text of a file, and prints it where it differs.
fn compare(rt: &HostRuntime, part: Part, name: &str, text: &str, came: &str) -> Result<bool> {
    let expected = expected(rt.alloc(), text)?;
    tell_difference(rt, name, ending(part), expected.as_str(), came)
}

/// Compares the lines of the obligations with a text.
fn is_listed(
    rt: &HostRuntime,
    name: &str,
    heads: &[Head],
    obligations: &Obligations,
    text: &str,
) -> Result<bool> {
    let came = listing(rt.alloc(), heads, obligations)?;
    compare(rt, Part::Listing, name, text, came.as_str())
}

/// Compares the sequents with a text.
fn are_sequents(
    rt: &HostRuntime,
    name: &str,
    heads: &[Head],
    obligations: &Obligations,
    text: &str,
) -> Result<bool> {
    let came = sequents(rt.alloc(), heads, obligations)?;
    compare(rt, Part::Sequents, name, text, came.as_str())
}

/// Tells what has no verdict.
fn tell_unjudged(rt: &HostRuntime, name: &str, unjudged: &str) -> Result<bool> {
    if unjudged.is_empty() {
        return Ok(true);
    }
    println!(rt; "{name}.valid has other verdicts:\n{unjudged}")?;
    Ok(false)
}

/// Looks at the verdicts of a text.
fn are_judged(
    rt: &HostRuntime,
    name: &str,
    heads: &[Head],
    obligations: &Obligations,
    text: &str,
) -> Result<bool> {
    let unjudged = unjudged(rt.alloc(), heads, obligations, text)?;
    tell_unjudged(rt, name, unjudged.as_str())
}

/// Compares a part with the text of its file.
fn is_as_told(
    rt: &HostRuntime,
    part: Part,
    name: &str,
    heads: &[Head],
    obligations: &Obligations,
    text: &str,
) -> Result<bool> {
    match part {
        Part::Listing => is_listed(rt, name, heads, obligations, text),
        Part::Sequents => are_sequents(rt, name, heads, obligations, text),
        Part::Verdicts => are_judged(rt, name, heads, obligations, text),
    }
}

/// Compares a part with its file.
fn is_in_file(
    rt: &HostRuntime,
    part: Part,
    name: &str,
    heads: &[Head],
    obligations: &Obligations,
) -> Result<bool> {
    let text = text_of(rt, name, ending(part))?;
    is_as_told(rt, part, name, heads, obligations, text.as_str())
}

/// Compares a part with its file, if there is one.
fn is_same(
    rt: &HostRuntime,
    part: Part,
    name: &str,
    heads: &[Head],
    obligations: &Obligations,
) -> Result<bool> {
    if is_there(rt, name, ending(part))? {
        is_in_file(rt, part, name, heads, obligations)
    } else {
        Ok(true)
    }
}

/// Whether a source has a file with a line for each obligation.
pub fn is_row(rt: &HostRuntime, name: &str) -> Result<bool> {
    is_there(rt, name, ending(Part::Listing))
}

/// Whether the files beside a source tell what is owed of it. Where one does not, it is told.
pub fn are_same(
    rt: &HostRuntime,
    name: &str,
    heads: &[Head],
    obligations: &Obligations,
) -> Result<bool> {
    let is_listed = is_same(rt, Part::Listing, name, heads, obligations)?;
    let are_sequents = is_same(rt, Part::Sequents, name, heads, obligations)?;
    let are_judged = is_same(rt, Part::Verdicts, name, heads, obligations)?;
    Ok(is_listed && are_sequents && are_judged)
}
