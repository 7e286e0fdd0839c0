//! The newtypes and the sequents of a program, for those who check its log.

use crate::declarations::Head;
use crate::stating::push_sequents;
use df_nowed::Obligations;
use std::alloc::{AllocError, Global};

/// Adds the line of a newtype: its name and its ends.
fn push_newtype(
    alloc: Global,
    text: &mut String,
    name: &str,
    low: i128,
    high: i128,
) -> Result<(), AllocError> {
    let line = format!(in alloc; "newtype {name} {low} {high}\n")?;
    text.push_str(line.as_str())
}

/// Adds a line for each newtype.
fn push_newtypes(alloc: Global, text: &mut String, heads: &[Head]) -> Result<(), AllocError> {
    for head in heads {
        if let Some((low, high)) = head.ends {
            push_newtype(alloc, text, head.name, low, high)?;
        }
    }
    Ok(())
}

/// A line for each newtype of a program, and then for each hypothesis and each goal of its obligations.
pub fn sheet(
    alloc: Global,
    heads: &[Head],
    obligations: &Obligations,
) -> Result<String, AllocError> {
    let mut text = String::new(alloc);
    push_newtypes(alloc, &mut text, heads)?;
    push_sequents(alloc, &mut text, heads, obligations)?;
    Ok(text)
}
