//! Whether the older reader answers alike.

use df_base::{Global, Names, Refusal, Stop};
use df_tok::{Tokens, tokens};
use std::alloc::AllocError;

/// How a source is refused, or nothing.
fn newer(alloc: Global, tokens: &Tokens) -> Option<Refusal> {
    match df_pdecl::parse(alloc, tokens) {
        Ok(_) => None,
        Err(Stop::Refused(refusal)) => Some(refusal),
        Err(Stop::Memory) => None,
    }
}

fn older(alloc: Global, tokens: &Tokens) -> Option<Refusal> {
    match df_npdecl::parse(alloc, tokens) {
        Ok(_) => None,
        Err(Stop::Refused(refusal)) => Some(refusal),
        Err(Stop::Memory) => None,
    }
}

fn told(alloc: Global, one: Option<Refusal>, other: Option<Refusal>) -> Result<String, AllocError> {
    match (one, other) {
        (None, None) => String::from_str(alloc, ""),
        (Some(_), None) => String::from_str(alloc, "the new one takes it"),
        (None, Some(_)) => String::from_str(alloc, "the new one refuses it"),
        (Some(one), Some(other)) => {
            if one.code == other.code && one.pos == other.pos {
                String::from_str(alloc, "")
            } else {
                let (a, b) = (one.pos, other.pos);
                format!(in alloc; "older {}:{}, newer {}:{}", a.line, a.col, b.line, b.col)
            }
        }
    }
}

fn difference_with(alloc: Global, source: &[u8], names: &mut Names) -> Result<String, AllocError> {
    if names.len() > 9 {
        return String::from_str(alloc, "memory");
    }
    match tokens(alloc, source, names) {
        Err(_) => String::from_str(alloc, ""),
        Ok(tokens) => told(alloc, older(alloc, &tokens), newer(alloc, &tokens)),
    }
}

/// What the two readers answer otherwise, or nothing.
pub(crate) fn difference(alloc: Global, source: &[u8]) -> Result<String, AllocError> {
    match Names::new(alloc) {
        Ok(mut names) => difference_with(alloc, source, &mut names),
        Err(_) => String::from_str(alloc, "memory"),
    }
}
