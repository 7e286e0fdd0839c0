//! The codes in what a command prints: its status, the rules that a refusal names, kinds and evidence in a report.

use std::alloc::{AllocError, Global};

fn are_digits(bytes: &[u8]) -> bool {
    for byte in bytes {
        if !byte.is_ascii_digit() {
            return false;
        }
    }
    !bytes.is_empty()
}

/// Whether a word is the number of a rule, as `E25`.
fn is_rule(word: &str) -> bool {
    match word.as_bytes() {
        [b'S' | b'E' | b'G' | b'N', digits @ ..] => are_digits(digits),
        _ => false,
    }
}

/// Whether a code is one of these.
pub fn has(codes: &[String], code: &str) -> bool {
    for one in codes {
        if one.as_str() == code {
            return true;
        }
    }
    false
}

/// Adds a code that is not there yet.
fn push_code(alloc: Global, codes: &mut Vec<String>, code: &str) -> Result<(), AllocError> {
    if has(codes, code) {
        return Ok(());
    }
    let code = String::from_str(alloc, code)?;
    Ok(codes.push(code)?)
}

fn push_rule(alloc: Global, codes: &mut Vec<String>, word: &str) -> Result<(), AllocError> {
    if is_rule(word) {
        push_code(alloc, codes, word)
    } else {
        Ok(())
    }
}

/// Adds the rules that the line of a refusal names.
fn push_rules(alloc: Global, codes: &mut Vec<String>, line: &str) -> Result<(), AllocError> {
    for word in line.split(' ') {
        push_rule(alloc, codes, word)?;
    }
    Ok(())
}

/// Adds the kind and the evidence of a failure, which stand behind its position.
fn push_failure(alloc: Global, codes: &mut Vec<String>, failure: &str) -> Result<(), AllocError> {
    for word in failure.split(' ').skip(1) {
        push_code(alloc, codes, word.strip_suffix(':').unwrap_or(word))?;
    }
    Ok(())
}

/// The failure that a line of a report tells, without its margin.
fn failure_of(line: &str) -> Option<&str> {
    let failure = line.strip_prefix("  ")?;
    match failure.as_bytes() {
        [first, ..] if first.is_ascii_digit() => Some(failure),
        _ => None,
    }
}

fn push_line(alloc: Global, codes: &mut Vec<String>, line: &str) -> Result<(), AllocError> {
    match failure_of(line) {
        Some(failure) => push_failure(alloc, codes, failure),
        None => push_rules(alloc, codes, line),
    }
}

/// Adds the codes of a report or of a refusal.
fn push_lines(alloc: Global, codes: &mut Vec<String>, text: &[u8]) -> Result<(), AllocError> {
    for line in str::from_utf8(text).unwrap_or("").lines() {
        push_line(alloc, codes, line)?;
    }
    Ok(())
}

fn push_status(alloc: Global, codes: &mut Vec<String>, status: u8) -> Result<(), AllocError> {
    let status = format!(in alloc; "{status}")?;
    push_code(alloc, codes, status.as_str())
}

/// Adds the codes of what a command of this status puts on its streams. What is put where all is well is no report of
/// failures, and no refusal.
pub fn push_codes(
    alloc: Global,
    codes: &mut Vec<String>,
    status: u8,
    out: &[u8],
    err: &[u8],
) -> Result<(), AllocError> {
    push_status(alloc, codes, status)?;
    match status {
        1 | 3 | 8 => {
            push_lines(alloc, codes, out)?;
            push_lines(alloc, codes, err)
        }
        _ => Ok(()),
    }
}
