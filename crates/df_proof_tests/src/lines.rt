//! Logs by their lines, as the text of logs has them, with semicolons between.

use df_cases::trimmed;
use df_form::Step;
use df_logtext::read;
use std::alloc::{AllocError, Global};

/// The names of the newtypes of the cases, and of one that is not declared.
const NAMES: [&str; 3] = ["i8", "byte", "other"];

fn push_name(alloc: Global, names: &mut Vec<String>, name: &str) -> bool {
    match String::from_str(alloc, name) {
        Ok(name) => names.push(name).is_ok(),
        Err(_) => false,
    }
}

fn push_names(alloc: Global, names: &mut Vec<String>) -> bool {
    for name in &NAMES {
        if !push_name(alloc, names, *name) {
            return false;
        }
    }
    true
}

fn push_line(text: &mut String, line: &str) -> Result<(), AllocError> {
    if line.is_empty() {
        return Ok(());
    }
    text.push_str(line)?;
    text.push_str("\n")
}

fn push_lines(text: &mut String, lines: &str) -> Result<(), AllocError> {
    for line in lines.split(';') {
        push_line(text, trimmed(line))?;
    }
    Ok(())
}

/// Adds the text of a log of one part, of the first lines and the last ones.
fn push_log(text: &mut String, first: &str, last: &str) -> Result<(), AllocError> {
    text.push_str("dfylog 1\no 1\n")?;
    push_lines(text, first)?;
    push_lines(text, last)?;
    text.push_str(".\nend\n")
}

fn last_part(alloc: Global, names: &[String], text: &str) -> Option<Vec<Step>> {
    match read(alloc, names, text.as_bytes()) {
        Ok(mut parts) => parts.pop(),
        Err(_) => None,
    }
}

fn part_of(alloc: Global, text: &str) -> Option<Vec<Step>> {
    let mut names = Vec::new(alloc);
    if push_names(alloc, &mut names) {
        last_part(alloc, &names, text)
    } else {
        None
    }
}

/// The steps of the first lines and the last ones; nothing where one is no line of a log.
pub(crate) fn steps_of(alloc: Global, first: &str, last: &str) -> Option<Vec<Step>> {
    let mut text = String::new(alloc);
    if push_log(&mut text, first, last).is_err() {
        return None;
    }
    part_of(alloc, text.as_str())
}
