//! Reads sources, one a line of a file, and prints what each is: its syntax tree, or how it is refused.
//!
//! The first word names the file. In a line `~n` stands for the end of a line of the source, and `~~` for `~`. Of a line
//! that begins with `:expression `, `:type ` or `:pattern ` that part is read from its first token on. A line that begins
//! with `*` has pieces between `#`, each with the number of its repetitions and a bar before it; of such a source only the
//! number of its nodes is printed. With `older` as the second word it is told instead which sources the older reader
//! answers otherwise.
#![tactic(auto)]

mod answer;
mod older;
mod printing;
mod source;

use crate::answer::{Part, answer};
use crate::older::difference;
use crate::source::source_of;
use anyhow::{Context, Result};
use std::{env, fs, io};

/// A word of the command line by its place, or else another.
fn word(rt: &HostRuntime, place: usize, other: &str) -> io::Result<String> {
    match env::args(rt)?.nth(place) {
        Some(word) => Ok(word),
        None => Ok(String::from_str(rt.alloc(), other)?),
    }
}

/// What of a line is read, and the rest of the line.
fn split(line: &str) -> (Part, &str) {
    if let Some(rest) = line.strip_prefix(":expression ") {
        (Part::Expression, rest)
    } else if let Some(rest) = line.strip_prefix(":type ") {
        (Part::Type, rest)
    } else if let Some(rest) = line.strip_prefix(":pattern ") {
        (Part::Pattern, rest)
    } else {
        (Part::File, line)
    }
}

/// Prints what the source of a line is.
fn tell_answer(rt: &HostRuntime, line: &str) -> Result<()> {
    let (part, line) = split(line);
    let source = source_of(rt.alloc(), line)?;
    let told = answer(rt.alloc(), &source, part, !line.starts_with("*"))?;
    Ok(println!(rt; "{told}")?)
}

/// Prints how the older reader answers the source of a line, if it does so otherwise.
fn tell_difference(rt: &HostRuntime, line: &str) -> Result<()> {
    let source = source_of(rt.alloc(), line)?;
    let told = difference(rt.alloc(), &source)?;
    if !told.is_empty() {
        println!(rt; "{told}: {line}")?;
    }
    Ok(())
}

fn tell(rt: &HostRuntime, line: &str, is_older: bool) -> Result<()> {
    if is_older {
        tell_difference(rt, line)
    } else {
        tell_answer(rt, line)
    }
}

fn tell_all(rt: &HostRuntime, text: &str, is_older: bool) -> Result<()> {
    for line in text.lines() {
        tell(rt, line, is_older)?;
    }
    Ok(())
}

fn main(rt: HostRuntime) -> Result<()> {
    let file = word(&rt, 1, "sources")?;
    let word = word(&rt, 2, "newer")?;
    let text = fs::read_to_string(&rt, file.as_str()).context("the sources")?;
    tell_all(&rt, text.as_str(), word.as_str() == "older")
}
