//! Reads an `.expected` file.

use crate::example::{Example, Failing, File, Made, Try};
use crate::text::{push_times, unescaped};
use anyhow::{Context, Result, bail};
use std::alloc::Global;

/// What a line says: a word, how many times its text stands, and that text.
#[derive(Clone, Copy)]
struct Line<'a> {
    word: &'a str,
    times: u64,
    text: &'a str,
}

fn split(line: &str) -> Result<Line<'_>> {
    let (front, text) = line.split_once(' ').unwrap_or((line, ""));
    match front.split_once('*') {
        None => Ok(Line {
            word: front,
            times: 1,
            text,
        }),
        Some((word, times)) => Ok(Line {
            word,
            times: times.parse::<u64>()?,
            text,
        }),
    }
}

/// A word with its escapes.
fn word(alloc: Global, text: &str) -> Result<String> {
    let bytes = unescaped(alloc, text)?;
    Ok(String::from_utf8(bytes)?)
}

fn push_word(alloc: Global, words: &mut Vec<String>, text: &str) -> Result<()> {
    let word = word(alloc, text)?;
    Ok(words.push(word)?)
}

fn push_words(alloc: Global, words: &mut Vec<String>, line: &str) -> Result<()> {
    for text in line.split(' ').skip(1) {
        push_word(alloc, words, text)?;
    }
    Ok(())
}

/// The words of a command, each of which stands behind a blank.
fn words(alloc: Global, line: &str) -> Result<Vec<String>> {
    let mut words = Vec::new(alloc);
    push_words(alloc, &mut words, line)?;
    Ok(words)
}

/// A call of this number that fails; of a write, when it took so many bytes.
fn failing_call(device: &str, call: u64, taken: &str) -> Result<Failing> {
    if device == "load" {
        return Ok(Failing::Load(call));
    }
    let taken = taken.parse::<usize>()?;
    if device == "out" {
        Ok(Failing::Out(call, taken))
    } else if device == "err" {
        Ok(Failing::Err(call, taken))
    } else {
        bail!("what fails is load, out or err")
    }
}

fn failing(text: &str) -> Result<Failing> {
    let mut parts = text.split(' ');
    let device = parts.next().unwrap_or("");
    let call = parts.next().unwrap_or("").parse::<u64>()?;
    failing_call(device, call, parts.next().unwrap_or(""))
}

/// Adds the text of a line so many times as it says.
fn push_line(alloc: Global, bytes: &mut Vec<u8>, text: &str, times: u64) -> Result<()> {
    let more = unescaped(alloc, text)?;
    Ok(push_times(bytes, &more, times)?)
}

fn take_status(tried: &mut Try, text: &str) -> Result<()> {
    tried.status = text.parse::<u8>()?;
    Ok(())
}

fn take_failing(tried: &mut Try, text: &str) -> Result<()> {
    let failing = failing(text)?;
    Ok(tried.failing.push(failing)?)
}

/// Takes a line that says more of a try.
fn take_more(alloc: Global, tried: &mut Try, line: &Line) -> Result<()> {
    let word = line.word;
    if word == "status" {
        take_status(tried, line.text)
    } else if word == "out" {
        push_line(alloc, &mut tried.out, line.text, line.times)
    } else if word == "err" {
        push_line(alloc, &mut tried.err, line.text, line.times)
    } else if word == "fail" {
        take_failing(tried, line.text)
    } else {
        bail!("a line begins with source, file, made, try, status, out, err or fail")
    }
}

fn take_source(alloc: Global, example: &mut Example, line: &Line) -> Result<()> {
    if example.source.is_none() {
        example.source = Some(Vec::new(alloc));
    }
    match &mut example.source {
        Some(source) => push_line(alloc, source, line.text, line.times),
        None => Ok(()),
    }
}

/// A name, and what stands behind it.
fn named(text: &str) -> (&str, &str) {
    text.split_once(' ').unwrap_or((text, ""))
}

fn has_file(files: &[File], name: &str) -> bool {
    for file in files {
        if file.name.as_str() == name {
            return true;
        }
    }
    false
}

/// Adds an empty file.
fn push_file(alloc: Global, files: &mut Vec<File>, name: &str) -> Result<()> {
    let name = String::from_str(alloc, name)?;
    let text = Vec::new(alloc);
    Ok(files.push(File { name, text })?)
}

/// Adds a text to the file of this name.
fn push_to_file(
    alloc: Global,
    files: &mut Vec<File>,
    name: &str,
    text: &str,
    times: u64,
) -> Result<()> {
    for file in files.iter_mut() {
        if file.name.as_str() == name {
            push_line(alloc, &mut file.text, text, times)?;
        }
    }
    Ok(())
}

/// Takes a line that says more of a file.
fn take_file(alloc: Global, example: &mut Example, line: &Line) -> Result<()> {
    let (name, text) = named(line.text);
    if !has_file(&example.files, name) {
        push_file(alloc, &mut example.files, name)?;
    }
    push_to_file(alloc, &mut example.files, name, text, line.times)
}

/// What a line says of a file that is made.
fn made_file(alloc: Global, text: &str) -> Result<Made> {
    let (name, _) = named(text);
    let words = words(alloc, text)?;
    let name = String::from_str(alloc, name)?;
    Ok(Made { name, words })
}

fn take_made(alloc: Global, example: &mut Example, line: &Line) -> Result<()> {
    let made = made_file(alloc, line.text)?;
    Ok(example.made.push(made)?)
}

fn take_try(alloc: Global, example: &mut Example, number: usize, text: &str) -> Result<()> {
    let words = words(alloc, text)?;
    Ok(example.tries.push(Try::new(alloc, number, words))?)
}

fn take_last(alloc: Global, example: &mut Example, line: &Line) -> Result<()> {
    match example.tries.last_mut() {
        Some(tried) => take_more(alloc, tried, line),
        None => bail!("no try stands before this line"),
    }
}

/// Takes what a line says; all of it is the text.
fn take_line(
    alloc: Global,
    example: &mut Example,
    number: usize,
    text: &str,
    line: &Line,
) -> Result<()> {
    let word = line.word;
    if word == "source" {
        take_source(alloc, example, line)
    } else if word == "file" {
        take_file(alloc, example, line)
    } else if word == "made" {
        take_made(alloc, example, line)
    } else if word == "try" {
        take_try(alloc, example, number, text)
    } else {
        take_last(alloc, example, line)
    }
}

/// Takes a line that is neither empty nor begins with `#`.
fn take(alloc: Global, example: &mut Example, number: usize, text: &str) -> Result<()> {
    let line = split(text)?;
    take_line(alloc, example, number, text, &line)
}

fn take_all(alloc: Global, example: &mut Example, text: &str) -> Result<()> {
    for (index, line) in text.lines().enumerate() {
        let number = index.saturating_add(1);
        if !line.is_empty() && !line.starts_with('#') {
            take(alloc, example, number, line).context(format_args!("line {number}"))?;
        }
    }
    Ok(())
}

/// What an `.expected` file says.
pub fn read(alloc: Global, text: &str) -> Result<Example> {
    let mut example = Example {
        source: None,
        files: Vec::new(alloc),
        made: Vec::new(alloc),
        tries: Vec::new(alloc),
    };
    take_all(alloc, &mut example, text)?;
    Ok(example)
}
