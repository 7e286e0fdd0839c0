//! Tries the entries of the page of codes: the wrong line of each gives its code, the mended one is accepted; and each
//! code that comes of an example has an entry.

use crate::beside::is_there;
use crate::codes::{has, push_codes};
use crate::page::{Entry, Page, read};
use crate::play::{Count, Put, put_by};
use crate::playing::read_example;
use anyhow::Result;
use std::alloc::{AllocError, Global};
use std::fs;

const PAGE: &str = "errors.md";

/// The file that a line of Dafny is.
const FILE: &str = "line.dfy";

/// What stands before the words of a command other than `verify`, behind a line of Dafny.
const COMMAND: &str = " // dfy ";

fn is_declaration(line: &str) -> bool {
    line.starts_with("method ") || line.starts_with("newtype ")
}

/// Adds a line of the frame, with a line of Dafny for its dots.
fn push_framed(source: &mut String, around: &str, line: &str) -> Result<(), AllocError> {
    match around.split_once("..") {
        Some((front, back)) => {
            source.push_str(front)?;
            source.push_str(line)?;
            source.push_str(back)?;
        }
        None => source.push_str(around)?,
    }
    Ok(source.push_str("\n")?)
}

fn push_frame(source: &mut String, frame: &[String], line: &str) -> Result<(), AllocError> {
    for around in frame {
        push_framed(source, around.as_str(), line)?;
    }
    Ok(())
}

/// Adds the source of a line of Dafny.
fn push_source(source: &mut String, frame: &[String], line: &str) -> Result<(), AllocError> {
    if is_declaration(line) {
        Ok(source.push_str(line)?)
    } else {
        push_frame(source, frame, line)
    }
}

fn source_of(alloc: Global, frame: &[String], line: &str) -> Result<String, AllocError> {
    let mut source = String::new(alloc);
    push_source(&mut source, frame, line)?;
    Ok(source)
}

fn push_words(alloc: Global, words: &mut Vec<String>, command: &str) -> Result<(), AllocError> {
    for word in command.split(' ') {
        words.push(String::from_str(alloc, word)?)?;
    }
    Ok(words.push(String::from_str(alloc, FILE)?)?)
}

/// The words of a command with the file.
fn words_of(alloc: Global, command: &str) -> Result<Vec<String>, AllocError> {
    let mut words = Vec::new(alloc);
    push_words(alloc, &mut words, command)?;
    Ok(words)
}

/// What a command puts that is given a source.
fn put_of_source(alloc: Global, command: &str, source: &str) -> Result<Put, AllocError> {
    let words = words_of(alloc, command)?;
    put_by(alloc, words.as_slice(), FILE, source.as_bytes())
}

/// What comes of a line of Dafny.
fn put_of(alloc: Global, frame: &[String], line: &str) -> Result<Put, AllocError> {
    let (line, command) = line.split_once(COMMAND).unwrap_or((line, "verify"));
    let source = source_of(alloc, frame, line)?;
    put_of_source(alloc, command, source.as_str())
}

/// Whether a code is told.
fn is_told(alloc: Global, put: &Put, code: &str) -> Result<bool, AllocError> {
    let mut codes = Vec::new(alloc);
    push_codes(
        alloc,
        &mut codes,
        put.status,
        put.out.taken(),
        put.err.taken(),
    )?;
    Ok(has(&codes, code))
}

/// Tells a line of which something else comes than its entry says.
fn tell(rt: &HostRuntime, code: &str, line: &str, put: &Put) -> Result<()> {
    let (status, out) = (put.status, str::from_utf8(put.out.taken()).unwrap_or(""));
    let err = str::from_utf8(put.err.taken()).unwrap_or("");
    println!(rt; "{PAGE}, {code}: {line}: status {status}, out {out:?}, err {err:?}")?;
    Ok(())
}

/// Tries that a code comes of a line.
fn try_line(
    rt: &HostRuntime,
    frame: &[String],
    code: &str,
    wanted: &str,
    line: &str,
) -> Result<bool> {
    let put = put_of(rt.alloc(), frame, line)?;
    let is_told = is_told(rt.alloc(), &put, wanted)?;
    if !is_told {
        tell(rt, code, line, &put)?;
    }
    Ok(is_told)
}

/// Tries the lines of an entry. The status 0 comes of a mended one.
fn try_entry(rt: &HostRuntime, frame: &[String], entry: &Entry, count: &mut Count) -> Result<()> {
    let code = entry.code.as_str();
    match entry.lines.as_slice() {
        [] => {}
        [wrong, mended] => {
            count.add(try_line(rt, frame, code, code, wrong.as_str())?);
            count.add(try_line(rt, frame, code, "0", mended.as_str())?);
        }
        _ => {
            println!(rt; "{PAGE}, {code}: a wrong line and a mended one are wanted")?;
            count.add(false);
        }
    }
    Ok(())
}

fn try_entries(rt: &HostRuntime, page: &Page, count: &mut Count) -> Result<()> {
    for entry in &page.entries {
        try_entry(rt, &page.frame, entry, count)?;
    }
    Ok(())
}

/// Adds the codes that an example wants.
fn push_wanted(rt: &HostRuntime, codes: &mut Vec<String>, name: &str) -> Result<()> {
    let example = read_example(rt, name)?;
    for tried in &example.tries {
        push_codes(rt.alloc(), codes, tried.status, &tried.out, &tried.err)?;
    }
    Ok(())
}

fn push_all_wanted(rt: &HostRuntime, codes: &mut Vec<String>, names: &[String]) -> Result<()> {
    for name in names {
        let name = name.as_str();
        if is_there(rt, name, ".expected")? {
            push_wanted(rt, codes, name)?;
        }
    }
    Ok(())
}

fn has_entry(page: &Page, code: &str) -> bool {
    for entry in &page.entries {
        if entry.code.as_str() == code {
            return true;
        }
    }
    false
}

/// Looks whether each code has an entry.
fn look_up(rt: &HostRuntime, page: &Page, codes: &[String], count: &mut Count) -> Result<()> {
    for code in codes {
        let code = code.as_str();
        let is_there = has_entry(page, code);
        if !is_there {
            println!(rt; "{PAGE} has no entry {code}")?;
        }
        count.add(is_there);
    }
    Ok(())
}

/// Looks whether each code that the examples of these paths want has an entry.
fn look_up_wanted(
    rt: &HostRuntime,
    page: &Page,
    names: &[String],
    count: &mut Count,
) -> Result<()> {
    let mut codes = Vec::new(rt.alloc());
    push_all_wanted(rt, &mut codes, names)?;
    look_up(rt, page, &codes, count)
}

fn page_of(rt: &HostRuntime, path: &str) -> Result<Page> {
    let text = fs::read_to_string(rt, path)?;
    Ok(read(rt.alloc(), text.as_str())?)
}

fn play_page_at(rt: &HostRuntime, path: &str, names: &[String], count: &mut Count) -> Result<()> {
    let page = page_of(rt, path)?;
    try_entries(rt, &page, count)?;
    look_up_wanted(rt, &page, names, count)
}

/// Tries the entries of the page in a folder, if there is one, and looks up there what its examples of these paths want.
pub fn play_page(
    rt: &HostRuntime,
    folder: &str,
    names: &[String],
    count: &mut Count,
) -> Result<()> {
    let path = format!(in rt.alloc(); "{folder}/{PAGE}")?;
    if fs::exists(rt, path.as_str())? {
        play_page_at(rt, path.as_str(), names, count)
    } else {
        Ok(())
    }
}
