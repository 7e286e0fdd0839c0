//! The page of codes: for each code a line of Dafny that is wrong, and one that is mended.

use std::alloc::{AllocError, Global};

/// What stands before the code of an entry.
const HEAD: &str = "### ";

/// What stands before a line of Dafny.
const MARGIN: &str = "    ";

#[derive(Drop)]
pub struct Entry {
    pub code: String,
    /// The wrong line and the mended one, if the entry has them.
    pub lines: Vec<String>,
}

#[derive(Drop)]
pub struct Page {
    /// The lines around one that begins with no declaration, which stands for the dots in them.
    pub frame: Vec<String>,
    pub entries: Vec<Entry>,
}

fn push_text(alloc: Global, texts: &mut Vec<String>, text: &str) -> Result<(), AllocError> {
    let text = String::from_str(alloc, text)?;
    Ok(texts.push(text)?)
}

/// Adds an entry without lines.
fn push_entry(alloc: Global, entries: &mut Vec<Entry>, head: &str) -> Result<(), AllocError> {
    let (code, _) = head.split_once(':').unwrap_or((head, ""));
    let code = String::from_str(alloc, code)?;
    let lines = Vec::new(alloc);
    Ok(entries.push(Entry { code, lines })?)
}

/// Adds a line of Dafny to the last entry; before all entries, to the frame.
fn push_dafny(alloc: Global, page: &mut Page, line: &str) -> Result<(), AllocError> {
    let Page { frame, entries } = page;
    match entries.last_mut() {
        Some(entry) => push_text(alloc, &mut entry.lines, line),
        None => push_text(alloc, frame, line),
    }
}

fn take_line(alloc: Global, page: &mut Page, line: &str) -> Result<(), AllocError> {
    if let Some(head) = line.strip_prefix(HEAD) {
        push_entry(alloc, &mut page.entries, head)
    } else if let Some(dafny) = line.strip_prefix(MARGIN) {
        push_dafny(alloc, page, dafny)
    } else {
        Ok(())
    }
}

fn take_lines(alloc: Global, page: &mut Page, text: &str) -> Result<(), AllocError> {
    for line in text.lines() {
        take_line(alloc, page, line)?;
    }
    Ok(())
}

/// What the page says.
pub fn read(alloc: Global, text: &str) -> Result<Page, AllocError> {
    let mut page = Page {
        frame: Vec::new(alloc),
        entries: Vec::new(alloc),
    };
    take_lines(alloc, &mut page, text)?;
    Ok(page)
}
