//! The source that a line stands for.

use df_base::Global;
use std::alloc::AllocError;

/// Adds a text, where `~n` stands for the end of a line.
fn put_lines(text: &mut Vec<u8>, line: &str) -> Result<(), AllocError> {
    let mut is_escaped = false;
    for byte in line.as_bytes() {
        if is_escaped {
            text.push(if *byte == b'n' { b'\n' } else { *byte })?;
            is_escaped = false;
        } else if *byte == b'~' {
            is_escaped = true;
        } else {
            text.push(*byte)?;
        }
    }
    Ok(())
}

fn put_often(text: &mut Vec<u8>, part: &str, count: u64) -> Result<(), AllocError> {
    for _ in 0..count {
        text.extend_from_slice(part.as_bytes())?;
    }
    Ok(())
}

/// The source of a line: as it stands, or with a part of it repeated.
pub(crate) fn source_of(alloc: Global, line: &str) -> Result<Vec<u8>, AllocError> {
    let mut text = Vec::new(alloc);
    match line.strip_prefix("*") {
        None => put_lines(&mut text, line)?,
        Some(rest) => {
            for (number, piece) in rest.split('#').enumerate() {
                let (count, part) = piece.split_once('|').unwrap_or(("1", piece));
                let count = count.trim().parse::<u64>().unwrap_or(number as u64);
                put_often(&mut text, part, count)?;
            }
        }
    }
    Ok(text)
}
