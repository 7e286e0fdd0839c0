//! Text with escapes.

use crate::fitting::NUMBER;
use anyhow::{Result, bail, ensure};
use std::alloc::{AllocError, Global};

/// The byte that an escape stands for.
fn escaped(letter: u8) -> Result<u8> {
    match letter {
        b'n' => Ok(b'\n'),
        b'r' => Ok(b'\r'),
        b't' => Ok(b'\t'),
        b'0' => Ok(0),
        b's' => Ok(b' '),
        b'd' => Ok(NUMBER),
        b'\\' => Ok(b'\\'),
        _ => bail!("an escape is \\n, \\r, \\t, \\0, \\s, \\d or \\\\"),
    }
}

/// Adds the bytes of a text with escapes.
fn push_unescaped(bytes: &mut Vec<u8>, text: &str) -> Result<()> {
    let mut escape = false;
    for byte in text.as_bytes() {
        if escape {
            bytes.push(escaped(*byte)?)?;
            escape = false;
        } else if *byte == b'\\' {
            escape = true;
        } else {
            bytes.push(*byte)?;
        }
    }
    ensure!(!escape, "nothing stands behind a last \\");
    Ok(())
}

/// The bytes of a text in which `\n`, `\r`, `\t`, `\0`, `\s`, `\d` and `\\` stand for a line feed, a carriage
/// return, a tab, the byte 0, a blank, any decimal number and `\`.
pub fn unescaped(alloc: Global, text: &str) -> Result<Vec<u8>> {
    let mut bytes = Vec::new(alloc);
    push_unescaped(&mut bytes, text)?;
    Ok(bytes)
}

/// Adds a text so many times.
pub fn push_times(bytes: &mut Vec<u8>, text: &[u8], times: u64) -> Result<(), AllocError> {
    for _ in 0..times {
        bytes.extend_from_slice(text)?;
    }
    Ok(())
}
