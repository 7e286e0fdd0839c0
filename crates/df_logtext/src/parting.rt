//! Texts that are parted at separators.

ghost use Rattle.std.specs.Prelude.{◌≡◌, map, IfOk};
ghost use Rattle.df_logtext.specs.Parting.{parted};

use std::alloc::{AllocError, Global};

/// The parts of a text between its separators.
pub fn parts<'a>(alloc: Global, text: &'a [u8], separator: u8) -> Result<Vec<&'a [u8]>, AllocError>
    ensures { IfOk result (λ parts. map (λ part. part.now) parts.items ≡ parted separator text.now) }
{
    let mut parts = Vec::new(alloc);
    let mut begin = 0;
    for (at, byte) in text.iter().enumerate() {
        if *byte != separator {
            continue;
        }
        parts.push(&text[begin..at])?;
        begin = at + 1;
    }
    parts.push(&text[begin..])?;
    Ok(parts)
}
