//! Lines of one to three words.

ghost use Rattle.std.specs.Prelude.{◌≡◌, ◌++◌, [], ◌∷◌, OnOk};
ghost use Rattle.std.specs.Fmt.{decimal, signed_decimal};
ghost use Rattle.df_listing.specs.Listing.{line_text, range_words};
ghost use Rattle.df_listing.specs.Ordinary.{Fits, Counts, FittingRange};

use df_nmach::Range;
use std::alloc::{AllocError, Global};

pub(crate) fn push_word(text: &mut Vec<u8>, name: &str) -> Result<(), AllocError>
    ensures { OnOk result (text.new.items ≡ text.old.items ++ line_text (name.now ∷ [])) }
{
    text.extend_from_slice(name.as_bytes())?;
    text.extend_from_slice(b"\n")?;
    Ok(())
}

pub(crate) fn push_words(
    alloc: Global,
    text: &mut Vec<u8>,
    name: &str,
    word: &str,
) -> Result<(), AllocError>
    ensures { OnOk result (text.new.items ≡ text.old.items ++ line_text (name.now ∷ word.now ∷ [])) }
{
    let line = format!(in alloc; "{name} {word}\n")?;
    text.extend_from_slice(line.as_bytes())?;
    Ok(())
}

pub(crate) fn push_count(
    alloc: Global,
    text: &mut Vec<u8>,
    name: &str,
    count: usize,
) -> Result<(), AllocError>
    ensures text { OnOk result (text.new.items ≡ text.old.items ++ line_text (name.now ∷ decimal count ∷ [])) }
    ensures fits { Counts count }
{
    let line = format!(in alloc; "{name} {count}\n")?;
    text.extend_from_slice(line.as_bytes())?;
    Ok(())
}

pub(crate) fn push_number(
    alloc: Global,
    text: &mut Vec<u8>,
    name: &str,
    number: i128,
) -> Result<(), AllocError>
    ensures text { OnOk result (text.new.items ≡ text.old.items ++ line_text (name.now ∷ signed_decimal number ∷ [])) }
    ensures fits { Fits number }
{
    let line = format!(in alloc; "{name} {number}\n")?;
    text.extend_from_slice(line.as_bytes())?;
    Ok(())
}

pub(crate) fn push_range(
    alloc: Global,
    text: &mut Vec<u8>,
    name: &str,
    range: Range,
) -> Result<(), AllocError>
    ensures text { OnOk result (text.new.items ≡ text.old.items ++ line_text (name.now ∷ range_words range)) }
    ensures fits { FittingRange range }
{
    let low = range.low;
    let high = range.high;
    let line = format!(in alloc; "{name} {low} {high}\n")?;
    text.extend_from_slice(line.as_bytes())?;
    Ok(())
}
