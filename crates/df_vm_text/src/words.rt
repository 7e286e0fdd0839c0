//! Values that have no parts, and characters of sequences.

ghost use Rattle.std.specs.Prelude.{◌≡◌, ◌+◌, ◌≤◌, ◌++◌, slice_get, IfOk};
ghost use Rattle.std.specs.Option.{option_and_then};
ghost use Rattle.df_mach2.specs.Text as pure;
ghost use Rattle.df_mach2.specs.Value.{values_of};
ghost use Rattle.df_mach2.specs.View.{shape_of};
ghost use Rattle.df_vm_store.specs.View.{size_of, values_in};
ghost use Rattle.df_vm_text.specs.Tasks.{piece, char_in};
ghost use Rattle.df_vm_text.specs.Prints.{Puts};

use df_mach2::Shape;
use df_vm_store::{Halt, Store, Word};
use std::alloc::{AllocError, Global};

/// Puts a number in decimal.
pub(crate) fn put_number(
    alloc: Global,
    out: &mut Vec<u8>,
    by: &Shape,
    number: i128,
) -> Result<(), Halt>
    ensures { Puts result (pure.number_text number (shape_of by.now)) out.old.items out.new.items }
{
    match by {
        Shape::Number => {
            let text = number.to_string(alloc)?;
            out.extend_from_slice(text.as_bytes())?;
            Ok(())
        }
        Shape::Truth | Shape::Char | Shape::Text | Shape::List(_) | Shape::Data(_) => {
            Err(Halt::Broken)
        }
    }
}

/// The word of a truth.
fn truth_word(truth: bool) -> &'static [u8]
    ensures { result.now ≡ pure.truth_word truth }
{
    if truth { b"true" } else { b"false" }
}

/// Puts the word of a truth.
pub(crate) fn put_truth(out: &mut Vec<u8>, by: &Shape, truth: bool) -> Result<(), Halt>
    ensures { Puts result (pure.truth_text truth (shape_of by.now)) out.old.items out.new.items }
{
    match by {
        Shape::Truth => {
            out.extend_from_slice(truth_word(truth))?;
            Ok(())
        }
        Shape::Number | Shape::Char | Shape::Text | Shape::List(_) | Shape::Data(_) => {
            Err(Halt::Broken)
        }
    }
}

/// Puts a character.
pub(crate) fn put_character(out: &mut Vec<u8>, by: &Shape, character: u8) -> Result<(), Halt>
    ensures { Puts result (pure.char_text character (shape_of by.now)) out.old.items out.new.items }
{
    match by {
        Shape::Char => {
            out.push(character)?;
            Ok(())
        }
        Shape::Number | Shape::Truth | Shape::Text | Shape::List(_) | Shape::Data(_) => {
            Err(Halt::Broken)
        }
    }
}

/// Puts what stands before a member or an argument.
pub(crate) fn put_separator(out: &mut Vec<u8>, is_first: bool) -> Result<(), AllocError>
    ensures { IfOk result (λ _. out.new.items ≡ out.old.items ++ pure.separator is_first) }
{
    if !is_first {
        out.extend_from_slice(b", ")?;
    }
    Ok(())
}

/// The character of a cell.
fn character_at(store: &Store, cell: usize) -> Option<u8>
    ensures { result ≡ option_and_then char_in (slice_get (values_in store.now) cell) }
{
    let Some(word) = store.cell(cell) else {
        return None;
    };
    let Word::Char(character) = word else {
        return None;
    };
    Some(character)
}

/// Puts the characters of so many cells from one on. Each of them has to be one.
pub(crate) fn put_characters(
    store: &Store,
    out: &mut Vec<u8>,
    from: usize,
    count: usize,
) -> Result<(), Halt>
    requires { from + count ≤ size_of store.now }
    ensures { Puts result (pure.characters (values_of (piece (values_in store.now) from count))) out.old.items out.new.items }
{
    for index in 0..count {
        let Some(character) = character_at(store, from + index) else {
            return Err(Halt::Broken);
        };
        out.push(character)?;
    }
    Ok(())
}
