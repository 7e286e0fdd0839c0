//! Texts of characters.

ghost use Rattle.std.specs.Prelude.{◌≡◌};
ghost use Rattle.df_nmach.specs.Step as table;
ghost use Rattle.df_nmach.specs.View.{value_of, values_of};
ghost use Rattle.df_nvm.specs.mirror.Turns.{Reads, char_in};

use crate::halt::Halt;
use df_nmach::Value;
use std::alloc::Global;

/// The character that a value is.
fn character(value: &Value) -> Option<u8>
    ensures { result ≡ char_in (value_of value.now) }
{
    match value {
        Value::Char(character) => Some(*character),
        _ => None,
    }
}

/// The characters that values are. Each of them has to be one.
pub(crate) fn characters(alloc: Global, values: &[Value]) -> Result<Vec<u8>, Halt>
    ensures { Reads result (table.characters (values_of values.now)) }
{
    let mut text = Vec::with_capacity(alloc, values.len())?;
    for value in values {
        let Some(character) = character(value) else {
            return Err(Halt::Broken);
        };
        text.push(character)?;
    }
    Ok(text)
}
