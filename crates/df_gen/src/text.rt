//! The text of generated sources.

ghost use Rattle.std.specs.Prelude.{◌≡◌, ◌++◌, OnOk, IfOk};
ghost use Rattle.df_gen.specs.GeneratedSource.{numbered, method_head, method_body, method_text, call_text, lines_below, generated_source, factor};

use crate::generator::Generator;
use df_base::Memory;
use std::alloc::{AllocError, Global};

/// A number, and what follows it.
fn push_number(
    alloc: Global,
    text: &mut Vec<u8>,
    number: u64,
    after: &str,
) -> Result<(), AllocError>
    ensures { OnOk result (text.new.items ≡ text.old.items ++ numbered number after.now) }
{
    let number = number.to_string(alloc)?;
    text.extend_from_slice(number.as_bytes())?;
    text.extend_from_slice(after.as_bytes())?;
    Ok(())
}

fn push_head(alloc: Global, text: &mut Vec<u8>, number: u32) -> Result<(), AllocError>
    ensures { OnOk result (text.new.items ≡ text.old.items ++ method_head number) }
{
    text.extend_from_slice(b"method m")?;
    push_number(
        alloc,
        text,
        number.into(),
        "(n: u) returns (r: u) requires n < 1000 ensures r == n * ",
    )
}

fn push_body(alloc: Global, text: &mut Vec<u8>, factor: u64) -> Result<(), AllocError>
    ensures { OnOk result (text.new.items ≡ text.old.items ++ method_body factor) }
{
    push_number(
        alloc,
        text,
        factor,
        " { r := 0; var i: u := 0; while i < n invariant i <= n && r == i * ",
    )?;
    push_number(alloc, text, factor, " { r := r + ")?;
    push_number(alloc, text, factor, "; i := i + 1; } }\n")
}

fn push_method(
    alloc: Global,
    text: &mut Vec<u8>,
    number: u32,
    factor: u64,
) -> Result<(), AllocError>
    ensures { OnOk result (text.new.items ≡ text.old.items ++ method_text number factor) }
{
    push_head(alloc, text, number)?;
    push_body(alloc, text, factor)
}

fn push_methods(alloc: Global, text: &mut Vec<u8>, seed: u64, count: u32) -> Result<(), AllocError>
    ensures { OnOk result (text.new.items ≡ text.old.items ++ lines_below (λ number. method_text number (factor seed number)) count) }
{
    let mut generator = Generator { state: seed };
    for number in 0..count {
        let factor = generator.factor();
        push_method(alloc, text, number, factor)?;
    }
    Ok(())
}

fn push_call(alloc: Global, text: &mut Vec<u8>, number: u32) -> Result<(), AllocError>
    ensures { OnOk result (text.new.items ≡ text.old.items ++ call_text number) }
{
    let line = format!(in alloc; "a := m{number}(10); t := t + a;\n")?;
    text.extend_from_slice(line.as_bytes())?;
    Ok(())
}

fn push_calls(alloc: Global, text: &mut Vec<u8>, count: u32) -> Result<(), AllocError>
    ensures { OnOk result (text.new.items ≡ text.old.items ++ lines_below call_text count) }
{
    for number in 0..count {
        push_call(alloc, text, number)?;
    }
    Ok(())
}

/// The source of a seed with so many methods: a newtype `u`, the methods `m0`, `m1` and so on, of which
/// each multiplies by a number of the seed's in a loop, and a `Main` that prints the sum of what they
/// give for 10. It answers `Memory` where memory is refused, and else the text.
pub fn source(alloc: Global, seed: u64, count: u32) -> Result<Vec<u8>, Memory>
    ensures { IfOk result (λ text. text.items ≡ generated_source seed count) }
{
    let mut text = Vec::new(alloc);
    text.extend_from_slice(b"newtype u = x: int | 0 <= x < 1000000000\n")?;
    push_methods(alloc, &mut text, seed, count)?;
    text.extend_from_slice(b"method Main() { var t: u := 0; var a: u := 0;\n")?;
    push_calls(alloc, &mut text, count)?;
    text.extend_from_slice(b"print t, \"\\n\"; }\n")?;
    Ok(text)
}
