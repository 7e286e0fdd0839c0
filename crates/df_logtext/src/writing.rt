//! The text of logs.

ghost use Rattle.std.specs.Prelude.{◌≡◌, ◌++◌, ◌+◌, ◌<◌, ◌^◌, length, map, OnOk, IfOk};
ghost use Rattle.std.specs.List.{AllByRecursion};
ghost use Rattle.df_logtext.specs.HasText.{HasNumbers, HaveNumbers};
ghost use Rattle.df_logtext.specs.LogText.{ended, part_line, part_lines, parts_lines, text_of_lines, log_text};
ghost use Rattle.df_logtext.specs.StepText.{step_line};
ghost use Rattle.df_logtext.specs.View.{log_of, logs_of, names_of};
ghost use Rattle.df_logtext.specs.Writes.{Writes};

use crate::step::push_step;
use crate::word::push_digits;
use df_base::Memory;
use df_form::Step;
use std::alloc::{AllocError, Global};

fn push_part_line(text: &mut Vec<u8>, number: u64) -> Result<(), AllocError>
    ensures { OnOk result (text.new.items ≡ text.old.items ++ ended (part_line number)) }
{
    text.extend_from_slice(b"o ")?;
    push_digits(text, number)?;
    text.extend_from_slice(b"\n")?;
    Ok(())
}

fn push_steps(text: &mut Vec<u8>, names: &[String], steps: &[Step]) -> Result<(), AllocError>
    ensures { OnOk result (Writes text.old.items text.new.items (text_of_lines (map (step_line (names_of names.now)) (log_of steps.now))) (AllByRecursion HasNumbers (log_of steps.now))) }
{
    for step in steps {
        push_step(text, names, step)?;
    }
    Ok(())
}

fn push_part(
    text: &mut Vec<u8>,
    names: &[String],
    number: u64,
    steps: &[Step],
) -> Result<(), AllocError>
    ensures { OnOk result (Writes text.old.items text.new.items (text_of_lines (part_lines (names_of names.now) number (log_of steps.now))) (AllByRecursion HasNumbers (log_of steps.now))) }
{
    push_part_line(text, number)?;
    push_steps(text, names, steps)?;
    text.extend_from_slice(b".\n")?;
    Ok(())
}

fn push_parts(text: &mut Vec<u8>, names: &[String], logs: &[Vec<Step>]) -> Result<(), AllocError>
    ensures { OnOk result (Writes text.old.items text.new.items (text_of_lines (parts_lines (names_of names.now) 1 (logs_of logs.now))) (HaveNumbers (logs_of logs.now))) }
{
    for (number, log) in logs.iter().enumerate() {
        push_part(text, names, number as u64 + 1, log)?;
    }
    Ok(())
}

/// The text of logs, of which each is that of an obligation, in their order. Names are those of the
/// newtypes, by their numbers. It answers `Memory` where memory is refused, and else the text.
pub fn write(alloc: Global, names: &[String], logs: &[Vec<Step>]) -> Result<Vec<u8>, Memory>
    ensures written { IfOk result (λ text. text.items ≡ log_text (names_of names.now) (logs_of logs.now)) }
    // The steps hold numbers that fit a text.
    ensures numbers { OnOk result (HaveNumbers (logs_of logs.now)) }
{
    let mut text = Vec::new(alloc);
    text.extend_from_slice(b"dfylog 1\n")?;
    push_parts(&mut text, names, logs)?;
    text.extend_from_slice(b"end\n")?;
    Ok(text)
}
