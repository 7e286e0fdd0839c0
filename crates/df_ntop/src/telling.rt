//! Lines, told on `err`.

ghost use Rattle.std.specs.Prelude.{◌≡◌, ◌≤◌, ◌++◌, IfOk};
ghost use Rattle.df_ntop.specs.Call.{stream};
ghost use Rattle.df_ntop.specs.Ending.{IsToldBy};
ghost use Rattle.df_ntop.specs.Keeps.{Keeps};
ghost use Rattle.df_ntop.specs.Lines.{usage_line, memory_line, fuel_line, unread_line, large_line, native_line, no_main_line, too_large_line, not_a_log_line, bad_part_line};
ghost use Rattle.df_ntop.specs.Telling.{Tells};

use crate::ending::End;
use df_base::{Global, Pos, Sink, SinkFault, Status};
use df_nfront::pos_text;
use std::alloc::AllocError;

/// Tells on `err` that memory was refused. Nothing more is told where this needs memory that is refused. The status
/// says whether the line was written.
pub fn tell_memory<E: Sink>(err: &mut E) -> Status
    ensures tells { Tells Status.Memory memory_line (stream E.Sink err.old err.new) result }
    ensures counts { E.fault_count err.old ≤ E.fault_count err.new }
    ensures stays { E.takes_memory err.new ≡ E.takes_memory err.old }
{
    match err.put(b"dfy: out of memory\n") {
        Ok(()) => Status::Memory,
        Err(SinkFault::Memory) => Status::Memory,
        Err(SinkFault::Failed) => Status::Unwritten,
    }
}

/// Tells why a status comes.
pub(crate) fn tell<E: Sink>(err: &mut E, line: &[u8], status: Status) -> Status
    ensures tells { Tells status line.now (stream E.Sink err.old err.new) result }
    ensures keeps { Keeps E.Sink err.old err.new }
{
    match err.put(line) {
        Ok(()) => status,
        Err(SinkFault::Memory) => tell_memory(err),
        Err(SinkFault::Failed) => Status::Unwritten,
    }
}

/// Tells that the words are no command.
pub(crate) fn tell_usage<E: Sink>(err: &mut E) -> Status
    ensures tells { Tells Status.Usage usage_line (stream E.Sink err.old err.new) result }
    ensures keeps { Keeps E.Sink err.old err.new }
{
    tell(err, b"dfy: usage\n", Status::Usage)
}

/// Tells that the fuel is spent.
pub(crate) fn tell_fuel<E: Sink>(err: &mut E) -> Status
    ensures tells { Tells Status.FuelSpent fuel_line (stream E.Sink err.old err.new) result }
    ensures keeps { Keeps E.Sink err.old err.new }
{
    tell(err, b"dfy: fuel spent\n", Status::FuelSpent)
}

/// The end that is told by this line, if there is memory for it.
pub(crate) fn told(status: Status, line: Result<Vec<u8>, AllocError>) -> End
    ensures { IsToldBy status line result }
{
    match line {
        Ok(line) => End::Told(status, line),
        Err(_) => End::Memory,
    }
}

/// A line that begins with the name of a file.
fn line_on(alloc: Global, file: &str, rest: &[u8]) -> Result<Vec<u8>, AllocError>
    ensures { IfOk result (λ line. line.items ≡ file.now ++ rest.now) }
{
    let mut line = Vec::new(alloc);
    line.extend_from_slice(file.as_bytes())?;
    line.extend_from_slice(rest)?;
    Ok(line)
}

/// The line on a file that was not read.
pub(crate) fn unread_text(alloc: Global, file: &str) -> Result<Vec<u8>, AllocError>
    ensures { IfOk result (λ line. line.items ≡ unread_line file.now) }
{
    line_on(alloc, file, b": cannot read\n")
}

/// The line on a file that is too long.
pub(crate) fn large_text(alloc: Global, file: &str) -> Result<Vec<u8>, AllocError>
    ensures { IfOk result (λ line. line.items ≡ large_line file.now) }
{
    line_on(alloc, file, b":1:1: S14 limit\n")
}

/// The line on a program without an entry.
pub(crate) fn no_main_text(alloc: Global, file: &str) -> Result<Vec<u8>, AllocError>
    ensures { IfOk result (λ line. line.items ≡ no_main_line file.now) }
{
    line_on(alloc, file, b": no Main\n")
}

/// The line on a program that breaks the rule of this number on what compiles.
pub(crate) fn native_text(
    alloc: Global,
    file: &str,
    pos: Pos,
    rule: u8,
) -> Result<Vec<u8>, AllocError>
    ensures { IfOk result (λ line. line.items ≡ native_line file.now pos rule) }
{
    let mut text = Vec::new(alloc);
    text.extend_from_slice(pos_text(alloc, file, pos)?.as_slice())?;
    text.extend_from_slice(b"not compilable N")?;
    text.extend_from_slice(rule.to_string(alloc)?.as_bytes())?;
    text.extend_from_slice(b"\n")?;
    Ok(text)
}

/// The line on a log that is too long.
pub(crate) fn too_large_text(alloc: Global, log: &str) -> Result<Vec<u8>, AllocError>
    ensures { IfOk result (λ line. line.items ≡ too_large_line log.now) }
{
    line_on(alloc, log, b": too large\n")
}

/// The line on bytes that are no log from the line of this number on.
pub(crate) fn not_a_log_text(alloc: Global, log: &str, line: u64) -> Result<Vec<u8>, AllocError>
    ensures { IfOk result (λ text. text.items ≡ not_a_log_line log.now line) }
{
    let mut text = Vec::new(alloc);
    text.extend_from_slice(log.as_bytes())?;
    text.extend_from_slice(b":")?;
    text.extend_from_slice(line.to_string(alloc)?.as_bytes())?;
    text.extend_from_slice(b": not a log\n")?;
    Ok(text)
}

/// The line on a log of which the part of this obligation is refused at this step.
pub(crate) fn bad_part_text(
    alloc: Global,
    log: &str,
    obligation: u64,
    step: u64,
) -> Result<Vec<u8>, AllocError>
    ensures { IfOk result (λ text. text.items ≡ bad_part_line log.now obligation step) }
{
    let mut text = Vec::new(alloc);
    text.extend_from_slice(log.as_bytes())?;
    text.extend_from_slice(b": obligation ")?;
    text.extend_from_slice(obligation.to_string(alloc)?.as_bytes())?;
    text.extend_from_slice(b" step ")?;
    text.extend_from_slice(step.to_string(alloc)?.as_bytes())?;
    text.extend_from_slice(b"\n")?;
    Ok(text)
}
