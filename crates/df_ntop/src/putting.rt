//! Texts, put on sinks.

ghost use Rattle.std.specs.Prelude.{◌≡◌, ◌<◌, ◌≤◌, true, length, IfErr, OnOk, OnErr, Err};
ghost use Rattle.df_base.specs.Outside.{Appends, AppendsPrefix, HasCause};
ghost use Rattle.df_nmach.specs.View.{code_of};
ghost use Rattle.df_ntop.specs.Call.{stream};
ghost use Rattle.df_ntop.specs.Ending.{PutsText, PutsListing};
ghost use Rattle.df_ntop.specs.Keeps.{Keeps};
ghost use Rattle.df_ntop.specs.Running.{IsCutLine};

use crate::ending::End;
use crate::proving::Report;
use df_base::{Global, Sink, SinkFault};
use df_listing::{one_code, write};
use df_nmach::Code;

/// The end of the line that begins at this byte: after its line feed, or where the text ends.
fn line_end(text: &[u8], start: usize) -> usize
    requires { start < length text.now }
    ensures { (start < result) × (result ≤ length text.now) }
{
    match text[start..].iter().position(|byte| *byte == b'\n') {
        Some(index) => start + index + 1,
        None => text.len(),
    }
}

/// Puts a text line by line.
fn put_lines<S: Sink>(sink: &mut S, text: &[u8]) -> Result<(), SinkFault>
    ensures took { OnOk result (Appends (S.taken sink.old) (S.taken sink.new) text.now) }
    ensures cut { OnErr result (AppendsPrefix (S.taken sink.old) (S.taken sink.new) text.now) }
    ensures cause { HasCause (S.fault_count sink.old) (S.fault_count sink.new) (result ≡ Err SinkFault.Failed) }
    ensures stays { S.takes_memory sink.new ≡ S.takes_memory sink.old }
{
    let mut start = 0;
    while start < text.len() {
        let end = line_end(text, start);
        sink.put(&text[start..end])?;
        start = end;
    }
    Ok(())
}

/// Puts a report.
pub(crate) fn put_report<S: Sink>(sink: &mut S, report: &Report) -> End
    ensures puts { PutsText report.now.verified report.now.text.items (stream S.Sink sink.old sink.new) result }
    ensures keeps { Keeps S.Sink sink.old sink.new }
{
    match put_lines(sink, report.text.as_slice()) {
        Ok(()) if report.verified => End::Done,
        Ok(()) => End::Unproved,
        Err(SinkFault::Failed) => End::Unwritten,
        Err(SinkFault::Memory) => End::Memory,
    }
}

/// Puts the listing of a code, all at once.
pub(crate) fn put_listing<S: Sink>(alloc: Global, sink: &mut S, code: &Code) -> End
    ensures puts { PutsListing (code_of code.now) (stream S.Sink sink.old sink.new) result }
    ensures keeps { Keeps S.Sink sink.old sink.new }
{
    one_code();
    let Ok(text) = write(alloc, code) else {
        return End::Memory;
    };
    match sink.put(text.as_slice()) {
        Ok(()) => End::Done,
        Err(SinkFault::Failed) => End::Unwritten,
        Err(SinkFault::Memory) => End::Memory,
    }
}

/// Puts the text of logs, all at once.
pub(crate) fn put_logs<S: Sink>(sink: &mut S, text: &[u8]) -> End
    ensures puts { PutsText true text.now (stream S.Sink sink.old sink.new) result }
    ensures keeps { Keeps S.Sink sink.old sink.new }
{
    match sink.put(text) {
        Ok(()) => End::Done,
        Err(SinkFault::Failed) => End::Unwritten,
        Err(SinkFault::Memory) => End::Memory,
    }
}

/// Puts a line before what comes after it, or tells how the command ends where that fails.
pub(crate) fn put_line<S: Sink>(sink: &mut S, line: &[u8]) -> Result<(), End>
    ensures put { OnOk result (Appends (S.taken sink.old) (S.taken sink.new) line.now) }
    ensures cut { IfErr result (IsCutLine line.now (stream S.Sink sink.old sink.new)) }
    ensures keeps { Keeps S.Sink sink.old sink.new }
{
    match sink.put(line) {
        Ok(()) => Ok(()),
        Err(SinkFault::Failed) => Err(End::Unwritten),
        Err(SinkFault::Memory) => Err(End::Memory),
    }
}
