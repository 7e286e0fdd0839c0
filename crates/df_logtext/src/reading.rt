//! Texts of logs that are read.

ghost use Rattle.df_logtext.specs.BadLog.{Reads};
ghost use Rattle.df_logtext.specs.Reading.{outcome_at_end, read_text};
ghost use Rattle.df_logtext.specs.ReaderView.{Answers, state_of};
ghost use Rattle.df_logtext.specs.View.{names_of};

use crate::fault::LogFault;
use crate::reader::{Reader, Stage};
use df_form::Step;
use std::alloc::Global;

/// The logs of a text that ends here, behind these bytes of the line of a number.
fn logs_at_end(reader: Reader, number: u64, line: &[u8]) -> Result<Vec<Vec<Step>>, LogFault>
    ensures { Answers (outcome_at_end reader.stage (state_of reader).logs number line.now) result }
{
    match reader.stage {
        Stage::After if line.is_empty() => Ok(reader.logs),
        _ => Err(LogFault::BadLog(number)),
    }
}

fn read_lines(alloc: Global, names: &[String], bytes: &[u8]) -> Result<Vec<Vec<Step>>, LogFault>
    ensures { Answers (read_text (names_of names.now) bytes.now) result }
{
    let mut reader = Reader::new(alloc);
    let mut begin = 0;
    let mut number: u64 = 1;
    for (at, byte) in bytes.iter().enumerate() {
        if *byte != b'\n' {
            continue;
        }
        if !reader.take(alloc, names, &bytes[begin..at])? {
            return Err(LogFault::BadLog(number));
        }
        begin = at + 1;
        number += 1;
    }
    logs_at_end(reader, number, &bytes[begin..])
}

/// The logs of which the bytes are the text, where newtypes have these names by their numbers.
///
/// It answers `BadLog` exactly where the bytes are the text of no logs, with the first line with which they
/// begin none, or one past the last. A line ends with a line feed, and one that does not is bad.
pub fn read(alloc: Global, names: &[String], bytes: &[u8]) -> Result<Vec<Vec<Step>>, LogFault>
    ensures { Reads (names_of names.now) bytes.now result }
{
    read_lines(alloc, names, bytes)
}
