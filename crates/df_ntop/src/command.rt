//! The one call of the program.

ghost use Rattle.std.specs.Prelude.{◌≡◌, ◌≤◌, ◌↔◌, ℕ, List, map, string_bytes};
ghost use Rattle.df_ncmd.specs.Line as lines;
ghost use Rattle.df_ncmd.specs.Line.{IsBudget, IsInLimits};
ghost use Rattle.df_ncmd.specs.View.{command_of};
ghost use Rattle.df_ntop.specs.Answer.{Answers};
ghost use Rattle.df_ntop.specs.Call.{Store, store, streams, call_of, IsLine};
ghost use Rattle.df_ntop.specs.Command.{IsFileOf, file_of, budget_of as budget_in};
ghost use Rattle.df_ntop.specs.Complete.{IsComplete};
ghost use Rattle.df_ntop.specs.Ending.{Ends, of_files};
ghost use Rattle.df_ntop.specs.Headline.{AcceptsRight, JudgesRight};
ghost use Rattle.df_ntop.specs.Keeps.{Keeps};
ghost use Rattle.df_ntop.specs.Proved.{DerivesAll};

use crate::ending::End;
use crate::loading::{load_log, load_source};
use crate::logs::LogFile;
use crate::naming::file;
use crate::sources::end_source;
use crate::telling::{large_text, tell, tell_fuel, tell_memory, tell_usage, told};
use df_base::{Files, Global, Sink, Status};
use df_gen::source;
use df_ncmd::{Command, LineFault, limits, line};
use df_nerase::broken_is_not_native;
use df_nfront::{one_program, refused_is_unlawful};
use df_npass::one_list_of_obligations;
use df_nproof::{derived_is_not_refused, logs_of_verdicts_derive};

/// Loads the files of a command, and carries out the command.
fn end_files<F: Files, O: Sink, E: Sink>(
    alloc: Global,
    command: &Command,
    files: &mut F,
    out: &mut O,
    err: &mut E,
) -> End
    requires file { IsFileOf (command_of command.now) (file_of (command_of command.now)) }
    requires allowed { (name : List ℕ) → IsFileOf (command_of command.now) name → F.allowed files.old name }
    requires budget { IsBudget (budget_in (command_of command.now)) }
    ensures ends { Ends (of_files (command_of command.now) (store F.Files files.old files.new)) (streams O.Sink out.old out.new E.Sink err.old err.new) result }
    ensures held { F.holds files.new ≡ F.holds files.old }
    ensures counts { F.fault_count files.old ≤ F.fault_count files.new }
    ensures keeps { Keeps O.Sink out.old out.new × Keeps E.Sink err.old err.new }
    ensures allows { (other : List ℕ) → F.allowed files.old other ↔ F.allowed files.new other }
{
    let source = match load_source(alloc, command, files) {
        Ok(source) => source,
        Err(end) => return end,
    };
    let log = match load_log(alloc, command, files) {
        Ok(log) => log,
        Err(end) => return end,
    };
    match source {
        Some(source) => end_source(alloc, command, &log, source.as_slice(), out, err),
        None => told(Status::Refused, large_text(alloc, file(command))),
    }
}

/// A number that fits 32 bits, in 32 bits.
fn narrow(number: u64) -> u32
    requires { number ≤ 4294967295 }
    ensures { result ≡ number }
{
    u32::try_from(number).unwrap_or(u32::MAX)
}

/// Makes the source of this seed, and carries out the command on it.
fn end_bulk<O: Sink, E: Sink>(
    alloc: Global,
    command: &Command,
    seed: u64,
    count: u64,
    out: &mut O,
    err: &mut E,
) -> End
    requires bulk { command_of command.now ≡ lines.Bulk seed count }
    requires limits { IsInLimits (command_of command.now) }
    ensures ends { (files : Store) → Ends (of_files (command_of command.now) files) (streams O.Sink out.old out.new E.Sink err.old err.new) result }
    ensures keeps { Keeps O.Sink out.old out.new × Keeps E.Sink err.old err.new }
{
    match source(alloc, seed, narrow(count)) {
        Ok(source) => end_source(
            alloc,
            command,
            &LogFile::Absent,
            source.as_slice(),
            out,
            err,
        ),
        Err(_) => End::Memory,
    }
}

/// Carries out a command.
fn end_command<F: Files, O: Sink, E: Sink>(
    alloc: Global,
    command: &Command,
    files: &mut F,
    out: &mut O,
    err: &mut E,
) -> End
    requires allowed { (name : List ℕ) → IsFileOf (command_of command.now) name → F.allowed files.old name }
    requires limits { IsInLimits (command_of command.now) }
    ensures ends { Ends (of_files (command_of command.now) (store F.Files files.old files.new)) (streams O.Sink out.old out.new E.Sink err.old err.new) result }
    ensures held { F.holds files.new ≡ F.holds files.old }
    ensures counts { F.fault_count files.old ≤ F.fault_count files.new }
    ensures keeps { Keeps O.Sink out.old out.new × Keeps E.Sink err.old err.new }
    ensures allows { (other : List ℕ) → F.allowed files.old other ↔ F.allowed files.new other }
{
    match command {
        Command::Bulk { seed, count } => end_bulk(alloc, command, *seed, *count, out, err),
        Command::Verify { .. } => end_files(alloc, command, files, out, err),
        Command::Prove { .. } => end_files(alloc, command, files, out, err),
        Command::Check { .. } => end_files(alloc, command, files, out, err),
        Command::Build { .. } => end_files(alloc, command, files, out, err),
        Command::Run { .. } => end_files(alloc, command, files, out, err),
    }
}

/// Carries out a command, and tells why it has no end of its own.
fn carry_out<F: Files, O: Sink, E: Sink>(
    alloc: Global,
    words: &[String],
    command: &Command,
    files: &mut F,
    out: &mut O,
    err: &mut E,
) -> Status
    requires line { IsLine (map string_bytes words.now) (command_of command.now) }
    requires allowed { (name : List ℕ) → IsFileOf (command_of command.now) name → F.allowed files.old name }
    ensures answers { Answers (call_of (map string_bytes words.now) F.Files files.old files.new O.Sink out.old out.new E.Sink err.old err.new) result }
    ensures held { F.holds files.new ≡ F.holds files.old }
    ensures counts { F.fault_count files.old ≤ F.fault_count files.new }
    ensures keeps { Keeps O.Sink out.old out.new × Keeps E.Sink err.old err.new }
    ensures allows { (other : List ℕ) → F.allowed files.old other ↔ F.allowed files.new other }
{
    limits();
    match end_command(alloc, command, files, out, err) {
        End::Done => Status::Done,
        End::Unproved => Status::Unproved,
        End::FuelSpent => tell_fuel(err),
        End::Told(status, line) => tell(err, line.as_slice(), status),
        End::Unwritten => Status::Unwritten,
        End::Memory => tell_memory(err),
    }
}

/// Carries out the command of the words, if there is one.
fn answer<F: Files, O: Sink, E: Sink>(
    alloc: Global,
    words: &[String],
    files: &mut F,
    out: &mut O,
    err: &mut E,
) -> Status
    requires { (command : lines.Command) (name : List ℕ) → IsLine (map string_bytes words.now) command → IsFileOf command name → F.allowed files.old name }
    ensures answers { Answers (call_of (map string_bytes words.now) F.Files files.old files.new O.Sink out.old out.new E.Sink err.old err.new) result }
    ensures held { F.holds files.new ≡ F.holds files.old }
    ensures counts { F.fault_count files.old ≤ F.fault_count files.new }
    ensures keeps { Keeps O.Sink out.old out.new × Keeps E.Sink err.old err.new }
    ensures allows { (other : List ℕ) → F.allowed files.old other ↔ F.allowed files.new other }
{
    match line(alloc, words) {
        Ok(command) => carry_out(alloc, words, &command, files, out, err),
        Err(LineFault::Usage) => tell_usage(err),
        Err(LineFault::Memory) => tell_memory(err),
    }
}

/// Carries out the command of the words.
///
/// `verify FILE` puts the report on the file's program on `out`, and `prove FILE` the text of a log for each obligation.
/// `check FILE LOG` checks such a log, and puts the report. `build FILE` compiles the program, proves it, and puts the
/// listing of its code; `run FILE` does so, and puts the text of Main as the machine runs it. With `--proof LOG` these two
/// check the log and prove nothing. `bulk SEED N` makes a source and runs it, and puts the last line of the report before
/// the text. Where an obligation is unproved, `prove`, `build` and `run` put the report on `err`, and `bulk` its last line on
/// `out`. The statuses but 0, 1 and 5 are told by a line on `err`. The source of which all is promised is what the files gave,
/// and what the file holds where they tell it; what is said of `out` and `err` counts where these tell what they take.
pub fn top<F: Files, O: Sink, E: Sink>(
    alloc: Global,
    words: &[String],
    files: &mut F,
    out: &mut O,
    err: &mut E,
) -> Status
    requires { (command : lines.Command) (name : List ℕ) → IsLine (map string_bytes words.now) command → IsFileOf command name → F.allowed files.old name }
    // What `out`, `err` and the files have at each status.
    ensures answers { Answers (call_of (map string_bytes words.now) F.Files files.old files.new O.Sink out.old out.new E.Sink err.old err.new) result }
    // The headline: where `build` or `run` accepts the source bytes, then for every method, closed heap and arguments that
    // meet its requires, the emitted erased code never faults, ends within some number of steps unless memory is refused,
    // and leaves the printed bytes, results and changed objects of a run of the unerased program that satisfies every
    // assertion, contract and frame. `bulk` is `run` on the source that is made.
    ensures headline { AcceptsRight (call_of (map string_bytes words.now) F.Files files.old files.new O.Sink out.old out.new E.Sink err.old err.new) result }
    // Where `verify`, `prove` or `check` tells of no failure, every method of the source is correct.
    ensures right { JudgesRight (call_of (map string_bytes words.now) F.Files files.old files.new O.Sink out.old out.new E.Sink err.old err.new) result }
    // Where a command ends with status 0 or 7, each obligation of the source has a log that derives it.
    ensures derived { DerivesAll (call_of (map string_bytes words.now) F.Files files.old files.new O.Sink out.old out.new E.Sink err.old err.new) result }
    // Completeness: but for counted faults and want of memory the status is the one that is due.
    ensures complete { IsComplete (call_of (map string_bytes words.now) F.Files files.old files.new O.Sink out.old out.new E.Sink err.old err.new) result }
    ensures held { F.holds files.new ≡ F.holds files.old }
    ensures counts { (F.fault_count files.old ≤ F.fault_count files.new) × (O.fault_count out.old ≤ O.fault_count out.new) × (E.fault_count err.old ≤ E.fault_count err.new) }
    // Whether a sink takes memory, and which names the files allow, no call changes.
    ensures stays { (O.takes_memory out.new ≡ O.takes_memory out.old) × (E.takes_memory err.new ≡ E.takes_memory err.old) }
    ensures allows { (other : List ℕ) → F.allowed files.old other ↔ F.allowed files.new other }
{
    one_program();
    refused_is_unlawful();
    broken_is_not_native();
    logs_of_verdicts_derive();
    derived_is_not_refused();
    one_list_of_obligations();
    df_logtext::one_text();
    df_logtext::bad_is_no_text();
    answer(alloc, words, files, out, err)
}
