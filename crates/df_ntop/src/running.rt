//! Commands that compile and run a program.

ghost use Rattle.std.specs.Prelude.{◌≡◌, true, None, IfOk, IfErr, OnOk};
ghost use Rattle.df_lang.specs.Native.{IsNative};
ghost use Rattle.df_lang.specs.View.{program_of};
ghost use Rattle.df_meaning.specs.Correct.{AreCorrect};
ghost use Rattle.df_nback.specs.Run.{IsCompiled};
ghost use Rattle.df_ncmd.specs.Line as lines;
ghost use Rattle.df_ncmd.specs.Line.{IsBudget};
ghost use Rattle.df_ncmd.specs.View.{command_of};
ghost use Rattle.df_nmach.specs.View.{code_of};
ghost use Rattle.df_ntop.specs.Answer.{IsProved, ProvesBy, IsReady};
ghost use Rattle.df_ntop.specs.Call.{Stream, Streams, IsSilent, stream, streams};
ghost use Rattle.df_ntop.specs.Command.{file_of, log_of, budget_of as budget_in, is_bulk, puts_report, compiles, runs};
ghost use Rattle.df_ntop.specs.Ending.{IsQuiet, Ends, of_program};
ghost use Rattle.df_ntop.specs.Entry.{IsEntryAt};
ghost use Rattle.df_ntop.specs.HasNames.{HasNames};
ghost use Rattle.df_ntop.specs.Keeps.{Keeps};
ghost use Rattle.df_ntop.specs.Loaded.{LogFile as LogsOf, IsNamed};
ghost use Rattle.df_ntop.specs.Running.{IsRunEnd};
ghost use Rattle.df_ntop.specs.View.{log_file_of};

use crate::checking::check_log;
use crate::ending::End;
use crate::entries::entry;
use crate::logs::{LogFile, is_absent};
use crate::machine::{Ran, run_main};
use crate::naming::{budget, file};
use crate::proving::prove;
use crate::putting::{put_line, put_listing, put_report};
use crate::telling::{native_text, no_main_text, told};
use df_base::{Global, Sink, Status};
use df_lang::Program;
use df_nback::{EraseFault, compile};
use df_ncmd::{Command, FUEL_LIMIT};
use df_nghost::Checked;
use df_nmach::Code;
use df_nproof::outcomes_are;

/// The code of a program, or how a command ends without it: the first rule that is broken on what compiles is told.
fn compiled(alloc: Global, command: &Command, program: &Checked) -> Result<Code, End>
    requires names { HasNames (program_of program.now.program) }
    requires compiles { compiles (command_of command.now) ≡ true }
    ensures compiled { IfOk result (λ code. IsCompiled (program_of program.now.program) (code_of code)) }
    ensures native { IfOk result (λ code. IsNative (program_of program.now.program)) }
    ensures ends { IfErr result (λ end. (log : LogsOf) (s : Streams) → IsQuiet s → Ends (of_program (command_of command.now) log (program_of program.now.program)) s end) }
{
    match compile(alloc, &program.program) {
        Ok(code) => Ok(code),
        Err(EraseFault::NotNative(pos, rule)) => Err(told(
            Status::NotCompilable,
            native_text(alloc, file(command), pos, rule),
        )),
        Err(EraseFault::Memory) => Err(End::Memory),
    }
}

/// The number of the entry of a program that compiles, or how a command ends without it.
fn entered(alloc: Global, command: &Command, program: &Checked) -> Result<usize, End>
    requires runs { runs (command_of command.now) ≡ true }
    requires native { IsNative (program_of program.now.program) }
    ensures entry { IfOk result (IsEntryAt (program_of program.now.program)) }
    ensures ends { IfErr result (λ end. (log : LogsOf) (s : Streams) → IsQuiet s → Ends (of_program (command_of command.now) log (program_of program.now.program)) s end) }
{
    match entry(&program.program) {
        Some(number) => Ok(number),
        None => Err(told(Status::NoMain, no_main_text(alloc, file(command)))),
    }
}

/// Proves a program by a search, or tells how a command ends where that fails: the report is put on `err`.
fn searched<E: Sink>(
    alloc: Global,
    command: &Command,
    program: &Checked,
    err: &mut E,
) -> Result<(), End>
    requires unlogged { log_of (command_of command.now) ≡ None }
    requires puts { puts_report (command_of command.now) ≡ true }
    requires budget { IsBudget (budget_in (command_of command.now)) }
    requires ready { IsReady (command_of command.now) (program_of program.now.program) }
    ensures proved { OnOk result (IsProved (program_of program.now.program) (budget_in (command_of command.now))) }
    ensures silent { OnOk result (err.new ≡ err.old) }
    ensures ends { IfErr result (λ end. (log : LogsOf) (out : Stream) → IsSilent out → Ends (of_program (command_of command.now) log (program_of program.now.program)) (record { out = out; err = stream E.Sink err.old err.new }) end) }
    ensures keeps { Keeps E.Sink err.old err.new }
{
    let Ok(report) = prove(alloc, program, budget(command)) else {
        return Err(End::Memory);
    };
    if !report.verified {
        return Err(put_report(err, &report));
    }
    Ok(())
}

/// Proves a program, by its log where the command names one, or tells how the command ends where that fails.
fn proved<E: Sink>(
    alloc: Global,
    command: &Command,
    log: &LogFile,
    program: &Checked,
    err: &mut E,
) -> Result<(), End>
    requires puts { puts_report (command_of command.now) ≡ true }
    requires budget { IsBudget (budget_in (command_of command.now)) }
    requires named { IsNamed (log_of (command_of command.now)) (log_file_of log.now) }
    requires ready { IsReady (command_of command.now) (program_of program.now.program) }
    ensures proved { OnOk result (IsProved (program_of program.now.program) (budget_in (command_of command.now))) }
    ensures proves { OnOk result (ProvesBy (program_of program.now.program) (log_file_of log.now)) }
    ensures silent { OnOk result (err.new ≡ err.old) }
    ensures ends { IfErr result (λ end. (out : Stream) → IsSilent out → Ends (of_program (command_of command.now) (log_file_of log.now) (program_of program.now.program)) (record { out = out; err = stream E.Sink err.old err.new }) end) }
    ensures keeps { Keeps E.Sink err.old err.new }
{
    if is_absent(log) {
        return match searched(alloc, command, program, err) {
            Ok(()) => Ok(()),
            Err(end) => Err(end),
        };
    }
    match check_log(alloc, command, program, log) {
        Ok(_) => Ok(()),
        Err(end) => Err(end),
    }
}

/// Compiles a program and proves it, and puts the listing of its code.
pub(crate) fn build<O: Sink, E: Sink>(
    alloc: Global,
    command: &Command,
    log: &LogFile,
    program: &Checked,
    out: &mut O,
    err: &mut E,
) -> End
    requires build { command_of command.now ≡ lines.Build (file_of (command_of command.now)) (log_of (command_of command.now)) (budget_in (command_of command.now)) }
    requires budget { IsBudget (budget_in (command_of command.now)) }
    requires names { HasNames (program_of program.now.program) }
    requires named { IsNamed (log_of (command_of command.now)) (log_file_of log.now) }
    ensures ends { Ends (of_program (command_of command.now) (log_file_of log.now) (program_of program.now.program)) (streams O.Sink out.old out.new E.Sink err.old err.new) result }
    ensures keeps { Keeps O.Sink out.old out.new × Keeps E.Sink err.old err.new }
{
    let code = match compiled(alloc, command, program) {
        Ok(code) => code,
        Err(end) => return end,
    };
    match proved(alloc, command, log, program, err) {
        Ok(()) => put_listing(alloc, out, &code),
        Err(end) => end,
    }
}

/// Runs the entry of this number.
fn run_entry<O: Sink>(
    alloc: Global,
    program: &Program,
    code: &Code,
    number: usize,
    fuel: u64,
    out: &mut O,
) -> End
    requires correct { AreCorrect (program_of program.now) }
    requires compiled { IsCompiled (program_of program.now) (code_of code.now) }
    requires entry { IsEntryAt (program_of program.now) number }
    ensures runs { IsRunEnd (program_of program.now) (code_of code.now) number fuel (stream O.Sink out.old out.new) result }
    ensures keeps { Keeps O.Sink out.old out.new }
{
    match run_main(alloc, program, code, number, fuel, out) {
        Ran::Ended => End::Done,
        Ran::FuelSpent => End::FuelSpent,
        Ran::Write => End::Unwritten,
        Ran::Memory => End::Memory,
    }
}

/// Compiles a program and finds its entry, and then proves it and runs the entry.
pub(crate) fn run<O: Sink, E: Sink>(
    alloc: Global,
    command: &Command,
    fuel: u64,
    log: &LogFile,
    program: &Checked,
    out: &mut O,
    err: &mut E,
) -> End
    requires run { command_of command.now ≡ lines.Run (file_of (command_of command.now)) (log_of (command_of command.now)) (budget_in (command_of command.now)) fuel }
    requires budget { IsBudget (budget_in (command_of command.now)) }
    requires names { HasNames (program_of program.now.program) }
    requires named { IsNamed (log_of (command_of command.now)) (log_file_of log.now) }
    ensures ends { Ends (of_program (command_of command.now) (log_file_of log.now) (program_of program.now.program)) (streams O.Sink out.old out.new E.Sink err.old err.new) result }
    ensures keeps { Keeps O.Sink out.old out.new × Keeps E.Sink err.old err.new }
{
    let code = match compiled(alloc, command, program) {
        Ok(code) => code,
        Err(end) => return end,
    };
    let number = match entered(alloc, command, program) {
        Ok(number) => number,
        Err(end) => return end,
    };
    match proved(alloc, command, log, program, err) {
        Ok(()) => run_entry(alloc, &program.program, &code, number, fuel, out),
        Err(end) => end,
    }
}

/// Proves a program, puts the last line of the report, and runs the entry of this number where all is proved.
fn report_and_run<O: Sink>(
    alloc: Global,
    command: &Command,
    program: &Checked,
    code: &Code,
    number: usize,
    out: &mut O,
) -> End
    requires bulk { is_bulk (command_of command.now) ≡ true }
    requires budget { IsBudget (budget_in (command_of command.now)) }
    requires native { IsNative (program_of program.now.program) }
    requires compiled { IsCompiled (program_of program.now.program) (code_of code.now) }
    requires entry { IsEntryAt (program_of program.now.program) number }
    ensures ends { (log : LogsOf) (err : Stream) → IsSilent err → Ends (of_program (command_of command.now) log (program_of program.now.program)) (record { out = stream O.Sink out.old out.new; err = err }) result }
    ensures keeps { Keeps O.Sink out.old out.new }
{
    outcomes_are();
    let Ok(report) = prove(alloc, program, budget(command)) else {
        return End::Memory;
    };
    match put_line(out, report.last.as_slice()) {
        Ok(()) => {}
        Err(end) => return end,
    }
    if !report.verified {
        return End::Unproved;
    }
    run_entry(alloc, &program.program, code, number, FUEL_LIMIT, out)
}

/// Compiles a program that was made and finds its entry, and then proves it, puts the last line of the report, and runs
/// the entry.
pub(crate) fn bulk<O: Sink>(alloc: Global, command: &Command, program: &Checked, out: &mut O) -> End
    requires bulk { is_bulk (command_of command.now) ≡ true }
    requires budget { IsBudget (budget_in (command_of command.now)) }
    requires names { HasNames (program_of program.now.program) }
    ensures ends { (log : LogsOf) (err : Stream) → IsSilent err → Ends (of_program (command_of command.now) log (program_of program.now.program)) (record { out = stream O.Sink out.old out.new; err = err }) result }
    ensures keeps { Keeps O.Sink out.old out.new }
{
    let code = match compiled(alloc, command, program) {
        Ok(code) => code,
        Err(end) => return end,
    };
    let number = match entered(alloc, command, program) {
        Ok(number) => number,
        Err(end) => return end,
    };
    report_and_run(alloc, command, program, &code, number, out)
}
