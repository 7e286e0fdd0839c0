//! Commands that tell what is proved of a program.

ghost use Rattle.std.specs.Prelude.{◌≡◌};
ghost use Rattle.df_lang.specs.View.{program_of};
ghost use Rattle.df_ncmd.specs.Line as lines;
ghost use Rattle.df_ncmd.specs.Line.{IsBudget};
ghost use Rattle.df_ncmd.specs.View.{command_of};
ghost use Rattle.df_ntop.specs.Call.{Stream, IsSilent, stream, streams};
ghost use Rattle.df_ntop.specs.Command.{file_of, log_of, log_name_of, budget_of as budget_in};
ghost use Rattle.df_ntop.specs.Ending.{Ends, of_program};
ghost use Rattle.df_ntop.specs.HasNames.{HasNames};
ghost use Rattle.df_ntop.specs.Keeps.{Keeps};
ghost use Rattle.df_ntop.specs.Loaded.{LogFile as LogsOf, IsNamed};
ghost use Rattle.df_ntop.specs.View.{log_file_of};

use crate::checking::check_log;
use crate::ending::End;
use crate::logs::LogFile;
use crate::naming::budget;
use crate::proving::{Attempt, prove, prove_with_logs, report_on};
use crate::putting::{put_logs, put_report};
use df_base::{Global, Sink};
use df_ncmd::Command;
use df_nghost::Checked;

/// Proves a program, and puts the report on `out`.
pub(crate) fn verify<O: Sink>(
    alloc: Global,
    command: &Command,
    program: &Checked,
    out: &mut O,
) -> End
    requires verify { command_of command.now ≡ lines.Verify (file_of (command_of command.now)) (budget_in (command_of command.now)) }
    requires budget { IsBudget (budget_in (command_of command.now)) }
    ensures ends { (log : LogsOf) (err : Stream) → IsSilent err → Ends (of_program (command_of command.now) log (program_of program.now.program)) (record { out = stream O.Sink out.old out.new; err = err }) result }
    ensures keeps { Keeps O.Sink out.old out.new }
{
    match prove(alloc, program, budget(command)) {
        Ok(report) => put_report(out, &report),
        Err(_) => End::Memory,
    }
}

/// Proves a program, and puts the text of its logs on `out`, or the report with a failure on `err`.
pub(crate) fn prove_file<O: Sink, E: Sink>(
    alloc: Global,
    command: &Command,
    program: &Checked,
    out: &mut O,
    err: &mut E,
) -> End
    requires prove { command_of command.now ≡ lines.Prove (file_of (command_of command.now)) (budget_in (command_of command.now)) }
    requires budget { IsBudget (budget_in (command_of command.now)) }
    requires names { HasNames (program_of program.now.program) }
    ensures ends { (log : LogsOf) → Ends (of_program (command_of command.now) log (program_of program.now.program)) (streams O.Sink out.old out.new E.Sink err.old err.new) result }
    ensures keeps { Keeps O.Sink out.old out.new × Keeps E.Sink err.old err.new }
{
    match prove_with_logs(alloc, program, budget(command)) {
        Ok(Attempt::Logs(text)) => put_logs(out, text.as_slice()),
        Ok(Attempt::Failure(report)) => put_report(err, &report),
        Err(_) => End::Memory,
    }
}

/// Checks the log of a program, and puts the report on `out`.
pub(crate) fn check_file<O: Sink>(
    alloc: Global,
    command: &Command,
    log: &LogFile,
    program: &Checked,
    out: &mut O,
) -> End
    requires check { command_of command.now ≡ lines.Check (file_of (command_of command.now)) (log_name_of (command_of command.now)) }
    requires named { IsNamed (log_of (command_of command.now)) (log_file_of log.now) }
    ensures ends { (err : Stream) → IsSilent err → Ends (of_program (command_of command.now) (log_file_of log.now) (program_of program.now.program)) (record { out = stream O.Sink out.old out.new; err = err }) result }
    ensures keeps { Keeps O.Sink out.old out.new }
{
    let outcomes = match check_log(alloc, command, program, log) {
        Ok(outcomes) => outcomes,
        Err(end) => return end,
    };
    match report_on(alloc, outcomes.as_slice()) {
        Ok(report) => put_report(out, &report),
        Err(_) => End::Memory,
    }
}
