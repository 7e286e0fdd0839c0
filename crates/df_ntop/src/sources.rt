//! Commands on sources.

ghost use Rattle.df_lang.specs.View.{program_of};
ghost use Rattle.df_ncmd.specs.Line.{IsBudget};
ghost use Rattle.df_ncmd.specs.View.{command_of};
ghost use Rattle.df_ntop.specs.Call.{streams};
ghost use Rattle.df_ntop.specs.Command.{log_of, budget_of as budget_in};
ghost use Rattle.df_ntop.specs.Ending.{Ends, of_program, of_source};
ghost use Rattle.df_ntop.specs.HasNames.{HasNames};
ghost use Rattle.df_ntop.specs.Keeps.{Keeps};
ghost use Rattle.df_ntop.specs.Loaded.{IsNamed};
ghost use Rattle.df_ntop.specs.View.{log_file_of};

use crate::ending::End;
use crate::judging::{check_file, prove_file, verify};
use crate::logs::LogFile;
use crate::naming::file;
use crate::running::{build, bulk, run};
use crate::telling::told;
use df_base::{Global, Names, Sink, Status, Stop};
use df_nback::methods_by_number_have_names;
use df_ncmd::Command;
use df_nfront::{declarations_have_names, methods_have_names, read, refusal_line};
use df_nghost::Checked;

/// Carries out the command on a program.
fn end_program<O: Sink, E: Sink>(
    alloc: Global,
    command: &Command,
    log: &LogFile,
    program: &Checked,
    out: &mut O,
    err: &mut E,
) -> End
    requires budget { IsBudget (budget_in (command_of command.now)) }
    requires names { HasNames (program_of program.now.program) }
    requires named { IsNamed (log_of (command_of command.now)) (log_file_of log.now) }
    ensures ends { Ends (of_program (command_of command.now) (log_file_of log.now) (program_of program.now.program)) (streams O.Sink out.old out.new E.Sink err.old err.new) result }
    ensures keeps { Keeps O.Sink out.old out.new × Keeps E.Sink err.old err.new }
{
    match command {
        Command::Verify { .. } => verify(alloc, command, program, out),
        Command::Prove { .. } => prove_file(alloc, command, program, out, err),
        Command::Check { .. } => check_file(alloc, command, log, program, out),
        Command::Build { .. } => build(alloc, command, log, program, out, err),
        Command::Run { fuel, .. } => run(alloc, command, *fuel, log, program, out, err),
        Command::Bulk { .. } => bulk(alloc, command, program, out),
    }
}

/// Reads a source, and carries out the command on its program.
pub(crate) fn end_source<O: Sink, E: Sink>(
    alloc: Global,
    command: &Command,
    log: &LogFile,
    source: &[u8],
    out: &mut O,
    err: &mut E,
) -> End
    requires budget { IsBudget (budget_in (command_of command.now)) }
    requires named { IsNamed (log_of (command_of command.now)) (log_file_of log.now) }
    ensures ends { Ends (of_source (command_of command.now) (log_file_of log.now) source.now) (streams O.Sink out.old out.new E.Sink err.old err.new) result }
    ensures keeps { Keeps O.Sink out.old out.new × Keeps E.Sink err.old err.new }
{
    declarations_have_names();
    methods_have_names();
    methods_by_number_have_names();
    let Ok(mut names) = Names::new(alloc) else {
        return End::Memory;
    };
    match read(alloc, source, &mut names) {
        Ok(program) => end_program(alloc, command, log, &program, out, err),
        Err(Stop::Refused(refusal)) => told(
            Status::Refused,
            refusal_line(alloc, file(command), &names, &refusal),
        ),
        Err(Stop::Memory) => End::Memory,
    }
}
