//! Programs, proved by a log.

ghost use Rattle.std.specs.Prelude.{◌≡◌, ◌≢◌, true, map, None, IfOk, IfErr};
ghost use Rattle.df_lang.specs.View.{program_of};
ghost use Rattle.df_ncmd.specs.Line.{Budget};
ghost use Rattle.df_ncmd.specs.View.{command_of};
ghost use Rattle.df_nverdict.specs.Verdict.{are_verified};
ghost use Rattle.df_report.specs.View.{outcome_of};
ghost use Rattle.df_ntop.specs.Answer.{IsVerdict, ProvesBy, IsReady};
ghost use Rattle.df_ntop.specs.Call.{Streams};
ghost use Rattle.df_ntop.specs.Command.{log_of};
ghost use Rattle.df_ntop.specs.Ending.{IsQuiet, Ends, of_program};
ghost use Rattle.df_ntop.specs.Loaded.{Log, IsNamed};
ghost use Rattle.df_ntop.specs.View.{log_file_of};

use crate::ending::End;
use crate::logs::LogFile;
use crate::naming::log_name;
use crate::telling::{bad_part_text, not_a_log_text, told, too_large_text};
use df_base::{Global, Status};
use df_ncmd::Command;
use df_nghost::Checked;
use df_nproof::{CheckFault, check};
use df_report::Outcome;

/// The outcomes of a program of which these bytes are a log, or how the command ends where they are not.
fn check_bytes(
    alloc: Global,
    command: &Command,
    program: &Checked,
    bytes: &[u8],
) -> Result<Vec<Outcome>, End>
    requires ready { IsReady (command_of command.now) (program_of program.now.program) }
    ensures verdict { IfOk result (λ outcomes. (budget : Budget) → IsVerdict (program_of program.now.program) budget (map outcome_of outcomes.items)) }
    ensures verified { IfOk result (λ outcomes. are_verified (map outcome_of outcomes.items) ≡ true) }
    ensures proves { IfOk result (λ outcomes. ProvesBy (program_of program.now.program) (Log bytes.now)) }
    ensures ends { IfErr result (λ end. (s : Streams) → IsQuiet s → Ends (of_program (command_of command.now) (Log bytes.now) (program_of program.now.program)) s end) }
{
    match check(alloc, program, bytes) {
        Ok(outcomes) => Ok(outcomes),
        Err(CheckFault::NotALog(line)) => Err(told(
            Status::BadLog,
            not_a_log_text(alloc, log_name(command), line),
        )),
        Err(CheckFault::Refused { obligation, step }) => Err(told(
            Status::BadLog,
            bad_part_text(alloc, log_name(command), obligation, step),
        )),
        Err(CheckFault::Memory) => Err(End::Memory),
    }
}

/// The outcomes of a program that its log proves, or how the command ends where it does not.
pub(crate) fn check_log(
    alloc: Global,
    command: &Command,
    program: &Checked,
    log: &LogFile,
) -> Result<Vec<Outcome>, End>
    requires ready { IsReady (command_of command.now) (program_of program.now.program) }
    requires named { IsNamed (log_of (command_of command.now)) (log_file_of log.now) }
    requires there { log_of (command_of command.now) ≢ None }
    ensures verdict { IfOk result (λ outcomes. (budget : Budget) → IsVerdict (program_of program.now.program) budget (map outcome_of outcomes.items)) }
    ensures verified { IfOk result (λ outcomes. are_verified (map outcome_of outcomes.items) ≡ true) }
    ensures proves { IfOk result (λ outcomes. ProvesBy (program_of program.now.program) (log_file_of log.now)) }
    ensures ends { IfErr result (λ end. (s : Streams) → IsQuiet s → Ends (of_program (command_of command.now) (log_file_of log.now) (program_of program.now.program)) s end) }
{
    match log {
        LogFile::Bytes(bytes) => match check_bytes(alloc, command, program, bytes.as_slice()) {
            Ok(outcomes) => Ok(outcomes),
            Err(end) => Err(end),
        },
        LogFile::TooLarge => Err(told(Status::BadLog, too_large_text(alloc, log_name(command)))),
        LogFile::Absent => unreachable!(),
    }
}
