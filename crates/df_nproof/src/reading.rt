//! Texts of logs, checked against programs.

ghost use Rattle.std.specs.Prelude.{map, IfErr, IfOk, OnOk};
ghost use Rattle.df_lang.specs.View.{program_of};
ghost use Rattle.df_logtext.specs.BadLog.{IsText};
ghost use Rattle.df_logtext.specs.View.{logs_of};
ghost use Rattle.df_meaning.specs.Correct.{AreCorrect};
ghost use Rattle.df_report.specs.View.{outcome_of};
ghost use Rattle.df_nproof.specs.Names.{names_in};
ghost use Rattle.df_nproof.specs.Proofs.{IsCheckedBy};
ghost use Rattle.df_nproof.specs.Checking.{IsUnread, IsNoLog};

use crate::checking::check_parts;
use crate::fault::CheckFault;
use crate::law::proofs_are_correct;
use crate::naming::names;
use crate::outcomes::verified;
use df_form::Step;
use df_groups::groups;
use df_lang::Program;
use df_logtext::{LogFault, read};
use df_nghost::Checked;
use df_report::Outcome;
use std::alloc::Global;

/// The parts of which the bytes are the text, where types have their names from the program.
fn parts(alloc: Global, program: &Program, bytes: &[u8]) -> Result<Vec<Vec<Step>>, CheckFault>
    ensures text { IfOk result (λ parts. IsText (names_in (program_of program.now)) (logs_of parts.items) bytes.now) }
    ensures unread { IfErr result (IsUnread (program_of program.now) bytes.now) }
{
    let Ok(names) = names(alloc, program) else {
        return Err(CheckFault::Memory);
    };
    match read(alloc, names.as_slice(), bytes) {
        Ok(parts) => Ok(parts),
        Err(LogFault::BadLog(line)) => Err(CheckFault::NotALog(line)),
        Err(LogFault::Memory) => Err(CheckFault::Memory),
    }
}

/// Checks that the bytes are a log of the program: the text of logs, of which one derives each obligation of the
/// program, in their order. Then each method is verified, and these are its outcomes.
///
/// It answers `NotALog` exactly where they are the text of no logs, and then `Refused` exactly where a part is missing,
/// one too many, or refused by the kernel, with the first such part.
pub fn check(alloc: Global, program: &Checked, bytes: &[u8]) -> Result<Vec<Outcome>, CheckFault>
    ensures checked { IfOk result (λ outcomes. IsCheckedBy (program_of program.now.program) bytes.now (map outcome_of outcomes.items)) }
    // Each method is then correct.
    ensures correct { OnOk result (AreCorrect (program_of program.now.program)) }
    ensures refused { IfErr result (IsNoLog (program_of program.now.program) bytes.now) }
{
    proofs_are_correct();
    let Ok(groups) = groups(alloc, &program.program) else {
        return Err(CheckFault::Memory);
    };
    let parts = match parts(alloc, &program.program, bytes) {
        Ok(parts) => parts,
        Err(fault) => return Err(fault),
    };
    match check_parts(alloc, &program.program, groups.as_slice(), parts.as_slice()) {
        Ok(()) => {}
        Err(fault) => return Err(fault),
    }
    match verified(alloc, &program.program) {
        Ok(outcomes) => Ok(outcomes),
        Err(_) => Err(CheckFault::Memory),
    }
}
