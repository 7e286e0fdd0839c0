//! Programs, proved.

ghost use Rattle.std.specs.Prelude.{◌≡◌, ◌≤◌, IfOk, map};
ghost use Rattle.df_report.specs.Report.{count_unproved};
ghost use Rattle.df_report.specs.View.{outcome_of};
ghost use Rattle.df_lang.specs.View.{program_of};
ghost use Rattle.df_nverdict.specs.Verdict.{are_verified};
ghost use Rattle.df_ntop.specs.Proving.{Reports, IsAttempt, Attempts};
ghost use Rattle.df_ntop.specs.Answer.{IsReport, IsLastLine};
ghost use Rattle.df_ntop.specs.HasNames.{HasNames};

use df_base::{Global, Memory};
use df_groups::groups;
use df_nghost::Checked;
use df_nproof::{derived_logs_have_text, logs_of_verdicts_derive, text};
use df_nverdict::{Judged, verdicts};
use df_report::{Outcome, last_line, lines};
use df_search::Budget;
use std::alloc::AllocError;

/// The report on a program.
#[derive(Drop)]
pub(crate) struct Report {
    /// It tells of no failure.
    pub verified: bool,
    pub text: Vec<u8>,
    /// The last line of the text.
    pub last: Vec<u8>,
}

/// What comes of an attempt to prove a program with logs.
#[derive(Drop)]
pub(crate) enum Attempt {
    /// The text of a log for each obligation.
    Logs(Vec<u8>),
    /// A report that tells of a failure.
    Failure(Report),
}

/// How many outcomes have a failure.
fn unproved(outcomes: &[Outcome]) -> usize
    ensures { result ≡ count_unproved (map outcome_of outcomes.now) }
{
    outcomes
        .iter()
        .filter(|outcome| !outcome.failures.is_empty())
        .count()
}

/// Whether no outcome has a failure.
fn all_verified(outcomes: &[Outcome]) -> bool
    ensures { result ≡ are_verified (map outcome_of outcomes.now) }
{
    unproved(outcomes) == 0
}

/// The report on outcomes.
pub(crate) fn report_on(alloc: Global, outcomes: &[Outcome]) -> Result<Report, AllocError>
    ensures { IfOk result (λ report. Reports (map outcome_of outcomes.now) report.verified report.text.items report.last.items) }
{
    let text = lines(alloc, outcomes)?;
    let last = last_line(alloc, outcomes)?;
    Ok(Report {
        verified: all_verified(outcomes),
        text,
        last,
    })
}

/// The report on a program, of which each obligation is proved or told. `Memory` where memory is refused.
pub(crate) fn prove(alloc: Global, program: &Checked, budget: Budget) -> Result<Report, Memory>
    requires { 1 ≤ budget.steps }
    ensures report { IfOk result (λ report. IsReport (program_of program.now.program) (record { steps = budget.steps; rounds = budget.rounds }) report.verified report.text.items) }
    ensures last { IfOk result (λ report. IsLastLine (program_of program.now.program) (record { steps = budget.steps; rounds = budget.rounds }) report.verified report.last.items) }
{
    let groups = groups(alloc, &program.program)?;
    let judged = verdicts(alloc, program, groups.as_slice(), budget)?;
    let report = report_on(alloc, judged.outcomes.as_slice())?;
    Ok(report)
}

/// The logs of verdicts, where none has a failure, and else the report on them.
fn logs_or_report(alloc: Global, program: &Checked, judged: Judged) -> Result<Attempt, Memory>
    ensures { IfOk result (IsAttempt (program_of program.now.program) judged) }
{
    if all_verified(judged.outcomes.as_slice()) {
        let text = text(alloc, &program.program, judged.proofs)?;
        return Ok(Attempt::Logs(text));
    }
    let report = report_on(alloc, judged.outcomes.as_slice())?;
    Ok(Attempt::Failure(report))
}

/// The text of a log for each obligation of a program, or the report on it where one has none. `Memory` where memory is
/// refused.
pub(crate) fn prove_with_logs(
    alloc: Global,
    program: &Checked,
    budget: Budget,
) -> Result<Attempt, Memory>
    requires steps { 1 ≤ budget.steps }
    requires names { HasNames (program_of program.now.program) }
    ensures { IfOk result (Attempts (program_of program.now.program) (record { steps = budget.steps; rounds = budget.rounds })) }
{
    logs_of_verdicts_derive();
    derived_logs_have_text();
    let groups = groups(alloc, &program.program)?;
    let judged = verdicts(alloc, program, groups.as_slice(), budget)?;
    logs_or_report(alloc, program, judged)
}
