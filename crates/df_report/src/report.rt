//! The text of reports.

ghost use Rattle.std.specs.Prelude.{◌≡◌, ◌++◌, map, OnOk, IfOk};
ghost use Rattle.std.specs.List.{flat_map};
ghost use Rattle.df_report.specs.Report.{parameter_text, failure_line, failure_text, outcome_line, outcome_text, count_verified, count_unproved, counted, summary, report_text};
ghost use Rattle.df_report.specs.View.{parameter_of, failure_of, outcome_of};

use crate::outcome::{Failure, Outcome, Parameter};
use std::alloc::{AllocError, Global};

fn push_parameter(
    alloc: Global,
    text: &mut Vec<u8>,
    parameter: &Parameter,
) -> Result<(), AllocError>
    ensures { OnOk result (text.new.items ≡ text.old.items ++ parameter_text (parameter_of parameter.now)) }
{
    let name = parameter.name.as_str();
    let value = parameter.value;
    let line = format!(in alloc; "    {name} = {value}\n")?;
    text.extend_from_slice(line.as_bytes())?;
    Ok(())
}

fn push_parameters(
    alloc: Global,
    text: &mut Vec<u8>,
    parameters: &[Parameter],
) -> Result<(), AllocError>
    ensures { OnOk result (text.new.items ≡ text.old.items ++ flat_map parameter_text (map parameter_of parameters.now)) }
{
    for parameter in parameters {
        push_parameter(alloc, text, parameter)?;
    }
    Ok(())
}

fn push_failure_line(alloc: Global, text: &mut Vec<u8>, failure: &Failure) -> Result<(), AllocError>
    ensures { OnOk result (text.new.items ≡ text.old.items ++ failure_line (failure_of failure.now)) }
{
    let line = failure.pos.line;
    let col = failure.pos.col;
    let kind = failure.kind.as_str();
    let evidence = failure.evidence.word();
    let line = format!(in alloc; "  {line}:{col} {kind}: {evidence}\n")?;
    text.extend_from_slice(line.as_bytes())?;
    Ok(())
}

fn push_failure(alloc: Global, text: &mut Vec<u8>, failure: &Failure) -> Result<(), AllocError>
    ensures { OnOk result (text.new.items ≡ text.old.items ++ failure_text (failure_of failure.now)) }
{
    push_failure_line(alloc, text, failure)?;
    push_parameters(alloc, text, &failure.parameters)
}

fn push_failures(alloc: Global, text: &mut Vec<u8>, failures: &[Failure]) -> Result<(), AllocError>
    ensures { OnOk result (text.new.items ≡ text.old.items ++ flat_map failure_text (map failure_of failures.now)) }
{
    for failure in failures {
        push_failure(alloc, text, failure)?;
    }
    Ok(())
}

fn push_outcome_line(alloc: Global, text: &mut Vec<u8>, outcome: &Outcome) -> Result<(), AllocError>
    ensures { OnOk result (text.new.items ≡ text.old.items ++ outcome_line (outcome_of outcome.now)) }
{
    let name = outcome.name.as_str();
    let verdict = if outcome.failures.is_empty() {
        "verified"
    } else {
        "unproved"
    };
    let line = format!(in alloc; "{name}: {verdict}\n")?;
    text.extend_from_slice(line.as_bytes())?;
    Ok(())
}

fn push_outcome(alloc: Global, text: &mut Vec<u8>, outcome: &Outcome) -> Result<(), AllocError>
    ensures { OnOk result (text.new.items ≡ text.old.items ++ outcome_text (outcome_of outcome.now)) }
{
    push_outcome_line(alloc, text, outcome)?;
    push_failures(alloc, text, &outcome.failures)
}

fn push_outcomes(alloc: Global, text: &mut Vec<u8>, outcomes: &[Outcome]) -> Result<(), AllocError>
    ensures { OnOk result (text.new.items ≡ text.old.items ++ flat_map outcome_text (map outcome_of outcomes.now)) }
{
    for outcome in outcomes {
        push_outcome(alloc, text, outcome)?;
    }
    Ok(())
}

/// How many outcomes are verified.
fn verified(outcomes: &[Outcome]) -> usize
    ensures { result ≡ count_verified (map outcome_of outcomes.now) }
{
    outcomes
        .iter()
        .filter(|outcome| outcome.failures.is_empty())
        .count()
}

/// How many are not.
fn unproved(outcomes: &[Outcome]) -> usize
    ensures { result ≡ count_unproved (map outcome_of outcomes.now) }
{
    outcomes
        .iter()
        .filter(|outcome| !outcome.failures.is_empty())
        .count()
}

fn push_count(alloc: Global, text: &mut Vec<u8>, count: usize, what: &str) -> Result<(), AllocError>
    ensures { OnOk result (text.new.items ≡ text.old.items ++ counted count what.now) }
{
    let count = count.to_string(alloc)?;
    text.extend_from_slice(count.as_bytes())?;
    text.extend_from_slice(what.as_bytes())?;
    Ok(())
}

fn push_summary(alloc: Global, text: &mut Vec<u8>, outcomes: &[Outcome]) -> Result<(), AllocError>
    ensures { OnOk result (text.new.items ≡ text.old.items ++ summary (map outcome_of outcomes.now)) }
{
    push_count(alloc, text, verified(outcomes), " verified, ")?;
    push_count(alloc, text, unproved(outcomes), " unproved\n")
}

/// The last line of the report: how many outcomes are verified and how many unproved.
pub fn last_line(alloc: Global, outcomes: &[Outcome]) -> Result<Vec<u8>, AllocError>
    ensures { IfOk result (λ text. text.items ≡ summary (map outcome_of outcomes.now)) }
{
    let mut text = Vec::new(alloc);
    push_summary(alloc, &mut text, outcomes)?;
    Ok(text)
}

/// The report on outcomes: for each its name with `verified` or `unproved`; after `unproved` for each
/// failure its place, kind and evidence, and after `model` the parameters; and last how many are verified
/// and how many unproved. Each line ends with a line feed.
pub fn lines(alloc: Global, outcomes: &[Outcome]) -> Result<Vec<u8>, AllocError>
    ensures { IfOk result (λ text. text.items ≡ report_text (map outcome_of outcomes.now)) }
{
    let mut text = Vec::new(alloc);
    push_outcomes(alloc, &mut text, outcomes)?;
    push_summary(alloc, &mut text, outcomes)?;
    Ok(text)
}
