//! Reports.

use crate::expecting::expect;
use df_base::Pos;
use df_report::{Evidence, Failure, Outcome, Parameter, lines};
use std::alloc::Global;

/// A parameter and its number.
type Named<'a> = (&'a str, i128);

/// A line and a column, the kind, the evidence, and parameters.
type Failed<'a> = (u32, u32, &'a str, Evidence, &'a [Named<'a>]);

/// Declarations with their failures, and the report on them.
const REPORTS: [(&[(&str, &[Failed])], &str); 4] = [
    (&[], "0 verified, 0 unproved\n"),
    (&[("Main", &[])], "Main: verified\n1 verified, 0 unproved\n"),
    (
        &[(
            "Abs",
            &[(5, 19, "range", Evidence::Model, &[("x", -2147483648)])],
        )],
        "Abs: unproved\n  5:19 range: model\n    x = -2147483648\n0 verified, 1 unproved\n",
    ),
    (
        &[
            ("A.f", &[]),
            (
                "A.C.new",
                &[
                    (1, 2, "assert", Evidence::Spent, &[]),
                    (33, 4, "modifies", Evidence::Wide, &[]),
                    (4294967295, 10, "decreases", Evidence::Many, &[]),
                    (7, 8, "ensures", Evidence::Model, &[("a", 0), ("bc", 7)]),
                ],
            ),
            ("g", &[]),
        ],
        "A.f: verified\nA.C.new: unproved\n  1:2 assert: spent\n  33:4 modifies: wide\n  4294967295:10 decreases: many\n  7:8 ensures: model\n    a = 0\n    bc = 7\ng: verified\n2 verified, 1 unproved\n",
    ),
];

fn push_parameter(alloc: Global, parameters: &mut Vec<Parameter>, named: Named) -> bool {
    let (name, value) = named;
    match String::from_str(alloc, name) {
        Ok(name) => parameters.push(Parameter { name, value }).is_ok(),
        Err(_) => false,
    }
}

fn push_parameters(alloc: Global, parameters: &mut Vec<Parameter>, named: &[Named]) -> bool {
    for one in named {
        if !push_parameter(alloc, parameters, *one) {
            return false;
        }
    }
    true
}

/// A failure without its parameters.
fn bare(alloc: Global, failed: Failed) -> Option<Failure> {
    let (line, col, kind, evidence, _) = failed;
    match String::from_str(alloc, kind) {
        Ok(kind) => Some(Failure {
            pos: Pos { line, col },
            kind,
            evidence,
            parameters: Vec::new(alloc),
        }),
        Err(_) => None,
    }
}

fn failure(alloc: Global, failed: Failed) -> Option<Failure> {
    let (.., named) = failed;
    let mut failure = bare(alloc, failed)?;
    if push_parameters(alloc, &mut failure.parameters, named) {
        Some(failure)
    } else {
        None
    }
}

fn push_failure(alloc: Global, failures: &mut Vec<Failure>, failed: Failed) -> bool {
    match failure(alloc, failed) {
        Some(failure) => failures.push(failure).is_ok(),
        None => false,
    }
}

fn push_failures(alloc: Global, failures: &mut Vec<Failure>, failed: &[Failed]) -> bool {
    for one in failed {
        if !push_failure(alloc, failures, *one) {
            return false;
        }
    }
    true
}

/// What came of a declaration without failures.
fn verified(alloc: Global, name: &str) -> Option<Outcome> {
    match String::from_str(alloc, name) {
        Ok(name) => Some(Outcome {
            name,
            failures: Vec::new(alloc),
        }),
        Err(_) => None,
    }
}

fn outcome(alloc: Global, name: &str, failed: &[Failed]) -> Option<Outcome> {
    let mut outcome = verified(alloc, name)?;
    if push_failures(alloc, &mut outcome.failures, failed) {
        Some(outcome)
    } else {
        None
    }
}

fn push_outcome(alloc: Global, outcomes: &mut Vec<Outcome>, name: &str, failed: &[Failed]) -> bool {
    match outcome(alloc, name, failed) {
        Some(outcome) => outcomes.push(outcome).is_ok(),
        None => false,
    }
}

fn push_outcomes(
    alloc: Global,
    outcomes: &mut Vec<Outcome>,
    declarations: &[(&str, &[Failed])],
) -> bool {
    for (name, failed) in declarations {
        if !push_outcome(alloc, outcomes, *name, *failed) {
            return false;
        }
    }
    true
}

/// Whether this is the report on outcomes.
fn are_told(alloc: Global, outcomes: &[Outcome], wanted: &str) -> bool {
    match lines(alloc, outcomes) {
        Ok(text) => text.as_slice() == wanted.as_bytes(),
        Err(_) => false,
    }
}

/// Whether this is the report on declarations.
fn is_told(alloc: Global, declarations: &[(&str, &[Failed])], wanted: &str) -> bool {
    let mut outcomes = Vec::new(alloc);
    push_outcomes(alloc, &mut outcomes, declarations) && are_told(alloc, &outcomes, wanted)
}

#[test]
fn tells_what_is_verified(rt: HostRuntime) {
    for (number, (declarations, wanted)) in REPORTS.iter().enumerate() {
        expect(&rt, number, is_told(rt.alloc(), *declarations, *wanted));
    }
}
