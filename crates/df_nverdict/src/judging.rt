//! An obligation, judged.

ghost use Rattle.std.specs.Prelude.{◌≡◌, ◌≤◌, [], map, string_bytes, OnOk, IfOk};
ghost use Rattle.df_form.specs.SequentView.{sequent_of};
ghost use Rattle.df_form.specs.World.{world_of, of_program};
ghost use Rattle.df_lang.specs.DeclView.{param_of};
ghost use Rattle.df_lang.specs.View.{program_of};
ghost use Rattle.df_meaning.specs.Kind.{word_of};
ghost use Rattle.df_nowed.specs.Laws.{obligation_of};
ghost use Rattle.df_nowed.specs.Obligation.{obligation_in, obligations_in};
ghost use Rattle.df_nowed.specs.Owed.{IsOwed};
ghost use Rattle.df_report.specs.View.{failure_of};
ghost use Rattle.df_nverdict.specs.Verdict.{Judges};
ghost use Rattle.df_nverdict.specs.Judging.{Finds, Adds};

use crate::parameters::parameters;
use df_form::{Sequent, Step};
use df_kern::Accepted;
use df_lang::{Param, Program};
use df_nowed::{MethodObligations, Obligation};
use df_report::{Evidence, Failure, Parameter};
use df_search::{Budget, Engine, Found, search_with};
use std::alloc::{AllocError, Global};

/// A method whose obligations are judged.
#[derive(Clone, Copy)]
pub(crate) struct Entry<'a> {
    pub program: &'a Program,
    pub params: &'a [Param],
    /// What it knows and owes.
    pub owed: &'a MethodObligations,
}

/// Why there is no proof, and the numbers of the parameters in a table.
#[derive(Drop)]
pub(crate) struct Finding {
    pub evidence: Evidence,
    pub parameters: Vec<Parameter>,
}

/// A log that derives the sequent of an obligation, and that the kernel took this log.
#[derive(Drop)]
pub struct Proof {
    pub accepted: Accepted,
    pub log: Vec<Step>,
}

/// Evidence without a table.
fn found(alloc: Global, evidence: Evidence) -> Finding
    ensures evidence { result.evidence ≡ evidence }
    ensures parameters { result.parameters.items ≡ [] }
{
    Finding {
        evidence,
        parameters: Vec::new(alloc),
    }
}

/// Why there is no proof of the sequent, where none is found; else the proof is added.
fn judge(
    alloc: Global,
    engine: &mut Engine,
    params: &[Param],
    sequent: &Sequent,
    proofs: &mut Vec<Proof>,
    budget: Budget,
) -> Result<Option<Finding>, AllocError>
    requires { 1 ≤ budget.steps }
    ensures { IfOk result (Finds (map param_of params.now) (sequent_of sequent.now) budget proofs.old.items proofs.new.items) }
{
    match search_with(alloc, engine, sequent, budget)? {
        Found::Proved { accepted, log } => {
            proofs.push(Proof { accepted, log })?;
            Ok(None)
        }
        Found::Modelled(table) => Ok(Some(Finding {
            evidence: Evidence::Model,
            parameters: parameters(alloc, &sequent.nodes, &table, params)?,
        })),
        Found::Spent(_) => Ok(Some(found(alloc, Evidence::Spent))),
        Found::Wide { .. } => Ok(Some(found(alloc, Evidence::Wide))),
        Found::Many(_) => Ok(Some(found(alloc, Evidence::Many))),
    }
}

/// The failure of an obligation.
fn failure(alloc: Global, obligation: &Obligation, finding: Finding) -> Result<Failure, AllocError>
    ensures pos { IfOk result (λ f. f.pos ≡ obligation.now.pos) }
    ensures kind { IfOk result (λ f. string_bytes f.kind ≡ word_of obligation.now.kind) }
    ensures evidence { IfOk result (λ f. f.evidence ≡ finding.evidence) }
    ensures parameters { IfOk result (λ f. f.parameters ≡ finding.parameters) }
{
    Ok(Failure {
        pos: obligation.pos,
        kind: String::from_str(alloc, obligation.kind.word())?,
        evidence: finding.evidence,
        parameters: finding.parameters,
    })
}

/// Judges the sequent of an obligation, and adds its proof, or its failure where none is found.
fn settle(
    alloc: Global,
    entry: &Entry,
    engine: &mut Engine,
    failures: &mut Vec<Failure>,
    proofs: &mut Vec<Proof>,
    obligation: &Obligation,
    sequent: &Sequent,
    budget: Budget,
) -> Result<(), AllocError>
    requires steps { 1 ≤ budget.steps }
    requires world { world_of sequent.now.world ≡ of_program (program_of entry.now.program.now) }
    requires owed { obligation_of entry.now.owed.now.declaration obligation.now.pos obligation.now.kind (sequent_of sequent.now) ≡ obligation_in entry.now.owed.now.declaration entry.now.owed.now.nodes entry.now.owed.now.known obligation.now }
    ensures { OnOk result (Adds (program_of entry.now.program.now) (map param_of entry.now.params.now) budget (obligation_in entry.now.owed.now.declaration entry.now.owed.now.nodes entry.now.owed.now.known obligation.now) (map failure_of failures.old.items) (map failure_of failures.new.items) proofs.old.items proofs.new.items) }
{
    match judge(alloc, engine, entry.params, sequent, proofs, budget)? {
        Some(finding) => {
            failures.push(failure(alloc, obligation, finding)?)?;
            Ok(())
        }
        None => Ok(()),
    }
}

/// Judges an obligation, and adds its proof, or its failure where none is found.
fn add(
    alloc: Global,
    entry: &Entry,
    engine: &mut Engine,
    failures: &mut Vec<Failure>,
    proofs: &mut Vec<Proof>,
    obligation: &Obligation,
    budget: Budget,
) -> Result<(), AllocError>
    requires steps { 1 ≤ budget.steps }
    requires owed { IsOwed entry.now.owed.now.known obligation.now }
    ensures { OnOk result (Adds (program_of entry.now.program.now) (map param_of entry.now.params.now) budget (obligation_in entry.now.owed.now.declaration entry.now.owed.now.nodes entry.now.owed.now.known obligation.now) (map failure_of failures.old.items) (map failure_of failures.new.items) proofs.old.items proofs.new.items) }
{
    let sequent = entry.owed.sequent(entry.program, obligation)?;
    settle(
        alloc, entry, engine, failures, proofs, obligation, &sequent, budget,
    )
}

/// The failures of the obligations, in their order; the proofs of the others are added.
pub(crate) fn failures(
    alloc: Global,
    entry: &Entry,
    proofs: &mut Vec<Proof>,
    budget: Budget,
) -> Result<Vec<Failure>, AllocError>
    requires steps { 1 ≤ budget.steps }
    requires none { proofs.old.items ≡ [] }
    ensures { IfOk result (λ failures. Judges (program_of entry.now.program.now) (map param_of entry.now.params.now) budget (obligations_in entry.now.owed.now) (map failure_of failures.items) proofs.new.items) }
{
    let mut engine = Engine::new(alloc);
    let mut failures = Vec::new(alloc);
    for obligation in &entry.owed.obligations {
        add(
            alloc,
            entry,
            &mut engine,
            &mut failures,
            proofs,
            obligation,
            budget,
        )?;
    }
    Ok(failures)
}
