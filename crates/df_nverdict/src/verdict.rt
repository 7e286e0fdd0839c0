//! Verdicts on programs.

ghost use Rattle.std.specs.Prelude.{◌≡◌, ◌≤◌, [], true, slice_get, Some, OnOk, IfOk};
ghost use Rattle.df_lang.specs.DeclView.{decl_of, method_of};
ghost use Rattle.df_lang.specs.Groups.{AreGroups};
ghost use Rattle.df_lang.specs.Program.{method_at};
ghost use Rattle.df_lang.specs.View.{program_of};
ghost use Rattle.df_meaning.specs.Correct.{AreCorrect};
ghost use Rattle.df_report.specs.View.{outcome_of};
ghost use Rattle.df_nverdict.specs.Judging.{AddsVerdict};
ghost use Rattle.df_nverdict.specs.Verdict.{IsJudgedMethod, AreVerdicts, are_verified};
ghost use Rattle.df_nverdict.specs.View.{outcomes_in, proofs_in};

use crate::judging::{Entry, Proof, failures};
use crate::law::judged_is_correct;
use df_lang::{Decl, DeclId, Method, Program};
use df_nghost::Checked;
use df_nowed::obligations_of_method;
use df_report::Outcome;
use df_search::Budget;
use std::alloc::{AllocError, Global};

/// The outcomes of the methods of a program, in their order.
#[derive(Drop)]
pub struct Judged {
    pub outcomes: Vec<Outcome>,
    /// For each method the proofs of its obligations that are no failures, in order.
    pub proofs: Vec<Vec<Proof>>,
}

/// The outcome of a method: its failures are the obligations without a proof, in order. The proofs of the others are
/// added.
fn outcome(
    alloc: Global,
    program: &Program,
    groups: &[usize],
    number: DeclId,
    method: &Method,
    proofs: &mut Vec<Proof>,
    budget: Budget,
) -> Result<Outcome, AllocError>
    requires declared { method_at (program_of program.now) number ≡ Some (method_of method.now) }
    requires steps { 1 ≤ budget.steps }
    requires none { proofs.old.items ≡ [] }
    ensures { IfOk result (λ outcome. IsJudgedMethod (program_of program.now) groups.now budget number (method_of method.now) (outcome_of outcome) proofs.new.items) }
{
    let owed = obligations_of_method(alloc, program, groups, number, method)?;
    let entry = Entry {
        program,
        params: method.parameters.as_slice(),
        owed: &owed,
    };
    let failures = failures(alloc, &entry, proofs, budget)?;
    let name = String::from_str(alloc, method.declared.text.as_str())?;
    Ok(Outcome { name, failures })
}

/// Judges a declaration, if it is a method: its outcome and its proofs are added.
fn judge_declaration(
    alloc: Global,
    program: &Program,
    groups: &[usize],
    number: DeclId,
    decl: &Decl,
    judged: &mut Judged,
    budget: Budget,
) -> Result<(), AllocError>
    requires declared { slice_get (program_of program.now).decls number ≡ Some (decl_of decl.now) }
    requires steps { 1 ≤ budget.steps }
    ensures { OnOk result (AddsVerdict (program_of program.now) groups.now budget number (decl_of decl.now) (outcomes_in judged.old) (proofs_in judged.old) (outcomes_in judged.new) (proofs_in judged.new)) }
{
    match decl {
        Decl::Newtype(_) => Ok(()),
        Decl::Method(method) => {
            let mut proofs = Vec::new(alloc);
            let outcome = outcome(alloc, program, groups, number, method, &mut proofs, budget)?;
            judged.outcomes.push(outcome)?;
            judged.proofs.push(proofs)?;
            Ok(())
        }
    }
}

/// The verdicts on the methods of a program, in their order.
fn judge_all(
    alloc: Global,
    program: &Program,
    groups: &[usize],
    budget: Budget,
) -> Result<Judged, AllocError>
    requires steps { 1 ≤ budget.steps }
    ensures { IfOk result (λ judged. AreVerdicts (program_of program.now) groups.now budget (outcomes_in judged) (proofs_in judged)) }
{
    let mut judged = Judged {
        outcomes: Vec::new(alloc),
        proofs: Vec::new(alloc),
    };
    for (number, decl) in program.decls.iter().enumerate() {
        judge_declaration(alloc, program, groups, number, decl, &mut judged, budget)?;
    }
    Ok(judged)
}

/// The verdicts on the methods of a program over its groups, in their order: a failure for each obligation for which no
/// proof is found, with its evidence, and the proofs of the others. It fails for want of memory.
pub fn verdicts(
    alloc: Global,
    program: &Checked,
    groups: &[usize],
    budget: Budget,
) -> Result<Judged, AllocError>
    requires groups { AreGroups (program_of program.now.program) groups.now }
    requires steps { 1 ≤ budget.steps }
    ensures judged { IfOk result (λ judged. AreVerdicts (program_of program.now.program) groups.now budget (outcomes_in judged) (proofs_in judged)) }
    // Where no outcome has a failure, each method is correct.
    ensures correct { IfOk result (λ judged. are_verified (outcomes_in judged) ≡ true → AreCorrect (program_of program.now.program)) }
{
    judged_is_correct();
    judge_all(alloc, &program.program, groups, budget)
}
