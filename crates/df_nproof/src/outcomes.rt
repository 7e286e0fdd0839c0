//! Outcomes of programs of which all is proved.

ghost use Rattle.std.specs.Prelude.{◌≡◌, ◌++◌, map, IfOk, OnOk};
ghost use Rattle.df_lang.specs.DeclView.{decl_of};
ghost use Rattle.df_lang.specs.View.{program_of};
ghost use Rattle.df_report.specs.View.{outcome_of};
ghost use Rattle.df_nproof.specs.Verified.{verified_outcome, verified_outcomes};

use df_lang::{Decl, Program};
use df_report::Outcome;
use std::alloc::{AllocError, Global};

/// Adds the outcome of a declaration, if it is a method.
fn add(alloc: Global, decl: &Decl, outcomes: &mut Vec<Outcome>) -> Result<(), AllocError>
    ensures { OnOk result (map outcome_of outcomes.new.items ≡ map outcome_of outcomes.old.items ++ verified_outcome (decl_of decl.now)) }
{
    match decl {
        Decl::Newtype(_) => Ok(()),
        Decl::Method(method) => {
            let name = String::from_str(alloc, method.declared.text.as_str())?;
            let failures = Vec::new(alloc);
            outcomes.push(Outcome { name, failures })?;
            Ok(())
        }
    }
}

/// An outcome without failures for each method of a program, in their order.
pub(crate) fn verified(alloc: Global, program: &Program) -> Result<Vec<Outcome>, AllocError>
    ensures { IfOk result (λ outcomes. map outcome_of outcomes.items ≡ verified_outcomes (program_of program.now).decls) }
{
    let mut outcomes = Vec::new(alloc);
    for decl in &program.decls {
        add(alloc, decl, &mut outcomes)?;
    }
    Ok(outcomes)
}
