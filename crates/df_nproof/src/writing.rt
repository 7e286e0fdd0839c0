//! The text of the logs of a program.

ghost use Rattle.std.specs.Prelude.{◌≡◌, ◌++◌, map, IfOk, OnOk};
ghost use Rattle.df_lang.specs.View.{program_of};
ghost use Rattle.df_logtext.specs.HasText.{HaveNumbers};
ghost use Rattle.df_logtext.specs.LogText.{log_text};
ghost use Rattle.df_logtext.specs.View.{logs_of};
ghost use Rattle.df_nproof.specs.Names.{names_in};
ghost use Rattle.df_nproof.specs.Proofs.{log_in, logs_in};

use crate::naming::names;
use df_base::Memory;
use df_form::Step;
use df_lang::Program;
use df_logtext::write;
use df_nverdict::Proof;
use std::alloc::{AllocError, Global};

/// Adds the logs of the proofs of a method.
fn add_logs(logs: &mut Vec<Vec<Step>>, proofs: Vec<Proof>) -> Result<(), AllocError>
    ensures { OnOk result (logs_of logs.new.items ≡ logs_of logs.old.items ++ map log_in proofs.items) }
{
    for proof in proofs {
        logs.push(proof.log)?;
    }
    Ok(())
}

/// The logs of proofs, in their order.
fn logs(alloc: Global, proofs: Vec<Vec<Proof>>) -> Result<Vec<Vec<Step>>, AllocError>
    ensures { IfOk result (λ logs. logs_of logs.items ≡ logs_in (map (λ of_method. of_method.items) proofs.items)) }
{
    let mut logs = Vec::new(alloc);
    for of_method in proofs {
        add_logs(&mut logs, of_method)?;
    }
    Ok(logs)
}

/// The text of the logs of proofs, in their order, where types have their names from the program. It fails for want of
/// memory.
pub fn text(alloc: Global, program: &Program, proofs: Vec<Vec<Proof>>) -> Result<Vec<u8>, Memory>
    ensures written { IfOk result (λ text. text.items ≡ log_text (names_in (program_of program.now)) (logs_in (map (λ of_method. of_method.items) proofs.items))) }
    // Their steps hold numbers that fit a text.
    ensures numbers { OnOk result (HaveNumbers (logs_in (map (λ of_method. of_method.items) proofs.items))) }
{
    let names = names(alloc, program)?;
    let logs = logs(alloc, proofs)?;
    write(alloc, names.as_slice(), logs.as_slice())
}
