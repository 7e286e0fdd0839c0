//! Parts of logs, checked against obligations.

ghost use Rattle.std.specs.Prelude.{◌+◌, ◌<◌, ◌≤◌, length, slice_get, IfErr, IfOk, OnOk};
ghost use Rattle.std.specs.List.{flat_map};
ghost use Rattle.df_lang.specs.View.{program_of};
ghost use Rattle.df_logtext.specs.View.{log_of, logs_of};
ghost use Rattle.df_nowed.specs.Obligation.{obligation_in, obligations_in};
ghost use Rattle.df_nowed.specs.Owed.{IsOwed};
ghost use Rattle.df_npass.specs.Methods.{obligations as all_of};
ghost use Rattle.df_nproof.specs.Derived.{IsDerived, AreDerived};
ghost use Rattle.df_nproof.specs.Checking.{AreTaken, Takes, IsBrokenBy, IsNext, IsBadBy, Fails, FailsAt, IsRefusedBy};

use crate::fault::CheckFault;
use df_form::Step;
use df_kern::{KernFault, check};
use df_lang::Program;
use df_nowed::{MethodObligations, Obligation, obligations};
use std::alloc::Global;

/// Checks the part of an obligation, which has this number, from 1.
fn check_part(
    alloc: Global,
    program: &Program,
    owed: &MethodObligations,
    obligation: &Obligation,
    part: &[Step],
    number: u64,
) -> Result<(), CheckFault>
    requires { IsOwed owed.now.known obligation.now }
    ensures derived { OnOk result (IsDerived (program_of program.now) (obligation_in owed.now.declaration owed.now.nodes owed.now.known obligation.now) (log_of part.now)) }
    ensures broken { IfErr result (IsBrokenBy (program_of program.now) (obligation_in owed.now.declaration owed.now.nodes owed.now.known obligation.now) (log_of part.now) number) }
{
    let Ok(sequent) = owed.sequent(program, obligation) else {
        return Err(CheckFault::Memory);
    };
    match check(alloc, &sequent, part) {
        Ok(_) => Ok(()),
        Err(KernFault::Refused { at, .. }) => Err(CheckFault::Refused {
            obligation: number,
            step: at,
        }),
        Err(KernFault::Memory) => Err(CheckFault::Memory),
    }
}

/// Checks the next part for an obligation, where so many parts are taken.
fn check_next(
    alloc: Global,
    program: &Program,
    owed: &MethodObligations,
    obligation: &Obligation,
    parts: &[Vec<Step>],
    taken: usize,
) -> Result<(), CheckFault>
    requires owed { IsOwed owed.now.known obligation.now }
    requires within { taken ≤ length parts.now }
    ensures more { OnOk result (taken < length parts.now) }
    ensures next { OnOk result (IsNext (program_of program.now) (obligation_in owed.now.declaration owed.now.nodes owed.now.known obligation.now) (slice_get (logs_of parts.now) taken)) }
    ensures bad { IfErr result (IsBadBy (program_of program.now) (obligation_in owed.now.declaration owed.now.nodes owed.now.known obligation.now) (slice_get (logs_of parts.now) taken) (taken + 1)) }
{
    let Some(part) = parts.get(taken) else {
        return Err(CheckFault::Refused {
            obligation: taken as u64 + 1,
            step: 1,
        });
    };
    match check_part(alloc, program, owed, obligation, part, taken as u64 + 1) {
        Ok(()) => Ok(()),
        Err(fault) => Err(fault),
    }
}

/// Checks the next parts for the obligations of a method, where so many parts are taken, and tells how many are then.
fn check_method(
    alloc: Global,
    program: &Program,
    owed: &MethodObligations,
    parts: &[Vec<Step>],
    first: usize,
) -> Result<usize, CheckFault>
    requires within { first ≤ length parts.now }
    ensures within { IfOk result (λ now. now ≤ length parts.now) }
    ensures takes { IfOk result (Takes (program_of program.now) (obligations_in owed.now) (logs_of parts.now) first) }
    ensures fails { IfErr result (Fails (program_of program.now) (obligations_in owed.now) (logs_of parts.now) first) }
{
    let mut taken = first;
    for obligation in &owed.obligations {
        match check_next(alloc, program, owed, obligation, parts, taken) {
            Ok(()) => taken += 1,
            Err(fault) => return Err(fault),
        }
    }
    Ok(taken)
}

/// Checks parts for the obligations of methods, one method after the other, and tells how many are taken.
fn check_methods(
    alloc: Global,
    program: &Program,
    methods: &[MethodObligations],
    parts: &[Vec<Step>],
) -> Result<usize, CheckFault>
    ensures within { IfOk result (λ taken. taken ≤ length parts.now) }
    ensures taken { IfOk result (AreTaken (program_of program.now) (flat_map obligations_in methods.now) (logs_of parts.now)) }
    ensures fails { IfErr result (FailsAt (program_of program.now) (flat_map obligations_in methods.now) (logs_of parts.now)) }
{
    let mut taken = 0;
    for owed in methods {
        match check_method(alloc, program, owed, parts, taken) {
            Ok(now) => taken = now,
            Err(fault) => return Err(fault),
        }
    }
    Ok(taken)
}

/// Checks that parts are the logs of the obligations of a program over its groups, one for each in their order.
pub(crate) fn check_parts(
    alloc: Global,
    program: &Program,
    groups: &[usize],
    parts: &[Vec<Step>],
) -> Result<(), CheckFault>
    ensures derived { OnOk result (AreDerived (program_of program.now) (all_of (program_of program.now) groups.now) (logs_of parts.now)) }
    ensures refused { IfErr result (IsRefusedBy (program_of program.now) (all_of (program_of program.now) groups.now) (logs_of parts.now)) }
{
    let Ok(owed) = obligations(alloc, program, groups) else {
        return Err(CheckFault::Memory);
    };
    let taken = match check_methods(alloc, program, owed.methods.as_slice(), parts) {
        Ok(taken) => taken,
        Err(fault) => return Err(fault),
    };
    match parts.get(taken) {
        Some(part) => Err(CheckFault::Refused {
            obligation: taken as u64 + 1,
            step: part.len() as u64 + 1,
        }),
        None => Ok(()),
    }
}
