//! Whether what the engine proposes for obligations passes its check.

ghost use Rattle.df_nowed.specs.Owed.{IsOwed};

use df_form::Sequent;
use df_lang::Program;
use df_nowed::{MethodObligations, Obligation, Obligations};
use df_search::{Budget, Engine, look};
use std::alloc::{AllocError, Global};
use std::mem::forget;

/// How long the engine looks.
const BUDGET: Budget = Budget {
    steps: 1_000,
    rounds: 4,
};

/// Whether the engine looked at a sequent, which it does unless memory is refused.
fn is_looked_at(alloc: Global, engine: &mut Engine, sequent: &Sequent) -> bool {
    look(alloc, engine, sequent, BUDGET).is_ok()
}

/// Whether the engine looked at an obligation.
fn is_seen(
    alloc: Global,
    program: &Program,
    method: &MethodObligations,
    engine: &mut Engine,
    obligation: &Obligation,
) -> bool
    requires { IsOwed method.now.known obligation.now }
{
    match method.sequent(program, obligation) {
        Ok(sequent) => is_looked_at(alloc, engine, &sequent),
        Err(_) => false,
    }
}

/// Whether the engine looked at the obligations of a method, one after the other.
fn are_seen(
    alloc: Global,
    program: &Program,
    method: &MethodObligations,
    engine: &mut Engine,
) -> bool {
    for obligation in &method.obligations {
        if !is_seen(alloc, program, method, engine, obligation) {
            return false;
        }
    }
    true
}

/// How many proposals of an engine for the obligations of a method are refused; none where memory is.
fn refused_by(
    alloc: Global,
    program: &Program,
    method: &MethodObligations,
    engine: &mut Engine,
) -> Option<u64> {
    if are_seen(alloc, program, method, engine) {
        Some(engine.refused())
    } else {
        None
    }
}

/// How many proposals of a new engine for the obligations of a method are refused; none where memory is. The engine is
/// left to the end of the program: it would have to be proved of all that is in it that it can be dropped.
fn refused_of_method(alloc: Global, program: &Program, method: &MethodObligations) -> Option<u64> {
    let mut engine = Engine::new(alloc);
    let refused = refused_by(alloc, program, method, &mut engine);
    forget(engine);
    refused
}

/// How many logs and tables are refused that engines propose for the obligations of a program, one engine for each
/// method.
pub fn refused(
    alloc: Global,
    program: &Program,
    obligations: &Obligations,
) -> Result<u64, AllocError> {
    let mut count: u64 = 0;
    for method in &obligations.methods {
        let Some(refused) = refused_of_method(alloc, program, method) else {
            return Err(AllocError);
        };
        count = count.saturating_add(refused);
    }
    Ok(count)
}
