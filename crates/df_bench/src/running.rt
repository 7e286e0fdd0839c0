//! Runs of the machine.

ghost use Rattle.std.specs.Prelude.{◌≡◌, ◌<◌, ◌^◌};
ghost use Rattle.df_codes.specs.Programs.{programs};
ghost use Rattle.df_nmach.specs.View.{code_of};

use anyhow::Result;
use df_base::SureSink;
use df_codes::{count_vm, even_vm, fib_vm, program_code};
use df_nmach::{Code, Value};
use df_nvm::{Ran, Vm};
use std::alloc::{AllocError, Global};
use std::time::{Duration, Instant};

/// Where a run begins.
#[derive(Clone, Copy, PartialEq, Eq)]
pub(crate) enum Start {
    /// A loop that counts up to the size.
    Count,
    /// Two calls of itself, for the two sizes before.
    Fibonacci,
    /// Two methods that call each other, as deep as the size.
    Even,
}

/// The machine at the beginning.
fn machine<'a>(alloc: Global, code: &'a Code, start: Start, size: u32) -> Result<Vm<'a>, AllocError>
    requires code { code_of code.now ≡ programs }
    requires size { size < 2 ^ 31 }
{
    match start {
        Start::Count => count_vm(alloc, code, size),
        Start::Fibonacci => fib_vm(alloc, code, size),
        Start::Even => even_vm(alloc, code, size),
    }
}

/// What a run came to.
fn told(alloc: Global, ran: &Ran) -> Result<String, AllocError> {
    match ran {
        Ran::Ended(results, _) => match results.as_slice() {
            [Value::Number(number)] => format!(in alloc; "{number}"),
            [Value::Truth(truth)] => format!(in alloc; "{truth}"),
            _ => String::from_str(alloc, "an end"),
        },
        Ran::FuelSpent => String::from_str(alloc, "fuel spent"),
        Ran::Write => String::from_str(alloc, "cannot write"),
        Ran::Memory => String::from_str(alloc, "out of memory"),
    }
}

/// Runs a machine to the end.
fn ran(alloc: Global, vm: Vm) -> Ran {
    let mut sink = SureSink::new(alloc);
    vm.run(u64::MAX, &mut sink)
}

/// What a run came to, and how long ago it began.
fn told_since(rt: &HostRuntime, begun: Instant, ran: &Ran) -> Result<(String, Duration)> {
    let time = begun.elapsed(rt)?;
    let text = told(rt.alloc(), ran)?;
    Ok((text, time))
}

/// Runs a machine to the end: what it came to, and how long it took.
fn timed(rt: &HostRuntime, vm: Vm) -> Result<(String, Duration)> {
    let begun = Instant::now(rt)?;
    let ran = ran(rt.alloc(), vm);
    told_since(rt, begun, &ran)
}

/// Runs to the end: what it came to, and how long it took.
pub(crate) fn run(rt: &HostRuntime, start: Start, size: u32) -> Result<(String, Duration)>
    requires { size < 2 ^ 31 }
{
    let code = program_code(rt.alloc())?;
    let vm = machine(rt.alloc(), &code, start, size)?;
    timed(rt, vm)
}
