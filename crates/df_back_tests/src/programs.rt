//! Small programs on the machine.

use crate::ending::is_ended;
use crate::expecting::expect;
use df_base::{Sink, SureSink};
use df_codes::{even_vm, loop_vm, nest_vm, program_code, seven_vm};
use df_nmach::Value;
use df_nvm::{Ran, Stepped, Vm};
use std::alloc::Global;

/// The steps of the loop over 0 to 2: 2 before it, 11 for each turn, 4 for the last test, and its return.
const STEPS: u64 = 40;

/// Whether the loop ends with this fuel, or else spends it.
fn loop_ends(alloc: Global, fuel: u64, ends: bool, sink: &mut SureSink) -> bool {
    match program_code(alloc) {
        Ok(code) => match loop_vm(alloc, &code) {
            Ok(vm) => is_ended(&vm.run(fuel, sink), ends),
            Err(_) => false,
        },
        Err(_) => false,
    }
}

/// Whether the loop ends so, where it has printed this text.
fn loops(alloc: Global, fuel: u64, ends: bool, text: &str) -> bool {
    let mut sink = SureSink::new(alloc);
    loop_ends(alloc, fuel, ends, &mut sink) && sink.taken() == text.as_bytes()
}

/// What the loop is run with, whether it ends, and what it has printed.
const FUELS: [(u64, bool, &str); 8] = [
    (0, false, ""),
    (1, false, ""),
    (7, false, ""),
    (8, false, "0"),
    (STEPS - 1, false, "012"),
    (STEPS, true, "012"),
    (STEPS + 1, true, "012"),
    (u64::MAX, true, "012"),
];

#[test]
fn a_run_ends_just_with_its_fuel(rt: HostRuntime) {
    for (number, (fuel, ends, text)) in FUELS.iter().enumerate() {
        expect(&rt, number, loops(rt.alloc(), *fuel, *ends, *text));
    }
}

/// Whether the loop in a loop ends with this fuel, or else spends it.
fn nest_ends(alloc: Global, fuel: u64, ends: bool, sink: &mut SureSink) -> bool {
    match program_code(alloc) {
        Ok(code) => match nest_vm(alloc, &code) {
            Ok(vm) => is_ended(&vm.run(fuel, sink), ends),
            Err(_) => false,
        },
        Err(_) => false,
    }
}

/// Whether the loop in a loop ends so, where all is printed.
fn nests(alloc: Global, fuel: u64, ends: bool) -> bool {
    let mut sink = SureSink::new(alloc);
    nest_ends(alloc, fuel, ends, &mut sink) && sink.taken() == b"000010100110".as_slice()
}

#[test]
fn a_break_ends_one_loop(rt: HostRuntime) {
    // 2 steps, 93 for each turn of the outer loop, 4 for its last test, and the return.
    assert!(rt; nests(rt.alloc(), 193, true));
    assert!(rt; nests(rt.alloc(), 192, false));
}

/// Whether a machine goes on for so many steps, and ends with the next one.
fn ends_after(vm: &mut Vm, steps: usize, sink: &mut SureSink) -> bool {
    for _ in 0..steps {
        if vm.step(sink) != Stepped::On {
            return false;
        }
    }
    vm.step(sink) == Stepped::Ended
}

/// Whether the program that asks for the parity of 7 ends after these steps.
fn parity_ends(alloc: Global, sink: &mut SureSink) -> bool {
    match program_code(alloc) {
        Ok(code) => match seven_vm(alloc, &code) {
            // Nine frames, of three locals each but for two of Main, and at most two operands. 9 steps of Main, 11
            // for each number above 0, and 9 for 0.
            Ok(mut vm) => vm.reserve(64, 16).is_ok() && ends_after(&mut vm, 94, sink),
            Err(_) => false,
        },
        Err(_) => false,
    }
}

#[test]
fn methods_call_each_other(rt: HostRuntime) {
    let mut sink = SureSink::new(rt.alloc());
    assert!(rt; parity_ends(rt.alloc(), &mut sink));
    assert!(rt; sink.taken() == b"false\n".as_slice());
}

/// How many calls wait for another.
const DEPTH: u32 = 100_000;

/// Asks whether so many is even, for so many steps.
fn run_even(alloc: Global, steps: u64, sink: &mut SureSink) -> Option<Ran> {
    match program_code(alloc) {
        Ok(code) => match even_vm(alloc, &code, DEPTH) {
            Ok(vm) => Some(vm.run(steps, sink)),
            Err(_) => None,
        },
        Err(_) => None,
    }
}

/// Whether a run ended with one truth, and that is true.
fn gives_true(ran: &Ran) -> bool {
    match ran {
        Ran::Ended(results, _) => matches!(results.as_slice(), [Value::Truth(true)]),
        _ => false,
    }
}

/// Whether so many is even, by a run of so many steps.
fn is_even(alloc: Global, steps: u64, sink: &mut SureSink) -> bool {
    match run_even(alloc, steps, sink) {
        Some(ran) => gives_true(&ran),
        None => false,
    }
}

/// Whether so many steps are too few for it.
fn are_few(alloc: Global, steps: u64, sink: &mut SureSink) -> bool {
    match run_even(alloc, steps, sink) {
        Some(ran) => is_ended(&ran, false),
        None => false,
    }
}

#[test]
fn many_calls_wait(rt: HostRuntime) {
    let mut sink = SureSink::new(rt.alloc());
    let steps = 11 * u64::from(DEPTH) + 9;
    assert!(rt; is_even(rt.alloc(), steps, &mut sink));
    assert!(rt; are_few(rt.alloc(), steps - 1, &mut sink));
}
