//! Instructions on the machine.

use crate::ending::is_ended;
use crate::expecting::expect;
use df_base::{MemSink, Sink, SureSink};
use df_codes::{
    edge_code, edge_vm, number_code, number_vm, quotient_code, quotient_vm, refusing_code,
    refusing_vm,
};
use df_nmach::Value;
use df_nvm::{Ran, Stepped, Vm};
use std::alloc::Global;

/// What the edges print, item by item.
const ITEMS: [&str; 32] = [
    "5", "7", "true", "!", "", "hi", "65", "127", "A", "0", "127", "true", "false", "true",
    "false", "true", "false", "true", "false", "false", "true", "true", "true", "false", "true",
    "true", "false", "0", "2", "1", "3", "8",
];

/// Quotients and remainders by 2 and -2, in all signs, and then at both ends.
const QUOTIENTS: [&str; 22] = [
    "3",
    "1",
    "-3",
    "1",
    "-4",
    "1",
    "4",
    "1",
    "85070591730234615865843651857942052863",
    "-85070591730234615865843651857942052864",
    "-170141183460469231731687303715884105728",
    "-170141183460469231731687303715884105727",
    "-2",
    "1",
    "-1",
    "0",
    "0",
    "170141183460469231731687303715884105727",
    "170141183460469231731687303715884105726",
    "170141183460469231731687303715884105726",
    "-9",
    "9",
];

/// The other results of numbers.
const NUMBERS: [&str; 19] = [
    "170141183460469231731687303715884105727",
    "-170141183460469231731687303715884105728",
    "-170141183460469231731687303715884105727",
    "-1",
    "170141183460469231731687303715884105727",
    "170141183460469231731687303715884105727",
    "-170141183460469231731687303715884105728",
    "-9",
    "9",
    "9",
    "-9",
    "9",
    "-9",
    "9",
    "-170141183460469231731687303715884105727",
    "-9",
    "9",
    "-170141183460469231731687303715884105728",
    "170141183460469231731687303715884105727",
];

/// Adds items one after another. Where memory is refused one is left out, so that the text is another.
fn join(text: &mut String, items: &[&str]) {
    for item in items {
        let _ = text.push_str(*item);
    }
}

/// Whether a text is that of the items.
fn is_joined(alloc: Global, text: &[u8], items: &[&str]) -> bool {
    let mut wanted = String::new(alloc);
    join(&mut wanted, items);
    text == wanted.as_bytes()
}

/// Runs the edges to their end.
fn run_edges<S: Sink>(alloc: Global, sink: &mut S) -> Option<Ran> {
    match edge_code(alloc) {
        Ok(code) => match edge_vm(alloc, &code) {
            Ok(vm) => Some(vm.run(u64::MAX, sink)),
            Err(_) => None,
        },
        Err(_) => None,
    }
}

/// Whether a run ended with 5 and 7.
fn gives_five_and_seven(ran: &Ran) -> bool {
    match ran {
        Ran::Ended(results, _) => {
            matches!(results.as_slice(), [Value::Number(5), Value::Number(7)])
        }
        _ => false,
    }
}

fn edges_give_both(alloc: Global, sink: &mut SureSink) -> bool {
    match run_edges(alloc, sink) {
        Some(ran) => gives_five_and_seven(&ran),
        None => false,
    }
}

#[test]
fn instructions_do_their_work(rt: HostRuntime) {
    let mut sink = SureSink::new(rt.alloc());
    assert!(rt; edges_give_both(rt.alloc(), &mut sink));
    assert!(rt; is_joined(rt.alloc(), sink.taken(), ITEMS.as_slice()));
}

/// Whether the quotients end.
fn run_quotients(alloc: Global, sink: &mut SureSink) -> bool {
    match quotient_code(alloc) {
        Ok(code) => match quotient_vm(alloc, &code) {
            Ok(vm) => is_ended(&vm.run(u64::MAX, sink), true),
            Err(_) => false,
        },
        Err(_) => false,
    }
}

/// Whether the numbers end.
fn run_numbers(alloc: Global, sink: &mut SureSink) -> bool {
    match number_code(alloc) {
        Ok(code) => match number_vm(alloc, &code) {
            Ok(vm) => is_ended(&vm.run(u64::MAX, sink), true),
            Err(_) => false,
        },
        Err(_) => false,
    }
}

#[test]
fn quotients_are_computed(rt: HostRuntime) {
    let mut sink = SureSink::new(rt.alloc());
    assert!(rt; run_quotients(rt.alloc(), &mut sink));
    assert!(rt; is_joined(rt.alloc(), sink.taken(), QUOTIENTS.as_slice()));
}

#[test]
fn numbers_are_computed(rt: HostRuntime) {
    let mut sink = SureSink::new(rt.alloc());
    assert!(rt; run_numbers(rt.alloc(), &mut sink));
    assert!(rt; is_joined(rt.alloc(), sink.taken(), NUMBERS.as_slice()));
}

/// Each item is one write, and an empty one is none: writes of the edges that fail after so many bytes, and what is
/// there.
const FAILURES: [(u64, usize, &str); 6] = [
    (0, 0, ""),
    (0, 1, "5"),
    (2, 0, "57"),
    (2, 3, "57tru"),
    (4, 1, "57true!h"),
    (6, 0, "57true!hi65"),
];

fn is_unwritten(ran: &Ran) -> bool {
    match ran {
        Ran::Write => true,
        _ => false,
    }
}

fn is_stopped(alloc: Global, sink: &mut MemSink) -> bool {
    match run_edges(alloc, sink) {
        Some(ran) => is_unwritten(&ran),
        None => false,
    }
}

/// Whether a write that fails so stops the edges, where this text is there.
fn stops(alloc: Global, call: u64, takes: usize, text: &str) -> bool {
    let mut sink = MemSink::new(alloc);
    sink.fail_at(call, takes).is_ok()
        && is_stopped(alloc, &mut sink)
        && sink.taken() == text.as_bytes()
        && sink.faults() == 1
}

#[test]
fn a_failing_write_stops_a_run(rt: HostRuntime) {
    for (number, (call, takes, text)) in FAILURES.iter().enumerate() {
        expect(&rt, number, stops(rt.alloc(), *call, *takes, *text));
    }
}

/// More locals than any memory has words.
const LOCALS: usize = 1 << 62;

/// Runs a call of so many locals.
fn run_call(alloc: Global, locals: usize, sink: &mut SureSink) -> Option<Ran> {
    match refusing_code(alloc, locals) {
        Ok(code) => match refusing_vm(alloc, &code, locals) {
            Ok(vm) => Some(vm.run(u64::MAX, sink)),
            Err(_) => None,
        },
        Err(_) => None,
    }
}

/// Whether steps come to the call, which is refused again and again.
fn steps_are_refused(vm: &mut Vm, sink: &mut SureSink) -> bool {
    vm.step(sink) == Stepped::On
        && vm.step(sink) == Stepped::On
        && vm.step(sink) == Stepped::Memory
        && vm.step(sink) == Stepped::Memory
}

/// Whether the call of too many locals is refused step by step.
fn step_call(alloc: Global, sink: &mut SureSink) -> bool {
    match refusing_code(alloc, LOCALS) {
        Ok(code) => match refusing_vm(alloc, &code, LOCALS) {
            Ok(mut vm) => steps_are_refused(&mut vm, sink),
            Err(_) => false,
        },
        Err(_) => false,
    }
}

fn is_without_memory(ran: &Ran) -> bool {
    match ran {
        Ran::Memory => true,
        _ => false,
    }
}

/// Whether a run ends at the call of too many locals.
fn is_call_refused(alloc: Global, sink: &mut SureSink) -> bool {
    match run_call(alloc, LOCALS, sink) {
        Some(ran) => is_without_memory(&ran),
        None => false,
    }
}

#[test]
fn a_refused_call_is_not_begun(rt: HostRuntime) {
    let mut sink = SureSink::new(rt.alloc());
    assert!(rt; is_call_refused(rt.alloc(), &mut sink));
    assert!(rt; sink.taken() == b"1".as_slice());
}

#[test]
fn a_refused_call_is_refused_again(rt: HostRuntime) {
    let mut sink = SureSink::new(rt.alloc());
    assert!(rt; step_call(rt.alloc(), &mut sink));
    assert!(rt; sink.taken() == b"1".as_slice());
}

/// Whether a call of so many locals ends.
fn call_ends(alloc: Global, locals: usize, sink: &mut SureSink) -> bool {
    match run_call(alloc, locals, sink) {
        Some(ran) => is_ended(&ran, true),
        None => false,
    }
}

#[test]
fn a_call_of_few_locals_is_begun(rt: HostRuntime) {
    let mut sink = SureSink::new(rt.alloc());
    assert!(rt; call_ends(rt.alloc(), 3, &mut sink));
    assert!(rt; sink.taken() == b"12".as_slice());
}
