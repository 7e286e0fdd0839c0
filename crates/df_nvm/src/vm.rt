//! The machine.

ghost use Rattle.std.specs.Prelude.{◌≡◌, ◌≢◌, ◌+◌, ◌≤◌, true, false, [], IfOk, OnOk, Err, length, take, reverse, suc};
ghost use Rattle.df_base.specs.Outside.{HasCause};
ghost use Rattle.df_nmach.specs.Run.{NeverFaults, start_of};
ghost use Rattle.df_nmach.specs.Step.{On};
ghost use Rattle.df_nmach.specs.View.{values_of, heap_of, code_of};
ghost use Rattle.df_nvm.specs.Frames.{state_of};
ghost use Rattle.df_nvm.specs.mirror.Finishes.{Finishes};
ghost use Rattle.df_nvm.specs.Stack.{operands_of};
ghost use Rattle.df_nvm.specs.Quiet.{step_prints};
ghost use Rattle.df_nvm.specs.Room.{step_stays, words_in_frames, StaysWithin};

use crate::halt::{Halt, Turn};
use crate::machine::Machine;
use crate::turn::turn;
use df_base::Sink;
use df_nmach::{Code, Heap, Value};
use std::alloc::{AllocError, Global};

/// What a step came to.
#[derive(Clone, Copy, PartialEq, Eq)]
pub enum Stepped {
    /// The machine stands after the step, and its text is put.
    On,
    /// The step is the last one: it returns from the last frame.
    Ended,
    /// The sink met a fault.
    Write,
    /// Memory was refused.
    Memory,
}

/// The results of a method, in their order.
pub type Results = Vec<Value>;

/// How a run ended.
#[derive(Drop)]
pub enum Ran {
    /// The method returned its results and left the heap.
    Ended(Results, Heap),
    /// The fuel is spent.
    FuelSpent,
    /// The sink met a fault.
    Write,
    /// Memory was refused.
    Memory,
}

/// What a step came to, with the number of results at the end.
#[derive(Clone, Copy, PartialEq, Eq)]
enum Advanced {
    On,
    Ended(usize),
    Write,
    Memory,
}

/// A machine that stands somewhere in a run that breaks no demand.
#[derive(Drop)]
pub struct Vm<'a> {
    code: &'a Code,
    machine: Machine,
    ghost never_faults: { NeverFaults (code_of code.now) (On (state_of machine)) },
}

/// The end of a run, with so many results.
fn finish(machine: Machine, count: usize) -> Ran
    requires { count ≤ length (operands_of machine.stack) }
    ensures { Finishes result (reverse (take count (operands_of machine.stack))) (heap_of machine.heap) }
{
    Ran::Ended(machine.stack.into_top(count), machine.heap)
}

impl<'a> Vm<'a> {
    ghost use Rattle.df_nvm.specs.Vm.{code_in, machine_of, words_in, frames_in};
    ghost use Rattle.df_nvm.specs.Runs.{Steps, Runs};
    ghost use Rattle.df_nvm.specs.mirror.Advances.{Advances};

    /// The machine at the beginning of a method with these arguments. No number of steps from there may
    /// break a demand. It fails for want of memory.
    pub fn new(
        alloc: Global,
        code: &'a Code,
        method: usize,
        heap: Heap,
        arguments: Vec<Value>,
    ) -> Result<Vm<'a>, AllocError>
        requires { NeverFaults (code_of code.now) (start_of (code_of code.now) method (heap_of heap) (values_of arguments.items)) }
        ensures start { IfOk result (λ vm. start_of (code_of code.now) method (heap_of heap) (values_of arguments.items) ≡ On (machine_of vm)) }
        ensures code { IfOk result (λ vm. code_in vm ≡ code_of code.now) }
    {
        let machine = Machine::begin(alloc, method, &code.methods[method], heap, arguments)?;
        Ok(Vm { code, machine })
    }

    /// Makes room for so many more words, which are the locals and operands of all frames, and for so many
    /// more frames. It fails for want of memory, and the machine stands as before in any case.
    pub fn reserve(&mut self, words: u64, frames: u64) -> Result<(), AllocError>
        ensures room { OnOk result (words_in_frames (machine_of self.new).frames + words ≤ words_in self.new) }
        ensures frame_room { OnOk result (length (machine_of self.new).frames + frames ≤ frames_in self.new) }
        ensures machine { machine_of self.new ≡ machine_of self.old }
        ensures code { code_in self.new ≡ code_in self.old }
        ensures words { words_in self.old ≤ words_in self.new }
        ensures frames { frames_in self.old ≤ frames_in self.new }
    {
        self.machine.reserve(words as usize, frames as usize)
    }

    /// Does a step, and tells how many results a last one returns.
    fn advance<S: Sink>(&mut self, sink: &mut S) -> Advanced
        ensures advances { Advances result (code_in self.old) (machine_of self.old) (machine_of self.new) (operands_of self.new.machine.stack) (S.taken sink.old) (S.taken sink.new) }
        ensures cause { HasCause (S.fault_count sink.old) (S.fault_count sink.new) (result ≡ Advanced.Write) }
        ensures stays { S.takes_memory sink.new ≡ S.takes_memory sink.old }
        ensures code { code_in self.new ≡ code_in self.old }
        ensures quiet { step_prints (code_in self.old) (machine_of self.old) ≡ false → sink.new ≡ sink.old }
        ensures within { S.takes_memory sink.old ≡ false → step_stays (code_in self.old) (words_in self.old) (frames_in self.old) (machine_of self.old) ≡ true → result ≢ Advanced.Memory }
        ensures words { words_in self.old ≤ words_in self.new }
        ensures frames { frames_in self.old ≤ frames_in self.new }
    {
        match turn(self.code, &mut self.machine, sink) {
            Ok(Turn::On) => Advanced::On,
            Ok(Turn::Returned(count)) => Advanced::Ended(count),
            Err(Halt::Broken) => unreachable!(),
            Err(Halt::Write) => Advanced::Write,
            Err(Halt::Memory) => Advanced::Memory,
        }
    }

    /// Does a step. Where it does not go on, the machine stands as before.
    pub fn step<S: Sink>(&mut self, sink: &mut S) -> Stepped
        ensures steps { Steps result (code_in self.old) (machine_of self.old) (machine_of self.new) (S.taken sink.old) (S.taken sink.new) }
        // A failed write is a counted fault of the sink.
        ensures cause { HasCause (S.fault_count sink.old) (S.fault_count sink.new) (result ≡ Stepped.Write) }
        ensures stays { S.takes_memory sink.new ≡ S.takes_memory sink.old }
        ensures code { code_in self.new ≡ code_in self.old }
        // A step that prints nothing leaves the sink alone.
        ensures quiet { step_prints (code_in self.old) (machine_of self.old) ≡ false → sink.new ≡ sink.old }
        // Over a sink that takes no memory, a step that stays within the words and frames there are is not refused memory.
        ensures within { S.takes_memory sink.old ≡ false → step_stays (code_in self.old) (words_in self.old) (frames_in self.old) (machine_of self.old) ≡ true → result ≢ Stepped.Memory }
        // No step gives room back.
        ensures words { words_in self.old ≤ words_in self.new }
        ensures frames { frames_in self.old ≤ frames_in self.new }
    {
        match self.advance(sink) {
            Advanced::On => Stepped::On,
            Advanced::Ended(_) => Stepped::Ended,
            Advanced::Write => Stepped::Write,
            Advanced::Memory => Stepped::Memory,
        }
    }

    /// Does so many steps, or fewer if the end comes first.
    pub fn run<S: Sink>(mut self, fuel: u64, sink: &mut S) -> Ran
        ensures runs { Runs result (code_in self.entry) (machine_of self.entry) fuel (S.taken sink.old) (S.taken sink.new) }
        // A failed write is a counted fault of the sink.
        ensures cause { HasCause (S.fault_count sink.old) (S.fault_count sink.new) (result ≡ Ran.Write) }
        ensures stays { S.takes_memory sink.new ≡ S.takes_memory sink.old }
        // Over a sink that takes no memory, a run that stays within the words and frames there are is not refused memory.
        ensures within { S.takes_memory sink.old ≡ false → StaysWithin (code_in self.entry) (machine_of self.entry) fuel (words_in self.entry) (frames_in self.entry) → result ≢ Ran.Memory }
    {
        for _ in 0..fuel {
            match self.advance(sink) {
                Advanced::On => {}
                Advanced::Ended(count) => return finish(self.machine, count),
                Advanced::Write => return Ran::Write,
                Advanced::Memory => return Ran::Memory,
            }
        }
        Ran::FuelSpent
    }
}
