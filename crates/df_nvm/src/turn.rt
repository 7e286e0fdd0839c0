//! One instruction of a machine.

ghost use Rattle.std.specs.Prelude.{◌≡◌, ◌≢◌, ◌<◌, ◌≤◌, ◌-◌, ◌^◌, true, false, length, vec_len, vec_capacity, slice_get, Err};
ghost use Rattle.df_base.specs.Outside.{HasCause};
ghost use Rattle.df_nmach.specs.Step.{effect, next_effect, given, calls};
ghost use Rattle.df_nmach.specs.View.{code_of, method_of, heap_of};
ghost use Rattle.df_nvm.specs.Frames.{running_of, waiting_of, state_of};
ghost use Rattle.df_nvm.specs.Stack.{words_of, room_of, operands_of};
ghost use Rattle.df_nvm.specs.Room.{needs_no_more, next_needs_no_more};
ghost use Rattle.df_nvm.specs.mirror.Quiet.{is_quiet};
ghost use Rattle.df_nvm.specs.mirror.Turns.{Enters, Turns};

use crate::halt::{Halt, Turn};
use crate::machine::Machine;
use df_base::Sink;
use df_nmach::{Code, Instruction, Method, Value};

/// Calls the method of a number.
fn call(code: &Code, machine: &mut Machine, number: usize) -> Result<Turn, Halt>
    requires { machine.old.next < 2 ^ 63 }
    ensures enters { Enters result (running_of machine.old) (running_of machine.new) (waiting_of machine.old) (waiting_of machine.new) (given (slice_get (code_of code.now).methods number) (calls (running_of machine.old) (running_of machine.old).operands number)) }
    ensures heap { machine.new.heap ≡ machine.old.heap }
    ensures within { needs_no_more (room_of machine.old.stack) (vec_capacity machine.old.waiting - vec_len machine.old.waiting) (code_of code.now) (running_of machine.old) (Instruction.Call number) ≡ true → result ≢ Err Halt.Memory }
    ensures words { words_of machine.old.stack ≤ words_of machine.new.stack }
    ensures frames { vec_capacity machine.old.waiting ≤ vec_capacity machine.new.waiting }
{
    if number >= code.methods.len() {
        return Err(Halt::Broken);
    }
    machine.call(number, &code.methods[number])
}

/// Does an instruction of a method. One that prints nothing leaves the sink alone.
fn act<S: Sink>(
    code: &Code,
    method: &Method,
    machine: &mut Machine,
    instruction: &Instruction,
    sink: &mut S,
) -> Result<Turn, Halt>
    requires { machine.old.next < length method.now.instructions.items }
    ensures turns { Turns result (state_of machine.old) (state_of machine.new) (operands_of machine.new.stack) (S.taken sink.old) (S.taken sink.new) (effect (code_of code.now) (method_of method.now) (heap_of machine.old.heap) (running_of machine.old) instruction.now (running_of machine.old).operands) }
    ensures quiet { is_quiet (effect (code_of code.now) (method_of method.now) (heap_of machine.old.heap) (running_of machine.old) instruction.now (running_of machine.old).operands) ≡ true → sink.new ≡ sink.old }
    ensures within { S.takes_memory sink.old ≡ false → needs_no_more (room_of machine.old.stack) (vec_capacity machine.old.waiting - vec_len machine.old.waiting) (code_of code.now) (running_of machine.old) instruction.now ≡ true → result ≢ Err Halt.Memory }
    ensures words { words_of machine.old.stack ≤ words_of machine.new.stack }
    ensures frames { vec_capacity machine.old.waiting ≤ vec_capacity machine.new.waiting }
    ensures cause { HasCause (S.fault_count sink.old) (S.fault_count sink.new) (result ≡ Err Halt.Write) }
    ensures stays { S.takes_memory sink.new ≡ S.takes_memory sink.old }
{
    let count = method.instructions.len();
    match instruction {
        Instruction::Number(number) => machine.push(Value::Number(*number)),
        Instruction::Truth(truth) => machine.push(Value::Truth(*truth)),
        Instruction::Char(character) => machine.push(Value::Char(*character)),
        Instruction::Get(local) => machine.get(*local),
        Instruction::Set(local) => machine.set(*local),
        Instruction::Drop => machine.discard(),
        Instruction::Unary(operator) => machine.apply_unary(operator),
        Instruction::Binary(operator) => machine.apply_binary(operator),
        Instruction::Jump(place) => machine.jump(count, *place),
        Instruction::Unless(place) => machine.jump_unless(count, *place),
        Instruction::Call(number) => call(code, machine, *number),
        Instruction::Return(results) => machine.give(*results),
        Instruction::Sequence(elements) => machine.gather(*elements),
        Instruction::Print(shape) => machine.print(code.shapes.as_slice(), *shape, sink),
    }
}

/// Does the next instruction of the frame that runs.
pub(crate) fn turn<S: Sink>(code: &Code, machine: &mut Machine, sink: &mut S) -> Result<Turn, Halt>
    ensures turns { Turns result (state_of machine.old) (state_of machine.new) (operands_of machine.new.stack) (S.taken sink.old) (S.taken sink.new) (next_effect (code_of code.now) (heap_of machine.old.heap) (running_of machine.old)) }
    ensures quiet { is_quiet (next_effect (code_of code.now) (heap_of machine.old.heap) (running_of machine.old)) ≡ true → sink.new ≡ sink.old }
    ensures within { S.takes_memory sink.old ≡ false → next_needs_no_more (room_of machine.old.stack) (vec_capacity machine.old.waiting - vec_len machine.old.waiting) (code_of code.now) (running_of machine.old) ≡ true → result ≢ Err Halt.Memory }
    ensures words { words_of machine.old.stack ≤ words_of machine.new.stack }
    ensures frames { vec_capacity machine.old.waiting ≤ vec_capacity machine.new.waiting }
    ensures cause { HasCause (S.fault_count sink.old) (S.fault_count sink.new) (result ≡ Err Halt.Write) }
    ensures stays { S.takes_memory sink.new ≡ S.takes_memory sink.old }
{
    if machine.method >= code.methods.len() {
        return Err(Halt::Broken);
    }
    let method = &code.methods[machine.method];
    if machine.next >= method.instructions.len() {
        return Err(Halt::Broken);
    }
    act(
        code,
        method,
        machine,
        &method.instructions[machine.next],
        sink,
    )
}
