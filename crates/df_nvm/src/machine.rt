//! What a machine has beside its code, and what instructions do with it.

ghost use Rattle.std.specs.Prelude.{◌≡◌, ◌≢◌, ◌<◌, ◌≤◌, ◌^◌, ◌∷◌, ◌&&◌, ◌-◌, ◌+◌, [], true, false, length, reverse, nat_lt, nat_le, slice_get, vec_len, vec_capacity, IfOk, OnOk, Err};
ghost use Rattle.df_base.specs.Outside.{HasCause};
ghost use Rattle.df_nmach.specs.Step.{leaves, beginning};
ghost use Rattle.df_nmach.specs.Step as table;
ghost use Rattle.df_nmach.specs.View.{value_of, values_of, heap_of, method_of};
ghost use Rattle.df_nvm.specs.mirror.Rows as rows;
ghost use Rattle.df_nvm.specs.Stack.{below_of, operands_of, room_of, words_of};
ghost use Rattle.df_nvm.specs.mirror.Standing.{stands};
ghost use Rattle.df_nvm.specs.Room.{is_word};
ghost use Rattle.df_nvm.specs.mirror.Quiet.{is_quiet};
ghost use Rattle.df_nvm.specs.mirror.Turns.{Works, Enters, Gives, Puts};

use crate::halt::{Halt, Turn};
use crate::operators::{binary, unary};
use crate::printing::print;
use crate::stack::{Stack, push_zeros};
use df_base::Sink;
use df_nmach::{BinaryOperator, Heap, Method, Shape, UnaryOperator, Value};
use std::alloc::{AllocError, Global};

/// The length of the longest list that there can be.
const LONGEST: usize = 9223372036854775807;

/// A method that waits for the results of another.
#[derive(Clone, Copy, PartialEq, Eq)]
pub(crate) struct Waiting {
    /// The number of the method.
    pub method: usize,
    /// The number of the instruction that is next once the results are there.
    pub next: usize,
    /// Where its locals begin.
    pub base: usize,
    /// How many locals it has. Its operands follow them.
    pub locals: usize,
}

/// The heap, the method that runs, and those that wait, the last of them for the one that runs.
#[derive(Drop)]
pub(crate) struct Machine {
    pub heap: Heap,
    /// The number of the method.
    pub method: usize,
    /// The number of the next instruction.
    pub next: usize,
    pub stack: Stack,
    pub waiting: Vec<Waiting>,
    ghost standing: { stands (reverse waiting.items) (length (below_of stack)) ≡ true },
}

impl Machine {
    ghost use Rattle.df_nvm.specs.Frames.{running_of, waiting_of, state_of};

    /// The beginning of a method with these arguments. It fails for want of memory.
    pub fn begin(
        alloc: Global,
        number: usize,
        method: &Method,
        heap: Heap,
        arguments: Vec<Value>,
    ) -> Result<Machine, AllocError>
        ensures running { IfOk result (λ machine. running_of machine ≡ beginning number (method_of method.now) (values_of arguments.items)) }
        ensures waiting { IfOk result (λ machine. waiting_of machine ≡ []) }
        ensures heap { IfOk result (λ machine. heap_of machine.heap ≡ heap_of heap) }
    {
        let mut locals = arguments;
        push_zeros(&mut locals, method.locals)?;
        Ok(Machine {
            heap,
            method: number,
            next: 0,
            stack: Stack::new(locals),
            waiting: Vec::new(alloc),
        })
    }

    /// Makes room for so many more words and frames. It fails for want of memory, and the machine stands as
    /// before in any case.
    pub fn reserve(&mut self, words: usize, frames: usize) -> Result<(), AllocError>
        ensures room { OnOk result (words ≤ room_of self.new.stack) }
        ensures frame_room { OnOk result (vec_len self.new.waiting + frames ≤ vec_capacity self.new.waiting) }
        ensures state { state_of self.new ≡ state_of self.old }
        ensures words { words_of self.old.stack ≤ words_of self.new.stack }
        ensures frames { vec_capacity self.old.waiting ≤ vec_capacity self.new.waiting }
    {
        self.stack.reserve(words)?;
        self.waiting.reserve(frames)
    }

    /// Pushes a value.
    pub fn push(&mut self, value: Value) -> Result<Turn, Halt>
        requires { self.old.next < 2 ^ 63 }
        ensures works { Works result (heap_of self.old.heap) (running_of self.old) (running_of self.new) (leaves (heap_of self.old.heap) (running_of self.old) (value_of value ∷ (running_of self.old).operands)) }
        ensures heap { self.new.heap ≡ self.old.heap }
        ensures waiting { waiting_of self.new ≡ waiting_of self.old }
        ensures full { result ≡ Err Halt.Memory → nat_lt 0 (room_of self.old.stack) ≡ false }
        ensures words { words_of self.old.stack ≤ words_of self.new.stack }
        ensures frames { vec_capacity self.new.waiting ≡ vec_capacity self.old.waiting }
    {
        self.stack.push(value)?;
        self.next += 1;
        Ok(Turn::On)
    }

    /// Pushes a local.
    pub fn get(&mut self, local: usize) -> Result<Turn, Halt>
        requires { self.old.next < 2 ^ 63 }
        ensures works { Works result (heap_of self.old.heap) (running_of self.old) (running_of self.new) (rows.get_row (heap_of self.old.heap) (running_of self.old) local) }
        ensures heap { self.new.heap ≡ self.old.heap }
        ensures waiting { waiting_of self.new ≡ waiting_of self.old }
        ensures full { result ≡ Err Halt.Memory → is_word (slice_get (running_of self.old).locals local) && nat_lt 0 (room_of self.old.stack) ≡ false }
        ensures words { words_of self.old.stack ≤ words_of self.new.stack }
        ensures frames { vec_capacity self.new.waiting ≡ vec_capacity self.old.waiting }
    {
        let Some(value) = self.stack.local(local) else {
            return Err(Halt::Broken);
        };
        let value = value.copy()?;
        self.push(value)
    }

    /// Pops into a local.
    pub fn set(&mut self, local: usize) -> Result<Turn, Halt>
        requires { self.old.next < 2 ^ 63 }
        ensures works { Works result (heap_of self.old.heap) (running_of self.old) (running_of self.new) (rows.set_row (heap_of self.old.heap) (running_of self.old) local) }
        ensures heap { self.new.heap ≡ self.old.heap }
        ensures waiting { waiting_of self.new ≡ waiting_of self.old }
        ensures memory { result ≢ Err Halt.Memory }
        ensures words { words_of self.old.stack ≤ words_of self.new.stack }
        ensures frames { vec_capacity self.new.waiting ≡ vec_capacity self.old.waiting }
    {
        if local >= self.stack.locals() {
            return Err(Halt::Broken);
        }
        let Some(value) = self.stack.pop() else {
            return Err(Halt::Broken);
        };
        self.stack.set(local, value);
        self.next += 1;
        Ok(Turn::On)
    }

    /// Pops.
    pub fn discard(&mut self) -> Result<Turn, Halt>
        requires { self.old.next < 2 ^ 63 }
        ensures works { Works result (heap_of self.old.heap) (running_of self.old) (running_of self.new) (rows.drop_row (heap_of self.old.heap) (running_of self.old)) }
        ensures heap { self.new.heap ≡ self.old.heap }
        ensures waiting { waiting_of self.new ≡ waiting_of self.old }
        ensures memory { result ≢ Err Halt.Memory }
        ensures words { words_of self.old.stack ≤ words_of self.new.stack }
        ensures frames { vec_capacity self.new.waiting ≡ vec_capacity self.old.waiting }
    {
        let Some(_) = self.stack.pop() else {
            return Err(Halt::Broken);
        };
        self.next += 1;
        Ok(Turn::On)
    }

    /// Pops an operand, and pushes the result.
    pub fn apply_unary(&mut self, operator: &UnaryOperator) -> Result<Turn, Halt>
        requires { self.old.next < 2 ^ 63 }
        ensures works { Works result (heap_of self.old.heap) (running_of self.old) (running_of self.new) (rows.unary_row (heap_of self.old.heap) (running_of self.old) operator.now) }
        ensures heap { self.new.heap ≡ self.old.heap }
        ensures waiting { waiting_of self.new ≡ waiting_of self.old }
        ensures memory { result ≢ Err Halt.Memory }
        ensures words { words_of self.old.stack ≤ words_of self.new.stack }
        ensures frames { vec_capacity self.new.waiting ≡ vec_capacity self.old.waiting }
    {
        let Some(operand) = self.stack.pop() else {
            return Err(Halt::Broken);
        };
        let Some(value) = unary(operator, &operand) else {
            return Err(Halt::Broken);
        };
        self.stack.put(value);
        self.next += 1;
        Ok(Turn::On)
    }

    /// Pops a right and a left operand, and pushes the result.
    pub fn apply_binary(&mut self, operator: &BinaryOperator) -> Result<Turn, Halt>
        requires { self.old.next < 2 ^ 63 }
        ensures works { Works result (heap_of self.old.heap) (running_of self.old) (running_of self.new) (rows.binary_row (heap_of self.old.heap) (running_of self.old) operator.now) }
        ensures heap { self.new.heap ≡ self.old.heap }
        ensures waiting { waiting_of self.new ≡ waiting_of self.old }
        ensures memory { result ≢ Err Halt.Memory }
        ensures words { words_of self.old.stack ≤ words_of self.new.stack }
        ensures frames { vec_capacity self.new.waiting ≡ vec_capacity self.old.waiting }
    {
        let Some(right) = self.stack.pop() else {
            return Err(Halt::Broken);
        };
        let Some(left) = self.stack.pop() else {
            return Err(Halt::Broken);
        };
        let Some(value) = binary(operator, &left, &right) else {
            return Err(Halt::Broken);
        };
        self.stack.put(value);
        self.next += 1;
        Ok(Turn::On)
    }

    /// Goes to one of so many instructions.
    pub fn jump(&mut self, count: usize, place: usize) -> Result<Turn, Halt>
        ensures works { Works result (heap_of self.old.heap) (running_of self.old) (running_of self.new) (rows.jump_row (heap_of self.old.heap) count (running_of self.old) place) }
        ensures heap { self.new.heap ≡ self.old.heap }
        ensures waiting { waiting_of self.new ≡ waiting_of self.old }
        ensures memory { result ≢ Err Halt.Memory }
        ensures words { words_of self.old.stack ≤ words_of self.new.stack }
        ensures frames { vec_capacity self.new.waiting ≡ vec_capacity self.old.waiting }
    {
        if place >= count {
            return Err(Halt::Broken);
        }
        self.next = place;
        Ok(Turn::On)
    }

    /// Pops a truth, and goes to one of so many instructions if it is false.
    pub fn jump_unless(&mut self, count: usize, place: usize) -> Result<Turn, Halt>
        requires { self.old.next < 2 ^ 63 }
        ensures works { Works result (heap_of self.old.heap) (running_of self.old) (running_of self.new) (rows.unless_row (heap_of self.old.heap) count (running_of self.old) place) }
        ensures heap { self.new.heap ≡ self.old.heap }
        ensures waiting { waiting_of self.new ≡ waiting_of self.old }
        ensures memory { result ≢ Err Halt.Memory }
        ensures words { words_of self.old.stack ≤ words_of self.new.stack }
        ensures frames { vec_capacity self.new.waiting ≡ vec_capacity self.old.waiting }
    {
        let Some(Value::Truth(truth)) = self.stack.pop() else {
            return Err(Halt::Broken);
        };
        if place >= count {
            return Err(Halt::Broken);
        }
        self.next = if truth { self.next + 1 } else { place };
        Ok(Turn::On)
    }

    /// Pops so many characters, and pushes their text.
    pub fn gather(&mut self, count: usize) -> Result<Turn, Halt>
        requires { self.old.next < 2 ^ 63 }
        ensures works { Works result (heap_of self.old.heap) (running_of self.old) (running_of self.new) (rows.sequence_row (heap_of self.old.heap) (running_of self.old) count) }
        ensures heap { self.new.heap ≡ self.old.heap }
        ensures waiting { waiting_of self.new ≡ waiting_of self.old }
        ensures words { words_of self.old.stack ≤ words_of self.new.stack }
        ensures frames { vec_capacity self.new.waiting ≡ vec_capacity self.old.waiting }
    {
        if count > self.stack.operands() {
            return Err(Halt::Broken);
        }
        if count > LONGEST {
            return Err(Halt::Memory);
        }
        let text = self.stack.characters(count)?;
        self.stack.replace(count, Value::Text(text))?;
        self.next += 1;
        Ok(Turn::On)
    }

    /// Pops the parameters of a method, the first of them deepest, and begins it.
    pub fn call(&mut self, number: usize, method: &Method) -> Result<Turn, Halt>
        requires { self.old.next < 2 ^ 63 }
        ensures enters { Enters result (running_of self.old) (running_of self.new) (waiting_of self.old) (waiting_of self.new) (table.calls (running_of self.old) (running_of self.old).operands number (method_of method.now)) }
        ensures heap { self.new.heap ≡ self.old.heap }
        ensures full { result ≡ Err Halt.Memory → nat_le method.now.locals (room_of self.old.stack) && nat_lt 0 (vec_capacity self.old.waiting - vec_len self.old.waiting) ≡ false }
        ensures words { words_of self.old.stack ≤ words_of self.new.stack }
        ensures frames { vec_capacity self.old.waiting ≤ vec_capacity self.new.waiting }
    {
        if method.parameters > self.stack.operands() {
            return Err(Halt::Broken);
        }
        // With this room nothing is refused once the frame has begun.
        self.waiting.reserve(1)?;
        let waiting = Waiting {
            method: self.method,
            next: self.next + 1,
            base: self.stack.base(),
            locals: self.stack.locals(),
        };
        self.stack.enter(method.parameters, method.locals)?;
        self.waiting.push_reserved(waiting);
        self.method = number;
        self.next = 0;
        Ok(Turn::On)
    }

    /// Ends the frame with so many results. The frame that waits for them has them on top, in the same
    /// order; where none waits they stay where they are.
    pub fn give(&mut self, count: usize) -> Result<Turn, Halt>
        ensures gives { Gives result (running_of self.old) (running_of self.new) (waiting_of self.old) (waiting_of self.new) count }
        ensures heap { self.new.heap ≡ self.old.heap }
        ensures words { words_of self.old.stack ≤ words_of self.new.stack }
        ensures frames { vec_capacity self.new.waiting ≡ vec_capacity self.old.waiting }
    {
        if count > self.stack.operands() {
            return Err(Halt::Broken);
        }
        let Some(waiting) = self.waiting.pop() else {
            return Ok(Turn::Returned(count));
        };
        self.stack.leave(count, waiting.base, waiting.locals);
        self.method = waiting.method;
        self.next = waiting.next;
        Ok(Turn::On)
    }

    /// Pops a value, and puts its text by one of the shapes.
    pub fn print<S: Sink>(
        &mut self,
        shapes: &[Shape],
        shape: usize,
        sink: &mut S,
    ) -> Result<Turn, Halt>
        requires { self.old.next < 2 ^ 63 }
        ensures puts { Puts result (heap_of self.old.heap) (running_of self.old) (running_of self.new) (S.taken sink.old) (S.taken sink.new) (rows.print_row shapes.now (heap_of self.old.heap) (running_of self.old) shape) }
        ensures heap { self.new.heap ≡ self.old.heap }
        ensures waiting { waiting_of self.new ≡ waiting_of self.old }
        ensures cause { HasCause (S.fault_count sink.old) (S.fault_count sink.new) (result ≡ Err Halt.Write) }
        ensures stays { S.takes_memory sink.new ≡ S.takes_memory sink.old }
        ensures quiet { is_quiet (rows.print_row shapes.now (heap_of self.old.heap) (running_of self.old) shape) ≡ true → sink.new ≡ sink.old }
        ensures full { S.takes_memory sink.old ≡ false → result ≢ Err Halt.Memory }
        ensures words { words_of self.old.stack ≤ words_of self.new.stack }
        ensures frames { vec_capacity self.new.waiting ≡ vec_capacity self.old.waiting }
    {
        let Some(value) = self.stack.top() else {
            return Err(Halt::Broken);
        };
        if shape >= shapes.len() {
            return Err(Halt::Broken);
        }
        print(shapes[shape], value, sink)?;
        drop(self.stack.pop());
        self.next += 1;
        Ok(Turn::On)
    }
}
