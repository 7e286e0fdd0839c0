//! The values of all frames, one above another.

ghost use Rattle.std.specs.Prelude.{◌≡◌, ◌+◌, ◌<◌, ◌≤◌, ◌++◌, [], ◌∷◌, length, take, drop, reverse, replicate, pos, slice_get, slice_set, vec_len, vec_capacity, ◌-◌, Some, IfSome, IfNone, OnOk, OnErr};
ghost use Rattle.df_nmach.specs.Step as table;
ghost use Rattle.df_nmach.specs.Value.{Number};
ghost use Rattle.df_nmach.specs.View.{value_of, values_of};
ghost use Rattle.df_nvm.specs.mirror.Turns.{Reads};

use crate::halt::Halt;
use crate::text::characters;
use df_nmach::Value;
use std::alloc::AllocError;

/// Values, the last on top: those of the frames below, then the locals of the frame on top, and then its
/// operands.
#[derive(Drop)]
pub(crate) struct Stack {
    values: Vec<Value>,
    /// Where the frame on top begins.
    base: usize,
    /// How many locals it has.
    locals: usize,
    ghost stands: { base + locals ≤ vec_len values },
}

/// Puts so many numbers 0 on top. It fails for want of memory, and then changes nothing.
pub(crate) fn push_zeros(values: &mut Vec<Value>, count: usize) -> Result<(), AllocError>
    ensures ok { OnOk result (values_of values.new.items ≡ values_of values.old.items ++ replicate count (Number (pos 0))) }
    ensures len { OnOk result (vec_len values.new ≡ vec_len values.old + count) }
    ensures err { OnErr result (values.new.items ≡ values.old.items) }
    ensures full { OnErr result (vec_capacity values.old - vec_len values.old < count) }
    ensures capacity { vec_capacity values.old ≤ vec_capacity values.new }
{
    values.reserve(count)?;
    for _ in 0..count {
        values.push_reserved(Value::Number(0));
    }
    Ok(())
}

impl Stack {
    ghost use Rattle.df_nvm.specs.Stack.{below_of, locals_of, operands_of, words_of, room_of};

    /// A frame with these locals, and no others below.
    pub fn new(locals: Vec<Value>) -> Stack
        ensures below { below_of result ≡ [] }
        ensures locals { locals_of result ≡ values_of locals.items }
        ensures operands { operands_of result ≡ [] }
    {
        let count = locals.len();
        Stack {
            values: locals,
            base: 0,
            locals: count,
        }
    }

    /// Where the frame on top begins.
    pub fn base(&self) -> usize
        ensures { result ≡ length (below_of self.now) }
    {
        self.base
    }

    /// How many locals it has.
    pub fn locals(&self) -> usize
        ensures { result ≡ length (locals_of self.now) }
    {
        self.locals
    }

    /// How many operands it has.
    pub fn operands(&self) -> usize
        ensures { result ≡ length (operands_of self.now) }
    {
        self.values.len() - (self.base + self.locals)
    }

    /// Makes room for so many more values. It fails for want of memory, and changes no value.
    pub fn reserve(&mut self, words: usize) -> Result<(), AllocError>
        ensures ok { OnOk result (words ≤ room_of self.new) }
        ensures err { OnErr result (room_of self.old < words) }
        ensures below { below_of self.new ≡ below_of self.old }
        ensures locals { locals_of self.new ≡ locals_of self.old }
        ensures operands { operands_of self.new ≡ operands_of self.old }
        ensures words { words_of self.old ≤ words_of self.new }
    {
        self.values.reserve(words)
    }

    /// Puts an operand on top. It fails for want of memory, and then changes nothing.
    pub fn push(&mut self, value: Value) -> Result<(), AllocError>
        ensures ok { OnOk result (operands_of self.new ≡ value_of value ∷ operands_of self.old) }
        ensures err { OnErr result (operands_of self.new ≡ operands_of self.old) }
        ensures below { below_of self.new ≡ below_of self.old }
        ensures locals { locals_of self.new ≡ locals_of self.old }
        ensures full { OnErr result (room_of self.old < 1) }
        ensures words { words_of self.old ≤ words_of self.new }
    {
        self.values.push(value)?;
        Ok(())
    }

    /// Puts an operand on top, where there is room.
    pub fn put(&mut self, value: Value)
        requires { 0 < room_of self.old }
        ensures operands { operands_of self.new ≡ value_of value ∷ operands_of self.old }
        ensures below { below_of self.new ≡ below_of self.old }
        ensures locals { locals_of self.new ≡ locals_of self.old }
        ensures words { words_of self.new ≡ words_of self.old }
    {
        self.values.push_reserved(value);
    }

    /// Takes the operand on top, which leaves room for another.
    pub fn pop(&mut self) -> Option<Value>
        ensures some { IfSome result (λ value. operands_of self.old ≡ value_of value ∷ operands_of self.new) }
        ensures none { IfNone result (operands_of self.old ≡ []) }
        ensures below { below_of self.new ≡ below_of self.old }
        ensures locals { locals_of self.new ≡ locals_of self.old }
        ensures room { IfSome result (λ _. 0 < room_of self.new) }
        ensures words { words_of self.new ≡ words_of self.old }
    {
        if self.values.len() == self.base + self.locals {
            return None;
        }
        self.values.pop()
    }

    /// The operand on top.
    pub fn top(&self) -> Option<&Value>
        ensures some { IfSome result (λ value. operands_of self.now ≡ value_of value.now ∷ drop 1 (operands_of self.now)) }
        ensures none { IfNone result (operands_of self.now ≡ []) }
    {
        if self.values.len() == self.base + self.locals {
            return None;
        }
        self.values.last()
    }

    /// A local of the frame on top.
    pub fn local(&self, local: usize) -> Option<&Value>
        ensures some { IfSome result (λ value. slice_get (locals_of self.now) local ≡ Some (value_of value.now)) }
        ensures none { IfNone result (length (locals_of self.now) ≤ local) }
    {
        if local >= self.locals {
            return None;
        }
        Some(&self.values[self.base + local])
    }

    /// Writes a local of the frame on top.
    pub fn set(&mut self, local: usize, value: Value)
        requires { local < length (locals_of self.old) }
        ensures locals { locals_of self.new ≡ slice_set (locals_of self.old) local (value_of value) }
        ensures below { below_of self.new ≡ below_of self.old }
        ensures operands { operands_of self.new ≡ operands_of self.old }
        ensures words { words_of self.new ≡ words_of self.old }
    {
        self.values[self.base + local] = value;
    }

    /// The characters that so many operands on top are, the deepest of them first. Each of them has to be
    /// one.
    pub fn characters(&self, count: usize) -> Result<Vec<u8>, Halt>
        requires { count ≤ length (operands_of self.now) }
        ensures { Reads result (table.characters (reverse (take count (operands_of self.now)))) }
    {
        let start = self.values.len() - count;
        characters(*self.values.allocator(), &self.values[start..])
    }

    /// Puts a value in place of so many operands on top. It fails for want of memory, and then changes
    /// nothing.
    pub fn replace(&mut self, count: usize, value: Value) -> Result<(), AllocError>
        requires { count ≤ length (operands_of self.old) }
        ensures ok { OnOk result (operands_of self.new ≡ value_of value ∷ drop count (operands_of self.old)) }
        ensures err { OnErr result (operands_of self.new ≡ operands_of self.old) }
        ensures below { below_of self.new ≡ below_of self.old }
        ensures locals { locals_of self.new ≡ locals_of self.old }
        ensures words { words_of self.old ≤ words_of self.new }
    {
        // With this room the value can be put in its place.
        self.values.reserve(1)?;
        self.values.truncate(self.values.len() - count);
        self.values.push_reserved(value);
        Ok(())
    }

    /// Begins a frame above: its first locals are so many operands on top, the deepest first, and so many
    /// more are the number 0. It fails for want of memory, and then changes nothing.
    pub fn enter(&mut self, parameters: usize, locals: usize) -> Result<(), AllocError>
        requires { parameters ≤ length (operands_of self.old) }
        ensures below { OnOk result (below_of self.new ≡ below_of self.old ++ locals_of self.old ++ reverse (drop parameters (operands_of self.old))) }
        ensures locals { OnOk result (locals_of self.new ≡ reverse (take parameters (operands_of self.old)) ++ replicate locals (Number (pos 0))) }
        ensures operands { OnOk result (operands_of self.new ≡ []) }
        ensures err { OnErr result ((below_of self.new ≡ below_of self.old) × (locals_of self.new ≡ locals_of self.old) × (operands_of self.new ≡ operands_of self.old)) }
        ensures full { OnErr result (room_of self.old < locals) }
        ensures words { words_of self.old ≤ words_of self.new }
    {
        let base = self.values.len() - parameters;
        push_zeros(&mut self.values, locals)?;
        self.base = base;
        self.locals = parameters + locals;
        Ok(())
    }

    /// Ends the frame on top. Below stands the frame that begins there and has so many locals; so many
    /// operands on top become its operands on top, in the same order.
    pub fn leave(&mut self, count: usize, base: usize, locals: usize)
        requires count { count ≤ length (operands_of self.old) }
        requires stands { base + locals ≤ length (below_of self.old) }
        ensures below { below_of self.new ≡ take base (below_of self.old) }
        ensures locals { locals_of self.new ≡ take locals (drop base (below_of self.old)) }
        ensures operands { operands_of self.new ≡ take count (operands_of self.old) ++ reverse (drop (base + locals) (below_of self.old)) }
        ensures words { words_of self.new ≡ words_of self.old }
    {
        let start = self.values.len() - count;
        drop(self.values.drain(self.base..start));
        self.base = base;
        self.locals = locals;
    }

    /// So many operands on top, the deepest of them first.
    pub fn into_top(self, count: usize) -> Vec<Value>
        requires { count ≤ length (operands_of self) }
        ensures { values_of result.items ≡ reverse (take count (operands_of self)) }
    {
        let mut values = self.values;
        let others = values.len() - count;
        values.rotate_left(others);
        values.truncate(count);
        values
    }
}
