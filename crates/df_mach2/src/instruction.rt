//! Instructions.

use crate::op::Op;

/// One step of a method.
#[derive(Clone, Copy, PartialEq, Eq)]
pub enum Instruction {
    /// Pops the operands of the operation, and pushes its result.
    Strict(Op),
    /// Pushes the local of this number.
    Get(usize),
    /// Pops into the local of this number.
    Set(usize),
    /// Pops.
    Drop,
    /// Goes to the instruction of this number in the method.
    Jump(usize),
    /// Pops a truth, and goes to the instruction of this number if it is false.
    Unless(usize),
    /// Pops the parameters of the method of this number, the first of them deepest, and begins it. The frame waits
    /// for its results.
    Call(usize),
    /// Pops so many results and ends the frame. The frame that waits for them has them on top; the machine ends
    /// where none waits.
    Return(usize),
    /// Pops a value, and writes it by the shape of this number.
    Print(usize),
}
