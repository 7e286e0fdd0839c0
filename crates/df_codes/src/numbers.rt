//! Codes that compute numbers, in all signs and at both ends, and print them.

ghost use Rattle.std.specs.Prelude.{◌≡◌, [], ◌∷◌, IfOk};
ghost use Rattle.df_codes.specs.Numbers.{quotient_rows, number_rows, quotients, numbers};
ghost use Rattle.df_nmach.specs.View.{code_of};

use crate::parts::{ALL, DIGIT, method, shapes};
use df_nmach::{BinaryOperator, Code, Heap, Instruction, UnaryOperator};
use df_nvm::Vm;
use std::alloc::{AllocError, Global};

/// Quotients and remainders.
fn quotient_instructions(alloc: Global) -> Result<Vec<Instruction>, AllocError>
    ensures { IfOk result (λ instructions. instructions.items ≡ quotient_rows) }
{
    let instructions = Vec::from_array(
        alloc,
        [
            Instruction::Number(7),
            Instruction::Number(2),
            Instruction::Binary(BinaryOperator::Divide(DIGIT)),
            Instruction::Print(0),
            Instruction::Number(7),
            Instruction::Number(2),
            Instruction::Binary(BinaryOperator::Modulo(DIGIT)),
            Instruction::Print(0),
            Instruction::Number(7),
            Instruction::Number(-2),
            Instruction::Binary(BinaryOperator::Divide(DIGIT)),
            Instruction::Print(0),
            Instruction::Number(7),
            Instruction::Number(-2),
            Instruction::Binary(BinaryOperator::Modulo(DIGIT)),
            Instruction::Print(0),
            Instruction::Number(-7),
            Instruction::Number(2),
            Instruction::Binary(BinaryOperator::Divide(DIGIT)),
            Instruction::Print(0),
            Instruction::Number(-7),
            Instruction::Number(2),
            Instruction::Binary(BinaryOperator::Modulo(DIGIT)),
            Instruction::Print(0),
            Instruction::Number(-7),
            Instruction::Number(-2),
            Instruction::Binary(BinaryOperator::Divide(DIGIT)),
            Instruction::Print(0),
            Instruction::Number(-7),
            Instruction::Number(-2),
            Instruction::Binary(BinaryOperator::Modulo(DIGIT)),
            Instruction::Print(0),
            Instruction::Number(i128::MAX),
            Instruction::Number(2),
            Instruction::Binary(BinaryOperator::Divide(ALL)),
            Instruction::Print(0),
            Instruction::Number(i128::MIN),
            Instruction::Number(2),
            Instruction::Binary(BinaryOperator::Divide(ALL)),
            Instruction::Print(0),
            Instruction::Number(i128::MIN),
            Instruction::Number(1),
            Instruction::Binary(BinaryOperator::Divide(ALL)),
            Instruction::Print(0),
            Instruction::Number(i128::MAX),
            Instruction::Number(-1),
            Instruction::Binary(BinaryOperator::Divide(ALL)),
            Instruction::Print(0),
            Instruction::Number(i128::MIN),
            Instruction::Number(i128::MAX),
            Instruction::Binary(BinaryOperator::Divide(ALL)),
            Instruction::Print(0),
            Instruction::Number(-1),
            Instruction::Number(i128::MIN),
            Instruction::Binary(BinaryOperator::Divide(ALL)),
            Instruction::Print(0),
            Instruction::Number(-1),
            Instruction::Number(i128::MAX),
            Instruction::Binary(BinaryOperator::Divide(ALL)),
            Instruction::Print(0),
            Instruction::Number(i128::MAX),
            Instruction::Number(i128::MIN),
            Instruction::Binary(BinaryOperator::Divide(ALL)),
            Instruction::Print(0),
            Instruction::Number(i128::MIN),
            Instruction::Number(-1),
            Instruction::Binary(BinaryOperator::Modulo(ALL)),
            Instruction::Print(0),
            Instruction::Number(i128::MAX),
            Instruction::Number(i128::MIN),
            Instruction::Binary(BinaryOperator::Modulo(ALL)),
            Instruction::Print(0),
            Instruction::Number(i128::MIN),
            Instruction::Number(i128::MAX),
            Instruction::Binary(BinaryOperator::Modulo(ALL)),
            Instruction::Print(0),
            Instruction::Number(-1),
            Instruction::Number(i128::MAX),
            Instruction::Binary(BinaryOperator::Modulo(ALL)),
            Instruction::Print(0),
            Instruction::Number(-18),
            Instruction::Number(2),
            Instruction::Binary(BinaryOperator::Divide(DIGIT)),
            Instruction::Print(0),
            Instruction::Number(-9),
            Instruction::Number(-1),
            Instruction::Binary(BinaryOperator::Divide(DIGIT)),
            Instruction::Print(0),
            Instruction::Return(0),
        ],
    )?;
    Ok(instructions)
}

/// The other results of numbers.
fn number_instructions(alloc: Global) -> Result<Vec<Instruction>, AllocError>
    ensures { IfOk result (λ instructions. instructions.items ≡ number_rows) }
{
    let instructions = Vec::from_array(
        alloc,
        [
            Instruction::Number(i128::MAX),
            Instruction::Number(1),
            Instruction::Binary(BinaryOperator::Multiply(ALL)),
            Instruction::Print(0),
            Instruction::Number(i128::MIN),
            Instruction::Number(1),
            Instruction::Binary(BinaryOperator::Multiply(ALL)),
            Instruction::Print(0),
            Instruction::Number(i128::MAX),
            Instruction::Number(-1),
            Instruction::Binary(BinaryOperator::Multiply(ALL)),
            Instruction::Print(0),
            Instruction::Number(i128::MIN),
            Instruction::Number(i128::MAX),
            Instruction::Binary(BinaryOperator::Add(ALL)),
            Instruction::Print(0),
            Instruction::Number(i128::MAX),
            Instruction::Number(0),
            Instruction::Binary(BinaryOperator::Add(ALL)),
            Instruction::Print(0),
            Instruction::Number(-1),
            Instruction::Number(i128::MIN),
            Instruction::Binary(BinaryOperator::Subtract(ALL)),
            Instruction::Print(0),
            Instruction::Number(i128::MIN),
            Instruction::Number(0),
            Instruction::Binary(BinaryOperator::Subtract(ALL)),
            Instruction::Print(0),
            Instruction::Number(3),
            Instruction::Number(-3),
            Instruction::Binary(BinaryOperator::Multiply(DIGIT)),
            Instruction::Print(0),
            Instruction::Number(-3),
            Instruction::Number(-3),
            Instruction::Binary(BinaryOperator::Multiply(DIGIT)),
            Instruction::Print(0),
            Instruction::Number(4),
            Instruction::Number(5),
            Instruction::Binary(BinaryOperator::Add(DIGIT)),
            Instruction::Print(0),
            Instruction::Number(-4),
            Instruction::Number(-5),
            Instruction::Binary(BinaryOperator::Add(DIGIT)),
            Instruction::Print(0),
            Instruction::Number(4),
            Instruction::Number(-5),
            Instruction::Binary(BinaryOperator::Subtract(DIGIT)),
            Instruction::Print(0),
            Instruction::Number(9),
            Instruction::Unary(UnaryOperator::Negate(DIGIT)),
            Instruction::Print(0),
            Instruction::Number(-9),
            Instruction::Unary(UnaryOperator::Negate(DIGIT)),
            Instruction::Print(0),
            Instruction::Number(i128::MAX),
            Instruction::Unary(UnaryOperator::Negate(ALL)),
            Instruction::Print(0),
            Instruction::Number(-9),
            Instruction::Unary(UnaryOperator::Fit(DIGIT)),
            Instruction::Print(0),
            Instruction::Number(9),
            Instruction::Unary(UnaryOperator::Fit(DIGIT)),
            Instruction::Print(0),
            Instruction::Number(i128::MIN),
            Instruction::Unary(UnaryOperator::Fit(ALL)),
            Instruction::Print(0),
            Instruction::Number(i128::MAX),
            Instruction::Unary(UnaryOperator::Fit(ALL)),
            Instruction::Print(0),
            Instruction::Return(0),
        ],
    )?;
    Ok(instructions)
}

/// The code of quotients and remainders.
pub fn quotient_code(alloc: Global) -> Result<Code, AllocError>
    ensures { IfOk result (λ code. code_of code ≡ quotients) }
{
    let main = method(alloc, "Main", (0, 0, 0), quotient_instructions(alloc)?)?;
    Ok(Code {
        methods: Vec::from_array(alloc, [main])?,
        shapes: shapes(alloc)?,
    })
}

/// The machine at its beginning.
pub fn quotient_vm<'a>(alloc: Global, code: &'a Code) -> Result<Vm<'a>, AllocError>
    requires { code_of code.now ≡ quotients }
{
    Vm::new(alloc, code, 0, Heap::new(alloc), Vec::new(alloc))
}

/// The code of the others.
pub fn number_code(alloc: Global) -> Result<Code, AllocError>
    ensures { IfOk result (λ code. code_of code ≡ numbers) }
{
    let main = method(alloc, "Main", (0, 0, 0), number_instructions(alloc)?)?;
    Ok(Code {
        methods: Vec::from_array(alloc, [main])?,
        shapes: shapes(alloc)?,
    })
}

/// The machine at its beginning.
pub fn number_vm<'a>(alloc: Global, code: &'a Code) -> Result<Vm<'a>, AllocError>
    requires { code_of code.now ≡ numbers }
{
    Vm::new(alloc, code, 0, Heap::new(alloc), Vec::new(alloc))
}
