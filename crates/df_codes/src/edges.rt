//! A code that does each instruction at the edges of what it takes, and prints what comes of it.

ghost use Rattle.std.specs.Prelude.{◌≡◌, [], ◌∷◌, IfOk};
ghost use Rattle.df_codes.specs.Edges.{edge_rows, turn_rows, edge_method, turn_method, edges};
ghost use Rattle.df_nmach.specs.View.{code_of, method_of};

use crate::parts::{method, shapes};
use df_nmach::{BinaryOperator, Code, Heap, Instruction, Method, UnaryOperator, Value};
use df_nvm::Vm;
use std::alloc::{AllocError, Global};

/// Each instruction at the edges of what it takes, from the locals 5, 7 and 0.
fn edge_instructions(alloc: Global) -> Result<Vec<Instruction>, AllocError>
    ensures { IfOk result (λ instructions. instructions.items ≡ edge_rows) }
{
    let instructions = Vec::from_array(
        alloc,
        [
            Instruction::Get(0),
            Instruction::Set(2),
            Instruction::Get(2),
            Instruction::Print(0),
            Instruction::Get(1),
            Instruction::Print(0),
            Instruction::Truth(true),
            Instruction::Print(1),
            Instruction::Char(33),
            Instruction::Print(2),
            Instruction::Sequence(0),
            Instruction::Print(3),
            Instruction::Char(104),
            Instruction::Char(105),
            Instruction::Sequence(2),
            Instruction::Print(3),
            Instruction::Truth(false),
            Instruction::Unless(19),
            Instruction::Print(0),
            Instruction::Truth(true),
            Instruction::Unless(18),
            Instruction::Jump(23),
            Instruction::Drop,
            Instruction::Number(1),
            Instruction::Drop,
            Instruction::Char(65),
            Instruction::Unary(UnaryOperator::Code),
            Instruction::Print(0),
            Instruction::Char(127),
            Instruction::Unary(UnaryOperator::Code),
            Instruction::Print(0),
            Instruction::Number(65),
            Instruction::Unary(UnaryOperator::Character),
            Instruction::Print(2),
            Instruction::Number(0),
            Instruction::Unary(UnaryOperator::Character),
            Instruction::Unary(UnaryOperator::Code),
            Instruction::Print(0),
            Instruction::Number(127),
            Instruction::Unary(UnaryOperator::Character),
            Instruction::Unary(UnaryOperator::Code),
            Instruction::Print(0),
            Instruction::Number(i128::MIN),
            Instruction::Number(i128::MAX),
            Instruction::Binary(BinaryOperator::Less),
            Instruction::Print(1),
            Instruction::Number(0),
            Instruction::Number(0),
            Instruction::Binary(BinaryOperator::Less),
            Instruction::Print(1),
            Instruction::Number(0),
            Instruction::Number(0),
            Instruction::Binary(BinaryOperator::AtMost),
            Instruction::Print(1),
            Instruction::Number(1),
            Instruction::Number(0),
            Instruction::Binary(BinaryOperator::AtMost),
            Instruction::Print(1),
            Instruction::Char(97),
            Instruction::Char(98),
            Instruction::Binary(BinaryOperator::Less),
            Instruction::Print(1),
            Instruction::Char(98),
            Instruction::Char(97),
            Instruction::Binary(BinaryOperator::AtMost),
            Instruction::Print(1),
            Instruction::Number(i128::MIN),
            Instruction::Number(i128::MIN),
            Instruction::Binary(BinaryOperator::Same),
            Instruction::Print(1),
            Instruction::Number(0),
            Instruction::Char(0),
            Instruction::Binary(BinaryOperator::Same),
            Instruction::Print(1),
            Instruction::Truth(false),
            Instruction::Number(0),
            Instruction::Binary(BinaryOperator::Same),
            Instruction::Print(1),
            Instruction::Truth(true),
            Instruction::Truth(true),
            Instruction::Binary(BinaryOperator::Same),
            Instruction::Print(1),
            Instruction::Sequence(0),
            Instruction::Sequence(0),
            Instruction::Binary(BinaryOperator::Same),
            Instruction::Print(1),
            Instruction::Char(97),
            Instruction::Char(97),
            Instruction::Binary(BinaryOperator::Same),
            Instruction::Print(1),
            Instruction::Char(104),
            Instruction::Char(105),
            Instruction::Sequence(2),
            Instruction::Char(104),
            Instruction::Char(111),
            Instruction::Sequence(2),
            Instruction::Binary(BinaryOperator::Same),
            Instruction::Print(1),
            Instruction::Char(104),
            Instruction::Char(105),
            Instruction::Sequence(2),
            Instruction::Set(2),
            Instruction::Get(2),
            Instruction::Get(2),
            Instruction::Binary(BinaryOperator::Same),
            Instruction::Print(1),
            Instruction::Truth(false),
            Instruction::Unary(UnaryOperator::Not),
            Instruction::Print(1),
            Instruction::Truth(true),
            Instruction::Unary(UnaryOperator::Not),
            Instruction::Print(1),
            Instruction::Number(8),
            Instruction::Number(1),
            Instruction::Number(2),
            Instruction::Number(3),
            Instruction::Call(1),
            Instruction::Print(0),
            Instruction::Print(0),
            Instruction::Print(0),
            Instruction::Print(0),
            Instruction::Get(0),
            Instruction::Get(1),
            Instruction::Return(2),
        ],
    )?;
    Ok(instructions)
}

/// Its parameters in another order; it prints its own local.
fn turn_instructions(alloc: Global) -> Result<Vec<Instruction>, AllocError>
    ensures { IfOk result (λ instructions. instructions.items ≡ turn_rows) }
{
    let instructions = Vec::from_array(
        alloc,
        [
            Instruction::Get(2),
            Instruction::Get(0),
            Instruction::Get(1),
            Instruction::Get(3),
            Instruction::Print(0),
            Instruction::Return(3),
        ],
    )?;
    Ok(instructions)
}

/// The code: it is given 5 and 7.
pub fn edge_code(alloc: Global) -> Result<Code, AllocError>
    ensures { IfOk result (λ code. code_of code ≡ edges) }
{
    let edge = method(alloc, "Main", (2, 2, 1), edge_instructions(alloc)?)?;
    let turn = method(alloc, "C.turn'", (3, 3, 1), turn_instructions(alloc)?)?;
    Ok(Code {
        methods: Vec::from_array(alloc, [edge, turn])?,
        shapes: shapes(alloc)?,
    })
}

/// The machine at its beginning.
pub fn edge_vm<'a>(alloc: Global, code: &'a Code) -> Result<Vm<'a>, AllocError>
    requires { code_of code.now ≡ edges }
{
    let arguments = Vec::from_array(alloc, [Value::Number(5), Value::Number(7)])?;
    Vm::new(alloc, code, 0, Heap::new(alloc), arguments)
}
