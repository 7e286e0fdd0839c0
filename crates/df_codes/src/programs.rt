//! Methods of small programs in one code, as the emitter lays them out.

ghost use Rattle.std.specs.Prelude.{◌≡◌, ◌++◌, [], ◌∷◌, true, map, IfOk, OnOk};
ghost use Rattle.df_codes.specs.Programs.{parity_rows, seven_rows, loop_rows, nest_rows, count_rows, fib_rows, programs};
ghost use Rattle.df_nmach.specs.Name.{is_name};
ghost use Rattle.df_nmach.specs.View.{code_of, method_of};

use crate::parts::{BITS, method, shapes};
use df_nmach::{BinaryOperator, Code, Instruction, Method, UnaryOperator};
use std::alloc::{AllocError, Global};

/// Whether a number is even, or odd: at 0 so, and else as the other method says of the number before.
fn parity_instructions(
    alloc: Global,
    at_zero: bool,
    other: usize,
) -> Result<Vec<Instruction>, AllocError>
    ensures { IfOk result (λ instructions. instructions.items ≡ parity_rows at_zero other) }
{
    let instructions = Vec::from_array(
        alloc,
        [
            Instruction::Get(0),
            Instruction::Number(0),
            Instruction::Binary(BinaryOperator::Same),
            Instruction::Unless(7),
            Instruction::Truth(at_zero),
            Instruction::Set(1),
            Instruction::Jump(12),
            Instruction::Get(0),
            Instruction::Number(1),
            Instruction::Binary(BinaryOperator::Subtract(BITS)),
            Instruction::Call(other),
            Instruction::Set(1),
            Instruction::Get(1),
            Instruction::Return(1),
        ],
    )?;
    Ok(instructions)
}

/// Prints whether 7 is even.
fn seven_instructions(alloc: Global) -> Result<Vec<Instruction>, AllocError>
    ensures { IfOk result (λ instructions. instructions.items ≡ seven_rows) }
{
    let instructions = Vec::from_array(
        alloc,
        [
            Instruction::Number(7),
            Instruction::Call(0),
            Instruction::Set(1),
            Instruction::Get(1),
            Instruction::Print(1),
            Instruction::Char(10),
            Instruction::Sequence(1),
            Instruction::Print(3),
            Instruction::Return(0),
        ],
    )?;
    Ok(instructions)
}

/// Prints 0 to 2 in a loop.
fn loop_instructions(alloc: Global) -> Result<Vec<Instruction>, AllocError>
    ensures { IfOk result (λ instructions. instructions.items ≡ loop_rows) }
{
    let instructions = Vec::from_array(
        alloc,
        [
            Instruction::Number(0),
            Instruction::Set(1),
            Instruction::Get(1),
            Instruction::Number(3),
            Instruction::Binary(BinaryOperator::Less),
            Instruction::Unless(13),
            Instruction::Get(1),
            Instruction::Print(0),
            Instruction::Get(1),
            Instruction::Number(1),
            Instruction::Binary(BinaryOperator::Add(BITS)),
            Instruction::Set(1),
            Instruction::Jump(2),
            Instruction::Return(0),
        ],
    )?;
    Ok(instructions)
}

/// Three loops, of which the innermost ends by a `break` in its second turn.
fn nest_instructions(alloc: Global) -> Result<Vec<Instruction>, AllocError>
    ensures { IfOk result (λ instructions. instructions.items ≡ nest_rows) }
{
    let instructions = Vec::from_array(
        alloc,
        [
            Instruction::Number(0),
            Instruction::Set(1),
            Instruction::Get(1),
            Instruction::Number(2),
            Instruction::Binary(BinaryOperator::Less),
            Instruction::Unless(45),
            Instruction::Number(0),
            Instruction::Set(2),
            Instruction::Get(2),
            Instruction::Number(2),
            Instruction::Binary(BinaryOperator::Less),
            Instruction::Unless(40),
            Instruction::Number(0),
            Instruction::Set(3),
            Instruction::Get(3),
            Instruction::Number(3),
            Instruction::Binary(BinaryOperator::Less),
            Instruction::Unless(35),
            Instruction::Get(3),
            Instruction::Number(1),
            Instruction::Binary(BinaryOperator::Same),
            Instruction::Unless(24),
            Instruction::Jump(35),
            Instruction::Jump(24),
            Instruction::Get(1),
            Instruction::Print(0),
            Instruction::Get(2),
            Instruction::Print(0),
            Instruction::Get(3),
            Instruction::Print(0),
            Instruction::Get(3),
            Instruction::Number(1),
            Instruction::Binary(BinaryOperator::Add(BITS)),
            Instruction::Set(3),
            Instruction::Jump(14),
            Instruction::Get(2),
            Instruction::Number(1),
            Instruction::Binary(BinaryOperator::Add(BITS)),
            Instruction::Set(2),
            Instruction::Jump(8),
            Instruction::Get(1),
            Instruction::Number(1),
            Instruction::Binary(BinaryOperator::Add(BITS)),
            Instruction::Set(1),
            Instruction::Jump(2),
            Instruction::Return(0),
        ],
    )?;
    Ok(instructions)
}

/// Counts up to its parameter.
fn count_instructions(alloc: Global) -> Result<Vec<Instruction>, AllocError>
    ensures { IfOk result (λ instructions. instructions.items ≡ count_rows) }
{
    let instructions = Vec::from_array(
        alloc,
        [
            Instruction::Number(0),
            Instruction::Set(1),
            Instruction::Get(1),
            Instruction::Get(0),
            Instruction::Binary(BinaryOperator::Less),
            Instruction::Unless(11),
            Instruction::Get(1),
            Instruction::Number(1),
            Instruction::Binary(BinaryOperator::Add(BITS)),
            Instruction::Set(1),
            Instruction::Jump(2),
            Instruction::Get(1),
            Instruction::Return(1),
        ],
    )?;
    Ok(instructions)
}

/// Whether the Fibonacci number of its parameter is odd.
fn fib_instructions(alloc: Global) -> Result<Vec<Instruction>, AllocError>
    ensures { IfOk result (λ instructions. instructions.items ≡ fib_rows) }
{
    let instructions = Vec::from_array(
        alloc,
        [
            Instruction::Get(0),
            Instruction::Number(2),
            Instruction::Binary(BinaryOperator::Less),
            Instruction::Unless(9),
            Instruction::Get(0),
            Instruction::Number(1),
            Instruction::Binary(BinaryOperator::Same),
            Instruction::Set(1),
            Instruction::Jump(24),
            Instruction::Get(0),
            Instruction::Number(1),
            Instruction::Binary(BinaryOperator::Subtract(BITS)),
            Instruction::Call(6),
            Instruction::Set(3),
            Instruction::Get(0),
            Instruction::Number(2),
            Instruction::Binary(BinaryOperator::Subtract(BITS)),
            Instruction::Call(6),
            Instruction::Set(4),
            Instruction::Get(3),
            Instruction::Get(4),
            Instruction::Binary(BinaryOperator::Same),
            Instruction::Unary(UnaryOperator::Not),
            Instruction::Set(1),
            Instruction::Get(1),
            Instruction::Return(1),
        ],
    )?;
    Ok(instructions)
}

/// Adds a method of this name with so many parameters, results and further locals.
fn push_method(
    alloc: Global,
    methods: &mut Vec<Method>,
    name: &str,
    counts: (usize, usize, usize),
    instructions: Vec<Instruction>,
) -> Result<(), AllocError>
    requires { is_name name.now ≡ true }
    ensures { OnOk result (map method_of methods.new.items ≡ map method_of methods.old.items ++ (record { name = name.now; parameters = counts.0; results = counts.1; locals = counts.2; instructions = instructions.items }) ∷ []) }
{
    let method = method(alloc, name, counts, instructions)?;
    methods.push(method)?;
    Ok(())
}

/// Adds the methods to none.
fn push_methods(alloc: Global, methods: &mut Vec<Method>) -> Result<(), AllocError>
    requires { methods.old.items ≡ [] }
    ensures { OnOk result (map method_of methods.new.items ≡ programs.methods) }
{
    push_method(
        alloc,
        methods,
        "Even",
        (1, 1, 2),
        parity_instructions(alloc, true, 1)?,
    )?;
    push_method(
        alloc,
        methods,
        "Odd",
        (1, 1, 2),
        parity_instructions(alloc, false, 0)?,
    )?;
    push_method(
        alloc,
        methods,
        "Main",
        (0, 0, 2),
        seven_instructions(alloc)?,
    )?;
    push_method(alloc, methods, "Loop", (0, 0, 2), loop_instructions(alloc)?)?;
    push_method(alloc, methods, "Nest", (0, 0, 4), nest_instructions(alloc)?)?;
    push_method(
        alloc,
        methods,
        "Count",
        (1, 1, 2),
        count_instructions(alloc)?,
    )?;
    push_method(alloc, methods, "Fib", (1, 1, 4), fib_instructions(alloc)?)
}

/// The code: method 0 and 1 tell whether a number is even or odd, 2 prints whether 7 is even, 3 and 4 print in loops, 5
/// counts up to its parameter, and 6 tells whether a Fibonacci number is odd.
pub fn program_code(alloc: Global) -> Result<Code, AllocError>
    ensures { IfOk result (λ code. code_of code ≡ programs) }
{
    let shapes = shapes(alloc)?;
    let mut methods = Vec::new(alloc);
    push_methods(alloc, &mut methods)?;
    Ok(Code { methods, shapes })
}
