//! Texts of long codes.

use anyhow::Result;
use df_codes::{method, shapes};
use df_listing::write;
use df_nmach::{BinaryOperator, Code, Instruction, Method, Range};
use std::alloc::{AllocError, Global};
use std::time::{Duration, Instant};

const BITS: Range = Range {
    low: -2147483648,
    high: 2147483647,
};

/// Adds a statement that adds its number to a local: four instructions.
fn push_statement(instructions: &mut Vec<Instruction>, number: u32) -> Result<(), AllocError> {
    instructions.push(Instruction::Get(1))?;
    instructions.push(Instruction::Number(i128::from(number)))?;
    instructions.push(Instruction::Binary(BinaryOperator::Add(BITS)))?;
    instructions.push(Instruction::Set(1))?;
    Ok(())
}

/// Adds so many statements.
fn push_statements(instructions: &mut Vec<Instruction>, size: u32) -> Result<(), AllocError> {
    for number in 0..size {
        push_statement(instructions, number)?;
    }
    instructions.push(Instruction::Return(0))?;
    Ok(())
}

/// A method of so many statements.
fn main_method(alloc: Global, size: u32) -> Result<Method, AllocError> {
    let mut instructions = Vec::new(alloc);
    push_statements(&mut instructions, size)?;
    method(alloc, "Main", (0, 0, 2), instructions)
}

/// A code of one method with so many statements.
fn statements(alloc: Global, size: u32) -> Result<Code, AllocError> {
    let main = main_method(alloc, size)?;
    let methods = vec![in alloc; main]?;
    let shapes = shapes(alloc)?;
    Ok(Code { methods, shapes })
}

/// Writes the listing of a code: how long it is, and how long that took.
fn timed(rt: &HostRuntime, code: &Code) -> Result<(usize, Duration)> {
    let begun = Instant::now(rt)?;
    let text = write(rt.alloc(), code)?;
    let time = begun.elapsed(rt)?;
    Ok((text.len(), time))
}

/// Writes the listing of so many statements: how long it is, and how long that took.
pub(crate) fn write_statements(rt: &HostRuntime, size: u32) -> Result<(String, Duration)> {
    let code = statements(rt.alloc(), size)?;
    let (length, time) = timed(rt, &code)?;
    Ok((format!(in rt.alloc(); "{length} bytes")?, time))
}
