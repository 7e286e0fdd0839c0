//! Values that go to locals, calls, and what is printed.

ghost use Rattle.std.specs.Prelude.{◌≡◌, ◌≤◌, [], ◌∷◌, ◌++◌, length, map, replicate, OnOk};
ghost use Rattle.std.specs.Option.{option_map};
ghost use Rattle.df_nplain.specs.ExprView.{expr_of};
ghost use Rattle.df_nplain.specs.StmtView.{call_of, source_of, update_of, operand_of};
ghost use Rattle.df_nmach.specs.declared.instruction.Instruction.TheVariants as instructions;
ghost use Rattle.df_nemit.specs.Code as pure;
ghost use Rattle.df_nemit.specs.mirror.Emitting as mirror;

use crate::expressions::expr;
use crate::instructions::{TEXT, put, shape_of, slot};
use df_nmach::Instruction;
use df_nplain::{Call, Expr, Operand, Source, Update};
use std::alloc::AllocError;

/// Pushes the values of expressions in order.
fn exprs(code: &mut Vec<Instruction>, scratch: usize, all: &Vec<Expr>) -> Result<(), AllocError>
    ensures ok { OnOk result (code.new.items ≡ mirror.emit_exprs scratch code.old.items (map expr_of all.now.items)) }
    ensures longer { length code.old.items ≤ length code.new.items }
{
    for value in all {
        expr(code, scratch, value)?;
    }
    Ok(())
}

/// Calls a method, which pushes its results.
pub(crate) fn call(
    code: &mut Vec<Instruction>,
    scratch: usize,
    call: &Call,
) -> Result<(), AllocError>
    ensures ok { OnOk result (code.new.items ≡ mirror.emit_call scratch code.old.items (call_of call.now)) }
    ensures longer { length code.old.items ≤ length code.new.items }
{
    exprs(code, scratch, &call.arguments)?;
    put(code, Instruction::Call(call.callee))
}

fn source(code: &mut Vec<Instruction>, scratch: usize, source: &Source) -> Result<(), AllocError>
    ensures ok { OnOk result (code.new.items ≡ mirror.emit_source scratch code.old.items (source_of source.now)) }
    ensures longer { length code.old.items ≤ length code.new.items }
{
    match source {
        Source::Value(value) => expr(code, scratch, value),
        Source::Call(given) => call(code, scratch, given),
    }
}

fn sources(code: &mut Vec<Instruction>, scratch: usize, all: &Vec<Source>) -> Result<(), AllocError>
    ensures ok { OnOk result (code.new.items ≡ mirror.emit_sources scratch code.old.items (map source_of all.now.items)) }
    ensures longer { length code.old.items ≤ length code.new.items }
{
    for one in all {
        source(code, scratch, one)?;
    }
    Ok(())
}

/// Pops values into their places, the last one first.
fn sets(code: &mut Vec<Instruction>, scratch: usize, targets: &Vec<usize>) -> Result<(), AllocError>
    ensures ok { OnOk result (code.new.items ≡ code.old.items ++ pure.sets_code scratch targets.now.items) }
    ensures longer { length code.old.items ≤ length code.new.items }
{
    let mut left = targets.len();
    while left > 0 {
        left -= 1;
        let number = slot(scratch, targets[left])?;
        put(code, Instruction::Set(number))?;
    }
    Ok(())
}

/// Pushes all values, and then pops them into their places.
pub(crate) fn update(
    code: &mut Vec<Instruction>,
    scratch: usize,
    update: &Update,
) -> Result<(), AllocError>
    ensures ok { OnOk result (code.new.items ≡ mirror.emit_update scratch code.old.items (update_of update.now)) }
    ensures longer { length code.old.items ≤ length code.new.items }
{
    sources(code, scratch, &update.sources)?;
    sets(code, scratch, &update.targets)
}

pub(crate) fn optional(
    code: &mut Vec<Instruction>,
    scratch: usize,
    given: &Option<Update>,
) -> Result<(), AllocError>
    ensures ok { OnOk result (code.new.items ≡ mirror.emit_optional scratch code.old.items (option_map update_of given.now)) }
    ensures longer { length code.old.items ≤ length code.new.items }
{
    match given {
        Some(given) => update(code, scratch, given),
        None => Ok(()),
    }
}

/// Pops so many values.
pub(crate) fn drops(code: &mut Vec<Instruction>, count: usize) -> Result<(), AllocError>
    ensures ok { OnOk result (code.new.items ≡ code.old.items ++ replicate count instructions.Drop) }
    ensures longer { length code.old.items ≤ length code.new.items }
{
    for _ in 0..count {
        put(code, Instruction::Drop)?;
    }
    Ok(())
}

/// Pushes the characters of a text that is not empty, and prints it.
fn text(code: &mut Vec<Instruction>, characters: &Vec<u8>) -> Result<(), AllocError>
    ensures ok { OnOk result (code.new.items ≡ code.old.items ++ pure.text_code characters.now.items) }
    ensures longer { length code.old.items ≤ length code.new.items }
{
    if characters.is_empty() {
        return Ok(());
    }
    for character in characters {
        put(code, Instruction::Char(*character))?;
    }
    put(code, Instruction::Sequence(characters.len()))?;
    put(code, Instruction::Print(TEXT))
}

fn operand(code: &mut Vec<Instruction>, scratch: usize, operand: &Operand) -> Result<(), AllocError>
    ensures ok { OnOk result (code.new.items ≡ mirror.emit_operand scratch code.old.items (operand_of operand.now)) }
    ensures longer { length code.old.items ≤ length code.new.items }
{
    match operand {
        Operand::Text(characters) => text(code, characters),
        Operand::Value { kind, value } => {
            expr(code, scratch, value)?;
            let shape = shape_of(*kind);
            put(code, Instruction::Print(shape))
        }
    }
}

/// Prints operands in order.
pub(crate) fn print(
    code: &mut Vec<Instruction>,
    scratch: usize,
    operands: &Vec<Operand>,
) -> Result<(), AllocError>
    ensures ok { OnOk result (code.new.items ≡ mirror.emit_operands scratch code.old.items (map operand_of operands.now.items)) }
    ensures longer { length code.old.items ≤ length code.new.items }
{
    for one in operands {
        operand(code, scratch, one)?;
    }
    Ok(())
}
