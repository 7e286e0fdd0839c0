//! Codes of long programs.

ghost use Rattle.std.specs.Prelude.{◌≡◌, true, IfOk};
ghost use Rattle.df_nplain.specs.ExprView.{expr_of};
ghost use Rattle.df_nplain.specs.StmtView.{stmt_of};
ghost use Rattle.df_nplain.specs.View.{plain_of};
ghost use Rattle.df_nemit.specs.Named.{are_named};
ghost use Rattle.df_bench.specs.Steps as pure;

use anyhow::{Context, Result};
use df_lang::{AddendOperator, Interval};
use df_nemit::emit;
use df_nmach::Code;
use df_nplain::{Addend, Expr, Kind, Method, Plain, Range, Source, Stmt, Update};
use std::alloc::{AllocError, Global};
use std::time::{Duration, Instant};

/// The parameter and 1.
fn one_more(alloc: Global, bits: Interval) -> Result<Expr, AllocError>
    ensures { IfOk result (λ value. expr_of value ≡ pure.one_more bits.low bits.high) }
{
    let first = Box::new(alloc, Expr::Local(0))?;
    let addend = Addend {
        operator: AddendOperator::Plus,
        operand: Expr::Number(1),
    };
    let rest = vec![in alloc; addend]?;
    Ok(Expr::Sum {
        range: Range::Between(bits),
        first,
        rest,
    })
}

/// Adds 1 to the parameter.
fn step(alloc: Global, bits: Interval) -> Result<Stmt, AllocError>
    ensures { IfOk result (λ stmt. stmt_of stmt ≡ pure.step bits.low bits.high) }
{
    let value = one_more(alloc, bits)?;
    let targets = vec![in alloc; 0]?;
    let sources = vec![in alloc; Source::Value(value)]?;
    Ok(Stmt::Assign(Update { targets, sources }))
}

fn steps(alloc: Global, bits: Interval, size: u32) -> Result<Vec<Stmt>, AllocError>
    ensures { IfOk result (λ body. pure.AreSteps bits.low bits.high body.items) }
{
    let mut body = Vec::new(alloc);
    for _ in 0..size {
        body.push(step(alloc, bits)?)?;
    }
    Ok(body)
}

/// A program of one method with so many statements, each of which adds 1 to its parameter.
fn program(alloc: Global, size: u32) -> Result<Plain>
    ensures { IfOk result (λ plain. are_named (plain_of plain) ≡ true) }
{
    let bits = Interval::new(-2147483648, 2147483647).context("ordered")?;
    let text = String::from_str(alloc, "Main")?;
    let parameters = vec![in alloc; Kind::Number(Range::Between(bits))]?;
    let body = steps(alloc, bits, size)?;
    let main = Method {
        text,
        parameters,
        results: Vec::new(alloc),
        body,
    };
    let methods = vec![in alloc; main]?;
    Ok(Plain::new(methods))
}

/// How many instructions the first method has.
fn instruction_count(code: &Code) -> usize {
    match code.methods.first() {
        Some(method) => method.instructions.len(),
        None => 0,
    }
}

/// Emits the code of a program: how many instructions it has, and how long that took.
fn timed(rt: &HostRuntime, plain: &Plain) -> Result<(usize, Duration)>
    requires { are_named (plain_of plain.now) ≡ true }
{
    let begun = Instant::now(rt)?;
    let code = emit(rt.alloc(), plain)?;
    let time = begun.elapsed(rt)?;
    Ok((instruction_count(&code), time))
}

/// Emits the code of so many statements: how many instructions it has, and how long that took.
pub(crate) fn emit_statements(rt: &HostRuntime, size: u32) -> Result<(String, Duration)> {
    let plain = program(rt.alloc(), size)?;
    let (count, time) = timed(rt, &plain)?;
    Ok((format!(in rt.alloc(); "{count} instructions")?, time))
}
