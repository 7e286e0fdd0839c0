//! Expressions.

ghost use Rattle.std.specs.Prelude.{◌≡◌, ◌≤◌, [], ◌∷◌, ◌++◌, length, map, OnOk};
ghost use Rattle.df_nplain.specs.Kind.{range_of};
ghost use Rattle.df_nplain.specs.ExprView.{expr_of, addend_of, addends_of, factor_of, factors_of, members_of, link_of, links_of};
ghost use Rattle.df_nemit.specs.Code as pure;
ghost use Rattle.df_nemit.specs.mirror.Emitting as mirror;

use crate::instructions::{
    adds, between, compare, decide_unless, from_kind, keep, land, multiplies, put, range_of, slot,
    to_kind,
};
use df_lang::Junction;
use df_nmach::{BinaryOperator, Instruction, UnaryOperator};
use df_nplain::{Addend, Expr, Factor, Link, Range};
use std::alloc::AllocError;

/// Pushes the value of an expression.
#[cycle(expr)]
pub(crate) fn expr(code: &mut Vec<Instruction>, scratch: usize, e: &Expr) -> Result<(), AllocError>
    ensures ok { OnOk result (code.new.items ≡ mirror.emit_expr scratch code.old.items (expr_of e.now)) }
    ensures longer { length code.old.items ≤ length code.new.items }
{
    match e {
        Expr::Number(value) => put(code, Instruction::Number(*value)),
        Expr::Truth(value) => put(code, Instruction::Truth(*value)),
        Expr::Character(character) => put(code, Instruction::Char(*character)),
        Expr::Local(local) => {
            let number = slot(scratch, *local)?;
            put(code, Instruction::Get(number))
        }
        Expr::Negate { range, operand } => {
            expr(code, scratch, operand)?;
            let range = range_of(*range);
            put(code, Instruction::Unary(UnaryOperator::Negate(range)))
        }
        Expr::Not(operand) => {
            expr(code, scratch, operand)?;
            put(code, Instruction::Unary(UnaryOperator::Not))
        }
        Expr::Sum { range, first, rest } => {
            expr(code, scratch, first)?;
            sum(code, scratch, *range, rest)
        }
        Expr::Product { range, first, rest } => {
            expr(code, scratch, first)?;
            product(code, scratch, *range, rest)
        }
        Expr::Junction {
            junction: kind,
            first,
            rest,
        } => {
            expr(code, scratch, first)?;
            junction(code, scratch, *kind, rest)
        }
        Expr::Implies { first, rest } => {
            expr(code, scratch, first)?;
            implications(code, scratch, rest)
        }
        Expr::Iff { first, rest } => {
            expr(code, scratch, first)?;
            equivalences(code, scratch, rest)
        }
        Expr::Chain { first, rest } => {
            expr(code, scratch, first)?;
            chain(code, scratch, rest)
        }
        Expr::As {
            source,
            target,
            operand,
        } => {
            expr(code, scratch, operand)?;
            from_kind(code, *source)?;
            to_kind(code, *target)
        }
    }
}

/// Goes on from the first operand of a sum.
#[cycle(expr)]
fn sum(
    code: &mut Vec<Instruction>,
    scratch: usize,
    range: Range,
    rest: &Vec<Addend>,
) -> Result<(), AllocError>
    ensures ok { OnOk result (code.new.items ≡ mirror.emit_addends scratch code.old.items (range_of range) (addends_of (map addend_of rest.now.items))) }
    ensures longer { length code.old.items ≤ length code.new.items }
{
    for addend in rest {
        expr(code, scratch, &addend.operand)?;
        put(code, adds(addend.operator, range))?;
    }
    Ok(())
}

/// Goes on from the first operand of a product.
#[cycle(expr)]
fn product(
    code: &mut Vec<Instruction>,
    scratch: usize,
    range: Range,
    rest: &Vec<Factor>,
) -> Result<(), AllocError>
    ensures ok { OnOk result (code.new.items ≡ mirror.emit_factors scratch code.old.items (range_of range) (factors_of (map factor_of rest.now.items))) }
    ensures longer { length code.old.items ≤ length code.new.items }
{
    for factor in rest {
        expr(code, scratch, &factor.operand)?;
        put(code, multiplies(factor.operator, range))?;
    }
    Ok(())
}

/// Goes on from the first member of a junction.
#[cycle(expr)]
fn junction(
    code: &mut Vec<Instruction>,
    scratch: usize,
    kind: Junction,
    rest: &Vec<Expr>,
) -> Result<(), AllocError>
    ensures ok { OnOk result (code.new.items ≡ mirror.landed (mirror.emit_junction scratch (mirror.begun code.old.items) kind (members_of (map expr_of rest.now.items)))) }
    ensures longer { length code.old.items ≤ length code.new.items }
{
    let mut exits = Vec::new(*code.allocator());
    for member in rest {
        between(code, &mut exits, kind)?;
        expr(code, scratch, member)?;
    }
    let end = code.len();
    land(code, &exits, end);
    Ok(())
}

/// Goes on from the first member of a run of implications.
#[cycle(expr)]
fn implications(
    code: &mut Vec<Instruction>,
    scratch: usize,
    rest: &Vec<Expr>,
) -> Result<(), AllocError>
    ensures ok { OnOk result (code.new.items ≡ mirror.landed (mirror.emit_implications scratch (mirror.begun code.old.items) (members_of (map expr_of rest.now.items)))) }
    ensures longer { length code.old.items ≤ length code.new.items }
{
    let mut exits = Vec::new(*code.allocator());
    for member in rest {
        decide_unless(code, &mut exits, true)?;
        expr(code, scratch, member)?;
    }
    let end = code.len();
    land(code, &exits, end);
    Ok(())
}

/// Goes on from the first member of a run of equivalences.
#[cycle(expr)]
fn equivalences(
    code: &mut Vec<Instruction>,
    scratch: usize,
    rest: &Vec<Expr>,
) -> Result<(), AllocError>
    ensures ok { OnOk result (code.new.items ≡ mirror.emit_equivalences scratch code.old.items (members_of (map expr_of rest.now.items))) }
    ensures longer { length code.old.items ≤ length code.new.items }
{
    for member in rest {
        expr(code, scratch, member)?;
        put(code, Instruction::Binary(BinaryOperator::Same))?;
    }
    Ok(())
}

/// Where a chain has no comparison it is true.
#[tactic(auto, using(crate::proofs::Tail::opens_more))]
fn open(code: &mut Vec<Instruction>, rest: &Vec<Link>) -> Result<(), AllocError>
    ensures ok { OnOk result (mirror.begun code.new.items ≡ mirror.opened (mirror.begun code.old.items) (links_of (map link_of rest.now.items))) }
    ensures longer { length code.old.items ≤ length code.new.items }
{
    if rest.is_empty() {
        put(code, Instruction::Drop)?;
        put(code, Instruction::Truth(true))?;
    }
    Ok(())
}

/// Goes on from the first operand of a chain.
#[cycle(expr)]
fn chain(code: &mut Vec<Instruction>, scratch: usize, rest: &Vec<Link>) -> Result<(), AllocError>
    ensures ok { OnOk result (code.new.items ≡ mirror.landed (mirror.emit_links scratch (mirror.opened (mirror.begun code.old.items) (links_of (map link_of rest.now.items))) (links_of (map link_of rest.now.items)))) }
    ensures longer { length code.old.items ≤ length code.new.items }
{
    open(code, rest)?;
    let mut exits = Vec::new(*code.allocator());
    for (index, link) in rest.iter().enumerate() {
        expr(code, scratch, &link.operand)?;
        if index + 1 < rest.len() {
            keep(code, &mut exits, scratch, link.comparison)?;
        } else {
            compare(code, link.comparison)?;
        }
    }
    let end = code.len();
    land(code, &exits, end);
    Ok(())
}
