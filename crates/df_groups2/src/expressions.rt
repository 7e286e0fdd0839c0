//! The calls of expressions.

ghost use Rattle.std.specs.Prelude.{◌≡◌, ◌++◌, map, OnOk};
ghost use Rattle.df_types.specs.ExprView.{expr_of, extent_of};
ghost use Rattle.df_types.specs.Gathering.{gather, gather_all, gather_links, gather_arms, gather_extent};
ghost use Rattle.df_types.specs.Calls.{called};
ghost use Rattle.df_groups2.specs.Parts.{exprs_in, links_in, arms_in, operand_values, calls_in};

use df_base::Memory;
use df_types::{Arm, Expr, Extent, Link, Operand};

/// Adds what an expression calls.
#[cycle(expressions)]
pub(crate) fn of_expr(callees: &mut Vec<usize>, expr: &Expr) -> Result<(), Memory>
    ensures { OnOk result (callees.new.items ≡ callees.old.items ++ gather called (expr_of expr.now)) }
{
    match expr {
        Expr::Local { .. } | Expr::Bound { .. } => Ok(()),
        Expr::Apply { arguments, .. } => of_exprs(callees, arguments),
        Expr::Fold { first, rest } => {
            of_expr(callees, first)?;
            of_operands(callees, rest)
        }
        Expr::Junction { first, rest, .. } => {
            of_expr(callees, first)?;
            of_exprs(callees, rest)
        }
        Expr::Chain { first, rest, .. } => {
            of_expr(callees, first)?;
            of_links(callees, rest)
        }
        Expr::If {
            arms,
            otherwise,
            ..
        } => {
            of_arms(callees, arms)?;
            of_expr(callees, otherwise)
        }
        Expr::Let { value, body, .. } => {
            of_expr(callees, value)?;
            of_expr(callees, body)
        }
        Expr::Call {
            callee,
            arguments,
            ..
        } => {
            callees.push(*callee)?;
            of_exprs(callees, arguments)
        }
        Expr::Quantify { extent, body, .. } => {
            of_extent(callees, extent)?;
            of_expr(callees, body)
        }
        Expr::Old { operand, .. } => of_expr(callees, operand),
    }
}

/// Adds what expressions call.
#[cycle(expressions)]
pub(crate) fn of_exprs(callees: &mut Vec<usize>, exprs: &Vec<Expr>) -> Result<(), Memory>
    ensures { OnOk result (callees.new.items ≡ callees.old.items ++ gather_all called (exprs_in exprs.now.items)) }
{
    for expr in exprs {
        of_expr(callees, expr)?;
    }
    Ok(())
}

/// Adds what right operands call.
#[cycle(expressions)]
fn of_operands(callees: &mut Vec<usize>, operands: &Vec<Operand>) -> Result<(), Memory>
    ensures { OnOk result (callees.new.items ≡ callees.old.items ++ calls_in (operand_values operands.now.items)) }
{
    for operand in operands {
        of_expr(callees, &operand.operand)?;
    }
    Ok(())
}

/// Adds what the members of a chain behind its first call.
#[cycle(expressions)]
fn of_links(callees: &mut Vec<usize>, links: &Vec<Link>) -> Result<(), Memory>
    ensures { OnOk result (callees.new.items ≡ callees.old.items ++ gather_links called (links_in links.now.items)) }
{
    for link in links {
        of_expr(callees, &link.operand)?;
    }
    Ok(())
}

/// Adds what the arms of an `if` call.
#[cycle(expressions)]
fn of_arms(callees: &mut Vec<usize>, arms: &Vec<Arm>) -> Result<(), Memory>
    ensures { OnOk result (callees.new.items ≡ callees.old.items ++ gather_arms called (arms_in arms.now.items)) }
{
    for arm in arms {
        of_expr(callees, &arm.guard)?;
        of_expr(callees, &arm.value)?;
    }
    Ok(())
}

/// Adds what a range calls.
#[cycle(expressions)]
pub(crate) fn of_extent(callees: &mut Vec<usize>, extent: &Extent) -> Result<(), Memory>
    ensures { OnOk result (callees.new.items ≡ callees.old.items ++ gather_extent called (extent_of extent.now)) }
{
    match extent {
        Extent::Between { low, high, .. } => {
            of_expr(callees, low)?;
            of_expr(callees, high)
        }
        Extent::Among { container, .. } => of_expr(callees, container),
    }
}
