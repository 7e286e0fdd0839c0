//! Expressions made of literals alone, typed as is expected.

ghost use Rattle.std.specs.Prelude.{◌≡◌, map, IfOk};
ghost use Rattle.df_lang.specs.Expr as pure;
ghost use Rattle.df_lang.specs.ExprView as typed;
ghost use Rattle.df_ntree.specs.Expr as tree;
ghost use Rattle.df_ntyping.specs.ExprElaboration.{addends_of, factors_of};
ghost use Rattle.df_ntexpr.specs.Parts.{typed_of, part_of};
ghost use Rattle.df_ntyping.specs.mirror.Literals as literals;
ghost use Rattle.df_ntyping.specs.mirror.Literals.{limited_value, sum_or_product, opened, opened_parts};

use crate::part::{Part, Typed};
use crate::runs::{product, sum};
use df_base::{Global, Pos};
use df_lang::{Expr, Ty};
use df_nrules::{beginning_of, counted, first_group};
use df_ntree as tree;
use df_ntree::{Group, Literal, Operation};
use std::alloc::AllocError;

/// The value of a literal; no token is a number above the limit.
fn value_of(literal: &Literal) -> i128
    ensures { result ≡ limited_value literal.now }
{
    match i128::try_from(literal.magnitude) {
        Ok(magnitude) if literal.negative => -magnitude,
        Ok(magnitude) => magnitude,
        Err(_) => 0,
    }
}

/// A minus before an operand of the type.
fn negated(alloc: Global, ty: Ty, pos: Pos, operand: Expr) -> Result<Typed, AllocError>
    ensures { IfOk result (λ t. typed_of t ≡ record { ty = ty; expr = pure.Negate ty pos (typed.expr_of operand) }) }
{
    let operand = Box::new(alloc, operand)?;
    Ok(Typed {
        ty,
        expr: Expr::Negate { ty, pos, operand },
    })
}

/// A sum or a product of the type.
fn sum_or_product(
    alloc: Global,
    group: Option<Group>,
    ty: Ty,
    first: Expr,
    parts: Vec<Part>,
) -> Result<Expr, AllocError>
    ensures { IfOk result (λ e. typed.expr_of e ≡ sum_or_product group ty (typed.expr_of first) (map part_of parts.items)) }
{
    match group {
        Some(Group::Product) => product(alloc, ty, first, parts),
        _ => sum(alloc, ty, first, parts),
    }
}

/// An expression that is made of literals alone: each literal of the type, and each operation of what
/// it counts as.
#[cycle(opened)]
pub(crate) fn opened(alloc: Global, ty: Ty, e: &tree::Expr) -> Result<Typed, AllocError>
    ensures { IfOk result (λ t. typed_of t ≡ opened ty (tree.expr_of e.now)) }
{
    match e {
        tree::Expr::Number(literal) => {
            let value = value_of(literal);
            let pos = literal.pos;
            Ok(Typed {
                ty,
                expr: Expr::Number { ty, value, pos },
            })
        }
        tree::Expr::Parentheses { inner, .. } => opened(alloc, ty, inner),
        tree::Expr::Unary { pos, operand, .. } => {
            let inner = opened(alloc, counted(ty), operand)?;
            negated(alloc, counted(ty), *pos, inner.expr)
        }
        tree::Expr::Operations { first, rest } => {
            let ty = counted(ty);
            let parts = opened_parts(alloc, ty, rest)?;
            let head = opened(alloc, ty, first)?;
            let expr = sum_or_product(alloc, first_group(rest), ty, head.expr, parts)?;
            Ok(Typed { ty, expr })
        }
        tree::Expr::Character { .. }
        | tree::Expr::Truth { .. }
        | tree::Expr::Name(_)
        | tree::Expr::Call { .. }
        | tree::Expr::Cast { .. }
        | tree::Expr::Leading { .. } => {
            // No other is made of literals.
            let pos = beginning_of(e);
            Ok(Typed {
                ty,
                expr: Expr::Number { ty, value: 0, pos },
            })
        }
    }
}

/// The operations of a run that is made of literals alone.
#[cycle(opened)]
fn opened_parts(alloc: Global, ty: Ty, rest: &[Operation]) -> Result<Vec<Part>, AllocError>
    ensures { IfOk result (λ v. map part_of v.items ≡ opened_parts ty (tree.members_of (map tree.operation_of rest.now))) }
{
    let mut parts = Vec::new(alloc);
    for operation in rest {
        let typed = opened(alloc, ty, &operation.operand)?;
        parts.push(Part {
            operator: operation.operator,
            pos: operation.pos,
            operand: typed.expr,
        })?;
    }
    Ok(parts)
}
