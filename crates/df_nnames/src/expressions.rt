//! Names in expressions and types.

ghost use Rattle.std.specs.Prelude.{◌≡◌, map, Some, IfOk};
ghost use Rattle.std.specs.List.{flat_map};
ghost use Rattle.df_base.specs.declared.refusal.Stop.TheVariants as stops;
ghost use Rattle.df_ntree.specs.Expr.{expr_of, operation_of, members_of, arguments_of};
ghost use Rattle.df_nnames.specs.Listing.{type_meant};
ghost use Rattle.df_nnames.specs.Faults as faults;
ghost use Rattle.df_nnames.specs.Faults.{name_faults, type_faults, expr_faults, exprs_faults, member_faults, argument_faults};
ghost use Rattle.df_nnames.specs.Meanings.{meanings_of};
ghost use Rattle.df_nnames.specs.Telling.{Tells};

use crate::globals::Globals;
use crate::scope::Scope;
use crate::tables::basic_type;
use df_base::{Code, Detail, Refusal, Stop};
use df_lang::Ty;
use df_ntree::{Expr, Ident, Operation, TreeType};

/// A name has no meaning there.
fn unknown(ident: &Ident) -> Stop
    ensures { result ≡ stops.Refused (faults.unknown ident.now) }
{
    Stop::Refused(Refusal {
        code: Code::Unknown,
        pos: ident.pos,
        detail: Detail::Word(ident.name),
    })
}

/// A name is declared twice in one scope.
pub(crate) fn twice(ident: &Ident) -> Stop
    ensures { result ≡ stops.Refused (faults.twice ident.now) }
{
    Stop::Refused(Refusal {
        code: Code::Twice,
        pos: ident.pos,
        detail: Detail::Word(ident.name),
    })
}

/// Looks up a name that means a local or a method.
fn name(globals: &Globals, scope: &Scope, ident: &Ident) -> Result<(), Stop>
    ensures { Tells result (name_faults (meanings_of globals.now) scope.now ident.now) }
{
    if scope.has(ident.name) || globals.is_method(ident.name) {
        Ok(())
    } else {
        Err(unknown(ident))
    }
}

/// The type that is written so.
pub(crate) fn ty(globals: &Globals, ty: &TreeType) -> Result<Ty, Stop>
    ensures faults { Tells result (type_faults (meanings_of globals.now) ty.now) }
    ensures ty { IfOk result (λ meant. type_meant (meanings_of globals.now) ty.now ≡ Some meant) }
{
    match ty {
        TreeType::Basic { basic, .. } => Ok(basic_type(*basic)),
        TreeType::Named(ident) => match globals.newtype(ident.name) {
            Some(id) => Ok(Ty::Newtype(id)),
            None => Err(unknown(ident)),
        },
    }
}

/// Looks up the names of a row of types.
fn types(globals: &Globals, all: &[TreeType]) -> Result<(), Stop>
    ensures { Tells result (flat_map (type_faults (meanings_of globals.now)) all.now) }
{
    for each in all {
        ty(globals, each)?;
    }
    Ok(())
}

/// Looks up the names of an expression.
#[cycle(expr)]
pub(crate) fn expr(globals: &Globals, scope: &Scope, e: &Expr) -> Result<(), Stop>
    ensures { Tells result (expr_faults (meanings_of globals.now) scope.now (expr_of e.now)) }
{
    match e {
        Expr::Number(_) => Ok(()),
        Expr::Character { .. } => Ok(()),
        Expr::Truth { .. } => Ok(()),
        Expr::Name(ident) => name(globals, scope, ident),
        Expr::Parentheses { inner, .. } => expr(globals, scope, inner),
        Expr::Call {
            callee,
            arguments: all,
        } => {
            expr(globals, scope, callee)?;
            arguments(globals, scope, all)
        }
        Expr::Unary { operand, .. } => expr(globals, scope, operand),
        Expr::Cast {
            operand,
            types: all,
        } => {
            expr(globals, scope, operand)?;
            types(globals, all)
        }
        Expr::Operations { first, rest } => {
            expr(globals, scope, first)?;
            operations(globals, scope, rest)
        }
        Expr::Leading { operations: all } => operations(globals, scope, all),
    }
}

/// Looks up the names of operands.
#[cycle(expr)]
fn operations(globals: &Globals, scope: &Scope, all: &Vec<Operation>) -> Result<(), Stop>
    ensures { Tells result (member_faults (meanings_of globals.now) scope.now (members_of (map operation_of all.now.items))) }
{
    for operation in all {
        expr(globals, scope, &operation.operand)?;
    }
    Ok(())
}

/// Looks up the names of arguments.
#[cycle(expr)]
fn arguments(globals: &Globals, scope: &Scope, all: &Vec<Expr>) -> Result<(), Stop>
    ensures { Tells result (argument_faults (meanings_of globals.now) scope.now (arguments_of (map expr_of all.now.items))) }
{
    for argument in all {
        expr(globals, scope, argument)?;
    }
    Ok(())
}

/// Looks up the names of expressions.
pub(crate) fn exprs(globals: &Globals, scope: &Scope, all: &[Expr]) -> Result<(), Stop>
    ensures { Tells result (exprs_faults (meanings_of globals.now) scope.now (map expr_of all.now)) }
{
    for each in all {
        expr(globals, scope, each)?;
    }
    Ok(())
}
