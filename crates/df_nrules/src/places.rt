//! Where expressions stand.

ghost use Rattle.std.specs.Prelude.{◌≡◌, map};
ghost use Rattle.df_ntree.specs.Expr.{expr_of, operation_of, members_of};
ghost use Rattle.df_ntree.specs.ExprSpelling.{first_group};
ghost use Rattle.df_ntyping.specs.Places as places;
ghost use Rattle.df_ntyping.specs.Places.{first_sign, last_sign, pos_of_run};
ghost use Rattle.df_ntyping.specs.mirror.Parts.{or_start};

use df_base::Pos;
use df_ntree::{Expr, Group, Operation};

/// The group of the first sign.
pub fn first_group(rest: &[Operation]) -> Option<Group>
    ensures { result ≡ first_group (members_of (map operation_of rest.now)) }
{
    match rest {
        [] => None,
        [operation, ..] => Some(operation.operator.group()),
    }
}

/// Where the first sign stands.
fn first_sign(rest: &[Operation]) -> Option<Pos>
    ensures { result ≡ first_sign (members_of (map operation_of rest.now)) }
{
    match rest {
        [] => None,
        [operation, ..] => Some(operation.pos),
    }
}

/// Where the last sign stands.
fn last_sign(rest: &[Operation]) -> Option<Pos>
    ensures { result ≡ places.last_sign None (members_of (map operation_of rest.now)) }
{
    let mut last = None;
    for operation in rest {
        last = Some(operation.pos);
    }
    last
}

/// The first token of an expression.
fn first_token(e: &Expr) -> Option<Pos>
    ensures { result ≡ places.beginning_of (expr_of e.now) }
{
    match e {
        Expr::Number(literal) => Some(literal.pos),
        Expr::Character { pos, .. }
        | Expr::Truth { pos, .. }
        | Expr::Parentheses { pos, .. }
        | Expr::Unary { pos, .. } => Some(*pos),
        Expr::Name(ident) => Some(ident.pos),
        Expr::Call { callee, .. } => first_token(callee),
        Expr::Cast { operand, .. } => first_token(operand),
        Expr::Operations { first, .. } => first_token(first),
        Expr::Leading { operations } => first_sign(operations),
    }
}

/// Where a run of the group stands.
fn place_of_run(group: Option<Group>, rest: &[Operation]) -> Option<Pos>
    ensures { result ≡ pos_of_run group (members_of (map operation_of rest.now)) }
{
    match group {
        Some(Group::Implication | Group::Comparison) => first_sign(rest),
        _ => last_sign(rest),
    }
}

fn place_of(e: &Expr) -> Option<Pos>
    ensures { result ≡ places.pos_of (expr_of e.now) }
{
    match e {
        Expr::Operations { rest, .. } => place_of_run(first_group(rest), rest),
        Expr::Leading { operations } => last_sign(operations),
        _ => first_token(e),
    }
}

/// Every expression stands somewhere.
fn or_start(pos: Option<Pos>) -> Pos
    ensures { result ≡ or_start pos }
{
    match pos {
        Some(pos) => pos,
        None => Pos { line: 0, col: 0 },
    }
}

/// Where the first sign of a run stands.
pub fn run_begins(rest: &[Operation]) -> Pos
    ensures { result ≡ or_start (places.first_sign (members_of (map operation_of rest.now))) }
{
    or_start(first_sign(rest))
}

/// Where an expression begins.
pub fn beginning_of(e: &Expr) -> Pos
    ensures { result ≡ or_start (places.beginning_of (expr_of e.now)) }
{
    or_start(first_token(e))
}

/// Where an expression stands: at its sign, else at its first token.
pub fn pos_of(e: &Expr) -> Pos
    ensures { result ≡ or_start (places.pos_of (expr_of e.now)) }
{
    or_start(place_of(e))
}
