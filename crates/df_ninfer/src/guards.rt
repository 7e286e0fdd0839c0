//! Guards that have a measure by default.

ghost use Rattle.std.specs.Prelude.{◌≡◌, map, None};
ghost use Rattle.df_ntree.specs.Expr.{expr_of, operation_of, members_of};
ghost use Rattle.df_ntyping.specs.Types as types;
ghost use Rattle.df_ntyping.specs.rules.Loops as loops;
ghost use Rattle.df_ninfer.specs.Guards as guards;
ghost use Rattle.df_ninfer.specs.Guards.{may_be_integer};

use df_nenv::{Environment, Outlook, foresee};
use df_nrules::{first_group, is_integer};
use df_ntree::{BinaryOperator, Expr, Group, Operation};

/// Whether an operand is an integer, if its type is known; one that is made of literals alone is.
fn may_be_integer(env: &Environment<'_>, e: &Expr) -> bool
    ensures { result ≡ may_be_integer env.now (expr_of e.now) }
{
    match foresee(env, e) {
        Outlook::Open | Outlook::Own(None) => true,
        Outlook::Own(Some(ty)) => is_integer(ty),
    }
}

/// Whether the sign compares by order.
fn is_order(operator: BinaryOperator) -> bool
    ensures { result ≡ types.is_order operator }
{
    matches!(
        operator,
        BinaryOperator::Less
            | BinaryOperator::AtMost
            | BinaryOperator::Greater
            | BinaryOperator::AtLeast
    )
}

/// Whether it compares integers by order, from the first operand on.
fn compares(env: &Environment<'_>, first: &Expr, operation: &Operation) -> bool
    ensures { result ≡ guards.compares env.now (expr_of first.now) (operation_of operation.now) }
{
    is_order(operation.operator)
        && may_be_integer(env, first)
        && may_be_integer(env, &operation.operand)
}

/// Whether it is one comparison of integers by order.
fn compares_integers(env: &Environment<'_>, first: &Expr, rest: &[Operation]) -> bool
    ensures { result ≡ loops.compares_integers env.now (expr_of first.now) (members_of (map operation_of rest.now)) }
{
    match rest {
        [operation] => compares(env, first, operation),
        [] | [_, _, ..] => false,
    }
}

/// Whether a guard has a measure by default: it is one comparison of integers by order, or begins with
/// one as a conjunction does.
#[cycle(has_measure)]
pub fn has_measure(env: &Environment<'_>, guard: &Expr) -> bool
    ensures { result ≡ loops.has_measure env.now (expr_of guard.now) }
{
    match guard {
        Expr::Parentheses { inner, .. } => has_measure(env, inner),
        Expr::Operations { first, rest } => match first_group(rest) {
            Some(Group::Comparison) => compares_integers(env, first, rest),
            Some(Group::Conjunction) => has_measure(env, first),
            Some(
                Group::Equivalence
                | Group::Implication
                | Group::Explication
                | Group::Disjunction
                | Group::Sum
                | Group::Product,
            )
            | None => false,
        },
        Expr::Leading { operations } => match first_group(operations) {
            Some(Group::Conjunction) => first_has_measure(env, operations),
            Some(
                Group::Equivalence
                | Group::Implication
                | Group::Explication
                | Group::Disjunction
                | Group::Comparison
                | Group::Sum
                | Group::Product,
            )
            | None => false,
        },
        Expr::Number(_)
        | Expr::Character { .. }
        | Expr::Truth { .. }
        | Expr::Name(_)
        | Expr::Call { .. }
        | Expr::Unary { .. }
        | Expr::Cast { .. } => false,
    }
}

/// The same of the first operand of a row that begins with its sign.
#[cycle(has_measure)]
fn first_has_measure(env: &Environment<'_>, operations: &Vec<Operation>) -> bool
    ensures { result ≡ loops.first_has_measure env.now (members_of (map operation_of operations.now.items)) }
{
    match operations.as_slice() {
        [first, ..] => has_measure(env, &first.operand),
        [] => false,
    }
}
