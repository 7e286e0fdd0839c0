//! What is known of the type of an expression, whatever is broken in it.

ghost use Rattle.std.specs.Prelude.{◌≡◌, map, Some, None};
ghost use Rattle.df_ntree.specs.Expr.{expr_of, operation_of, members_of};
ghost use Rattle.df_ntyping.specs.Types.{arithmetic};
ghost use Rattle.df_ntyping.specs.ExprTypes as shapes;
ghost use Rattle.df_ntyping.specs.ExprTypes.{type_in, type_of_meaning};
ghost use Rattle.df_ntyping.specs.Meaning.{meaning_of, called_signature};
ghost use Rattle.df_ntyping.specs.LocalTypes.{results_of_call};
ghost use Rattle.df_nenv.specs.Outlooks.{outlook_of, negated, joined, joined_all};

use crate::environment::{Environment, called};
use df_base::Name;
use df_lang::Ty;
use df_nrules::{are_one_integer, counted, first_group};
use df_ntree::{Expr, Group, Operation, TreeType, UnaryOperator};

/// What is known of the type of an expression.
#[derive(Clone, Copy, PartialEq, Eq)]
pub enum Outlook {
    /// It is made of literals alone, and takes the type that is expected.
    Open,
    /// It has a type of its own, if that is known.
    Own(Option<Ty>),
}

/// The type of arithmetic on operands of these types.
fn arithmetic(left: Option<Ty>, right: Option<Ty>) -> Option<Ty>
    ensures { result ≡ arithmetic left right }
{
    match (left, right) {
        (Some(left), Some(right)) if are_one_integer(left, right) => Some(counted(left)),
        _ => None,
    }
}

/// A minus before what is known.
fn negated(operand: Outlook) -> Outlook
    ensures { result ≡ negated operand }
{
    match operand {
        Outlook::Open => Outlook::Open,
        Outlook::Own(ty) => Outlook::Own(arithmetic(ty, ty)),
    }
}

/// The operands of arithmetic so far, and one more.
fn joined(so_far: Outlook, operand: Outlook) -> Outlook
    ensures { result ≡ joined so_far operand }
{
    match (so_far, operand) {
        (_, Outlook::Open) => so_far,
        (Outlook::Open, Outlook::Own(ty)) => Outlook::Own(arithmetic(ty, ty)),
        (Outlook::Own(left), Outlook::Own(right)) => Outlook::Own(arithmetic(left, right)),
    }
}

/// Whether operators of the group make arithmetic.
pub fn is_arithmetic(group: Option<Group>) -> bool
    ensures { result ≡ shapes.is_arithmetic group }
{
    match group {
        Some(Group::Sum | Group::Product) => true,
        _ => false,
    }
}

/// The type behind a row of `as`.
pub fn last_type(env: &Environment<'_>, types: &[TreeType]) -> Option<Ty>
    ensures { result ≡ shapes.last_type env.now types.now }
{
    let mut last = None;
    for tree in types {
        last = env.type_of(*tree);
    }
    last
}

/// The type of a call: that of the only result of its method.
pub fn type_of_call(env: &Environment<'_>, callee: &Expr) -> Option<Ty>
    ensures { result ≡ shapes.type_of_call (called_signature env.now (expr_of callee.now)) }
{
    let signature = called(env, callee)?;
    match signature.results.as_slice() {
        [ty] => Some(*ty),
        _ => None,
    }
}

/// The types of the results of a right side that is a call.
pub fn results_of<'e>(env: &'e Environment<'_>, callee: &Expr) -> &'e [Ty]
    ensures { map Some result.now ≡ results_of_call env.now (expr_of callee.now) }
{
    match called(env, callee) {
        Some(signature) => signature.results.as_slice(),
        None => &[],
    }
}

/// The type of the local that the name means.
fn type_of_name(env: &Environment<'_>, name: Name) -> Option<Ty>
    ensures { result ≡ type_of_meaning env.now (meaning_of env.now name) }
{
    match env.local(name) {
        Some((_, ty)) => ty,
        None => None,
    }
}

/// What is known of the type of an expression.
#[cycle(foresee)]
pub fn foresee(env: &Environment<'_>, e: &Expr) -> Outlook
    ensures { result ≡ outlook_of env.now (expr_of e.now) }
{
    match e {
        Expr::Number(_) => Outlook::Open,
        Expr::Character { .. } => Outlook::Own(Some(Ty::Char)),
        Expr::Truth { .. } => Outlook::Own(Some(Ty::Bool)),
        Expr::Name(ident) => Outlook::Own(type_of_name(env, ident.name)),
        Expr::Parentheses { inner, .. } => foresee(env, inner),
        Expr::Call { callee, .. } => Outlook::Own(type_of_call(env, callee)),
        Expr::Unary {
            operator: UnaryOperator::Negate,
            operand,
            ..
        } => negated(foresee(env, operand)),
        Expr::Unary {
            operator: UnaryOperator::Not,
            ..
        } => Outlook::Own(Some(Ty::Bool)),
        Expr::Cast { types, .. } => Outlook::Own(last_type(env, types)),
        Expr::Operations { first, rest } => {
            if is_arithmetic(first_group(rest)) {
                joined_all(env, joined(Outlook::Open, foresee(env, first)), rest)
            } else {
                Outlook::Own(Some(Ty::Bool))
            }
        }
        Expr::Leading { .. } => Outlook::Own(Some(Ty::Bool)),
    }
}

/// What is known of the type of a run of arithmetic, behind its operands so far.
#[cycle(foresee)]
fn joined_all(env: &Environment<'_>, mut so_far: Outlook, rest: &Vec<Operation>) -> Outlook
    ensures { result ≡ joined_all env.now so_far (members_of (map operation_of rest.now.items)) }
{
    for operation in rest {
        so_far = joined(so_far, foresee(env, &operation.operand));
    }
    so_far
}

/// The type of an expression where none is expected, if it is known.
pub fn value_type(env: &Environment<'_>, e: &Expr) -> Option<Ty>
    ensures { result ≡ type_in env.now None (expr_of e.now) }
{
    match foresee(env, e) {
        Outlook::Open => Some(Ty::Int),
        Outlook::Own(ty) => ty,
    }
}
