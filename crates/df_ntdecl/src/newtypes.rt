//! Newtypes: their ends and their default.

ghost use Rattle.std.specs.Prelude.{◌≡◌, ◌<◌, map, length, option_map, string_bytes, IfOk, IfSome};
ghost use Rattle.df_lang.specs.Interval.{IsWithin};
ghost use Rattle.df_lang.specs.DeclView as view;
ghost use Rattle.df_ntree.specs.Expr.{expr_of, operation_of, members_of};
ghost use Rattle.df_ntree.specs.File as source;
ghost use Rattle.df_ntexpr.specs.Replies.{Replies};
ghost use Rattle.df_ntdecl.specs.mirror.Bounds as bounding;
ghost use Rattle.df_ntdecl.specs.mirror.Declarations.{no_range, declared_in, newtype_in};
ghost use Rattle.df_base.specs.declared.refusal.Stop.TheVariants as stops;

use df_base::{Code, Detail, Global, Memory, Name, Names, Refusal, Stop};
use df_lang::{Declared, Interval, Newtype};
use df_ntree::{BinaryOperator, Expr, Ident, Literal, NewtypeDeclaration, Operation};

/// The value of a literal within the limit.
fn literal_value(literal: &Literal) -> Option<i128>
    ensures { result ≡ bounding.literal_value literal.now }
{
    match i128::try_from(literal.magnitude) {
        Ok(magnitude) if literal.negative => Some(-magnitude),
        Ok(magnitude) => Some(magnitude),
        Err(_) => None,
    }
}

/// The value of an expression that is a literal.
fn number(e: &Expr) -> Option<i128>
    ensures { result ≡ bounding.number_of (expr_of e.now) }
{
    match e {
        Expr::Number(literal) => literal_value(literal),
        _ => None,
    }
}

/// Whether the expression is this name.
fn is_name(e: &Expr, name: Name) -> bool
    ensures { result ≡ bounding.is_name name (expr_of e.now) }
{
    match e {
        Expr::Name(ident) => ident.name == name,
        _ => false,
    }
}

/// The least number above the low end, where 128 bits hold it.
fn low_end(operator: BinaryOperator, end: i128) -> Option<i128>
    ensures { result ≡ bounding.low_end operator end }
{
    match operator {
        BinaryOperator::Less => end.checked_add(1),
        BinaryOperator::AtMost => Some(end),
        _ => None,
    }
}

/// The greatest number below the high end, where 128 bits hold it.
fn high_end(operator: BinaryOperator, end: i128) -> Option<i128>
    ensures { result ≡ bounding.high_end operator end }
{
    match operator {
        BinaryOperator::Less => end.checked_sub(1),
        BinaryOperator::AtMost => Some(end),
        _ => None,
    }
}

/// The ends of `low < variable < high`, where 128 bits hold them.
#[tactic(auto, unfolding(crate::specs::mirror::Bounds::ends_in))]
fn ends_in(variable: Name, first: &Expr, low: &Operation, high: &Operation) -> Option<(i128, i128)>
    ensures { result ≡ bounding.ends_in variable (expr_of first.now) (operation_of low.now) (operation_of high.now) }
{
    if !is_name(&low.operand, variable) {
        return None;
    }
    let first = number(first)?;
    let low = low_end(low.operator, first)?;
    let last = number(&high.operand)?;
    let high = high_end(high.operator, last)?;
    Some((low, high))
}

/// The ends of a predicate of that form.
fn ends(variable: Name, predicate: &Expr) -> Option<(i128, i128)>
    ensures { result ≡ bounding.ends_of variable (expr_of predicate.now) }
{
    match predicate {
        Expr::Operations { first, rest } => ends_of_run(variable, first, rest),
        _ => None,
    }
}

fn ends_of_run(variable: Name, first: &Expr, rest: &[Operation]) -> Option<(i128, i128)>
    ensures { result ≡ bounding.ends_of_run variable (expr_of first.now) (members_of (map operation_of rest.now)) }
{
    match rest {
        [low, high] => ends_in(variable, first, low, high),
        [] | [_] | [_, _, _, ..] => None,
    }
}

/// The default: the witness, or 0.
fn default(witness: &Option<Expr>) -> Option<i128>
    ensures { result ≡ bounding.default_of (option_map expr_of witness.now) }
{
    match witness {
        None => Some(0),
        Some(e) => number(e),
    }
}

/// The interval of these ends and the default, where it lies inside.
fn bounded(low: i128, high: i128, default: i128) -> Option<(Interval, i128)>
    ensures bounds { option_map bounding.bounds_from result ≡ bounding.inside (low, high) default }
    ensures within { IfSome result (λ b. IsWithin b.0.low b.0.high b.1) }
{
    let interval = Interval::new(low, high)?;
    if interval.holds(default) {
        Some((interval, default))
    } else {
        None
    }
}

/// The interval and the default of a newtype.
#[tactic(auto, unfolding(crate::specs::mirror::Bounds::bounds_in))]
fn bounds(tree: &NewtypeDeclaration) -> Option<(Interval, i128)>
    ensures bounds { option_map bounding.bounds_from result ≡ bounding.bounds_in (source.newtype_of tree.now) }
    ensures within { IfSome result (λ b. IsWithin b.0.low b.0.high b.1) }
{
    let (low, high) = ends(tree.variable.name, &tree.predicate)?;
    let default = default(&tree.witness)?;
    bounded(low, high, default)
}

/// The newtype has no range that holds its default.
fn no_range(ident: &Ident) -> Stop
    ensures { result ≡ stops.Refused (no_range ident.now) }
{
    Stop::Refused(Refusal {
        code: Code::Range,
        pos: ident.pos,
        detail: Detail::Nothing,
    })
}

/// A declared name with its text.
pub(crate) fn declared(alloc: Global, names: &Names, ident: Ident) -> Result<Declared, Memory>
    requires { ident.name < length names.now }
    ensures { IfOk result (λ d. view.declared_of d ≡ declared_in names.now ident) }
{
    let text = String::from_str(alloc, names.text(ident.name))?;
    Ok(Declared {
        name: ident.name,
        text,
        pos: ident.pos,
    })
}

/// The newtype of the program.
pub(crate) fn newtype(
    alloc: Global,
    names: &Names,
    tree: &NewtypeDeclaration,
) -> Result<Newtype, Stop>
    requires { tree.now.name.name < length names.now }
    ensures { Replies view.newtype_of result (newtype_in names.now (source.newtype_of tree.now)) }
{
    match bounds(tree) {
        None => Err(no_range(&tree.name)),
        Some((interval, default)) => Ok(Newtype {
            declared: declared(alloc, names, tree.name)?,
            interval,
            default,
        }),
    }
}
