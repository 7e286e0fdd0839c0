//! Calls that are whole right sides or statements.

ghost use Rattle.std.specs.Prelude.{◌≡◌, map, option_map, Some};
ghost use Rattle.df_lang.specs.ExprView as typed;
ghost use Rattle.df_lang.specs.StmtView.{call_of};
ghost use Rattle.df_ntree.specs.Expr as tree;
ghost use Rattle.df_ntyping.specs.Meaning.{called_signature, as_method, meaning_of};
ghost use Rattle.df_ntyping.specs.LocalTypes.{results_of_call};
ghost use Rattle.df_ntyping.specs.ExprNodes.{places_of};
ghost use Rattle.df_nenv.specs.Environments.{callee_from};
ghost use Rattle.df_ntexpr.specs.Parts.{typed_of};
ghost use Rattle.df_ntexpr.specs.Replies.{Replies};
ghost use Rattle.df_ntstmt.specs.mirror.Steps.{typed_in, wanted_at};
ghost use Rattle.df_ntstmt.specs.mirror.Sides as sides;
ghost use Rattle.df_ntstmt.specs.mirror.Sides.{arguments_in, call_in, called_with};

use crate::broken::{Rule, broken};
use df_base::{Global, Pos, Stop};
use df_lang as lang;
use df_lang::{Call, DeclId, Ty};
use df_nenv::{Environment, called};
use df_nnames::Method;
use df_nrules::beginning_of;
use df_ntexpr::{Typed, Wanted, argument_count, place_at, walked};
use df_ntree::{Expr, Ident};

/// An expression at a place, if the type of that is known.
pub(crate) fn at_place(
    alloc: Global,
    env: &Environment<'_>,
    place: Option<Ty>,
    e: &Expr,
) -> Result<Typed, Stop>
    ensures { Replies typed_of result (typed_in env.now (wanted_at place) (tree.expr_of e.now)) }
{
    match place {
        Some(place) => walked(alloc, env, Wanted::Place(place), e),
        None => walked(alloc, env, Wanted::Nothing, e),
    }
}

/// The arguments of a call, each at its place.
fn arguments(
    alloc: Global,
    env: &Environment<'_>,
    places: &[Ty],
    all: &[Expr],
) -> Result<Vec<lang::Expr>, Stop>
    ensures { Replies (λ v. map typed.expr_of v.items) result (arguments_in env.now (map Some places.now) (tree.arguments_of (map tree.expr_of all.now))) }
{
    let mut arguments = Vec::new(alloc);
    for (i, e) in all.iter().enumerate() {
        let place = place_at(places, i);
        let one = at_place(alloc, env, place, e)?;
        arguments.push(one.expr)?;
    }
    Ok(arguments)
}

/// The types of the places that arguments go to.
fn parameters_of<'m>(method: Option<&'m Method>) -> &'m [Ty]
    ensures { map Some result.now ≡ places_of (option_map (λ m. (callee_from m.now).1) method.entry) }
{
    match method {
        Some(method) => method.signature.parameters.as_slice(),
        None => &[],
    }
}

/// What a call with so many arguments breaks as a whole: its results go to their places, then it has
/// an argument for each parameter, then it is one of a method.
fn called_with(
    goes: bool,
    method: Option<&Method>,
    pos: Pos,
    arguments: usize,
) -> Result<DeclId, Stop>
    ensures { Replies (λ id. id) result (called_with goes (option_map (λ m. callee_from m.now) method.entry) pos arguments) }
{
    if !goes {
        return Err(broken(Rule::Given, pos));
    }
    let Some(method) = method else {
        return Err(broken(Rule::Calls, pos));
    };
    if method.signature.parameters.len() == arguments {
        Ok(method.id)
    } else {
        Err(broken(Rule::ArgumentCount, pos))
    }
}

/// A call of what the name means.
fn named_call(
    alloc: Global,
    env: &Environment<'_>,
    goes: bool,
    ident: &Ident,
    all: &[Expr],
) -> Result<Call, Stop>
    ensures { Replies call_of result (call_in env.now goes (tree.Name ident.now) (tree.arguments_of (map tree.expr_of all.now))) }
{
    let method = env.method(ident.name);
    let arguments = arguments(alloc, env, parameters_of(method), all)?;
    let callee = called_with(goes, method, ident.pos, argument_count(all))?;
    Ok(Call {
        callee,
        name: ident.name,
        pos: ident.pos,
        arguments,
    })
}

/// A call of what is no name, and so of no method: what its parts break, else that.
fn unnamed_call(
    alloc: Global,
    env: &Environment<'_>,
    callee: &Expr,
    all: &[Expr],
) -> Result<Call, Stop>
    ensures { Replies call_of result (sides.unnamed_call_in env.now (tree.expr_of callee.now) (tree.arguments_of (map tree.expr_of all.now))) }
{
    drop(walked(alloc, env, Wanted::Nothing, callee)?);
    arguments(alloc, env, &[], all)?;
    Err(broken(Rule::Calls, beginning_of(callee)))
}

/// A call, whose results go to their places or not.
pub(crate) fn call(
    alloc: Global,
    env: &Environment<'_>,
    goes: bool,
    callee: &Expr,
    all: &[Expr],
) -> Result<Call, Stop>
    ensures { Replies call_of result (call_in env.now goes (tree.expr_of callee.now) (tree.arguments_of (map tree.expr_of all.now))) }
{
    match callee {
        Expr::Name(ident) => named_call(alloc, env, goes, ident, all),
        Expr::Number(_)
        | Expr::Character { .. }
        | Expr::Truth { .. }
        | Expr::Parentheses { .. }
        | Expr::Call { .. }
        | Expr::Unary { .. }
        | Expr::Cast { .. }
        | Expr::Operations { .. }
        | Expr::Leading { .. } => unnamed_call(alloc, env, callee, all),
    }
}
