//! Right sides.

ghost use Rattle.std.specs.Prelude.{◌≡◌, ◌∷◌, [], map, drop, option_map, Some, IfOk};
ghost use Rattle.std.specs.List.{list_all};
ghost use Rattle.df_lang.specs.StmtView.{conversion_of, source_of, update_of};
ghost use Rattle.df_ntree.specs.Expr as tree;
ghost use Rattle.df_ntyping.specs.ExprNodes as nodes;
ghost use Rattle.df_ntyping.specs.LocalTypes as local_types;
ghost use Rattle.df_ntyping.specs.rules.Values.{are_given};
ghost use Rattle.df_ntexpr.specs.Replies.{Replies};
ghost use Rattle.df_ntstmt.specs.Rules.{typing_rule};
ghost use Rattle.df_ntstmt.specs.mirror.Steps.{or_int};
ghost use Rattle.df_ntstmt.specs.mirror.Sides as sides;
ghost use Rattle.df_ntstmt.specs.mirror.Sides.{conversions, source_in, apart_in, sources_in, update_in, may_update_in};

use crate::broken::{Rule, unless};
use crate::calls::{at_place, call};
use crate::places::{Place, or_int, targets, types_of};
use df_base::{Global, Pos, Stop};
use df_lang::{Conversion, Source, Ty, Update};
use df_nenv::{Environment, called, results_of};
use df_nrules::fits_or_narrows;
use df_ntree::Expr;
use std::alloc::AllocError;

/// Whether the result goes to the place, if that has a type that is known.
fn is_given(place: Option<Ty>, given: Ty) -> bool
    ensures { result ≡ sides.is_given place (Some given) }
{
    match place {
        Some(place) => fits_or_narrows(given, place),
        None => true,
    }
}

/// Whether results go to their places, one after another.
fn are_given(places: &[Option<Ty>], results: &[Ty]) -> bool
    ensures { result ≡ are_given places.now (map Some results.now) }
{
    for (i, ty) in results.iter().enumerate() {
        let Some(place) = places.get(i) else {
            return true;
        };
        if !is_given(*place, *ty) {
            return false;
        }
    }
    true
}

/// How a result goes to its place.
fn conversion(source: Ty, place: Option<Ty>) -> Conversion
    ensures { conversion_of result ≡ record { source = source; target = or_int place } }
{
    Conversion {
        source,
        target: or_int(place),
    }
}

/// How results go to their places, one after another.
fn conversions(
    alloc: Global,
    places: &[Option<Ty>],
    results: &[Ty],
) -> Result<Vec<Conversion>, AllocError>
    ensures { IfOk result (λ v. map conversion_of v.items ≡ conversions places.now (map Some results.now)) }
{
    let mut all = Vec::new(alloc);
    for (i, source) in results.iter().enumerate() {
        let Some(place) = places.get(i) else {
            return Ok(all);
        };
        all.push(conversion(*source, *place))?;
    }
    Ok(all)
}

/// The type of the first place, if there is one and its type is known.
fn first_place(places: &[Option<Ty>]) -> Option<Ty>
    ensures { result ≡ nodes.first_place places.now }
{
    match places {
        [first, ..] => *first,
        [] => None,
    }
}

/// A call as a right side.
fn call_source(
    alloc: Global,
    env: &Environment<'_>,
    places: &[Option<Ty>],
    callee: &Expr,
    arguments: &[Expr],
) -> Result<Source, Stop>
    ensures { Replies source_of result (source_in env.now places.now (tree.Call (tree.expr_of callee.now) (tree.arguments_of (map tree.expr_of arguments.now)))) }
{
    let given = results_of(env, callee);
    let call = call(alloc, env, are_given(places, given), callee, arguments)?;
    let results = conversions(alloc, places, given)?;
    Ok(Source::Call { call, results })
}

/// A right side that is no call.
fn value_source(
    alloc: Global,
    env: &Environment<'_>,
    places: &[Option<Ty>],
    e: &Expr,
) -> Result<Source, Stop>
    ensures { Replies source_of result (sides.value_source_in env.now places.now (tree.expr_of e.now)) }
{
    let typed = at_place(alloc, env, first_place(places), e)?;
    Ok(Source::Value {
        ty: typed.ty,
        value: typed.expr,
    })
}

/// A right side, whose values go to places of these types.
fn source(
    alloc: Global,
    env: &Environment<'_>,
    places: &[Option<Ty>],
    e: &Expr,
) -> Result<Source, Stop>
    ensures { Replies source_of result (source_in env.now places.now (tree.expr_of e.now)) }
{
    match e {
        Expr::Call { callee, arguments } => call_source(alloc, env, places, callee, arguments),
        Expr::Number(_)
        | Expr::Character { .. }
        | Expr::Truth { .. }
        | Expr::Name(_)
        | Expr::Parentheses { .. }
        | Expr::Unary { .. }
        | Expr::Cast { .. }
        | Expr::Operations { .. }
        | Expr::Leading { .. } => value_source(alloc, env, places, e),
    }
}

/// A right side beside others, which goes to the place of its number.
fn single(alloc: Global, env: &Environment<'_>, place: Option<Ty>, e: &Expr) -> Result<Source, Stop>
    ensures { Replies source_of result (source_in env.now (place ∷ []) (tree.expr_of e.now)) }
{
    source(alloc, env, &[place], e)
}

/// The type of the place of this number, if there is one and its type is known.
fn place_at(places: &[Option<Ty>], i: usize) -> Option<Ty>
    ensures { result ≡ nodes.first_place (drop i places.now) }
{
    match places.get(i) {
        Some(place) => *place,
        None => None,
    }
}

/// Right sides that each go to their own place.
fn apart(
    alloc: Global,
    env: &Environment<'_>,
    places: &[Option<Ty>],
    values: &[Expr],
) -> Result<Vec<Source>, Stop>
    ensures { Replies (λ v. map source_of v.items) result (apart_in env.now places.now (map tree.expr_of values.now)) }
{
    let mut sources = Vec::new(alloc);
    for (i, e) in values.iter().enumerate() {
        let one = single(alloc, env, place_at(places, i), e)?;
        sources.push(one)?;
    }
    Ok(sources)
}

/// The right side that gives all values.
fn alone(
    alloc: Global,
    env: &Environment<'_>,
    places: &[Option<Ty>],
    e: &Expr,
) -> Result<Vec<Source>, Stop>
    ensures { Replies (λ v. map source_of v.items) result (sources_in env.now places.now (tree.expr_of e.now ∷ [])) }
{
    let mut sources = Vec::new(alloc);
    let one = source(alloc, env, places, e)?;
    sources.push(one)?;
    Ok(sources)
}

/// Right sides: one gives all values, of several each gives one.
fn sources(
    alloc: Global,
    env: &Environment<'_>,
    places: &[Option<Ty>],
    values: &[Expr],
) -> Result<Vec<Source>, Stop>
    ensures { Replies (λ v. map source_of v.items) result (sources_in env.now places.now (map tree.expr_of values.now)) }
{
    match values {
        [] => Ok(Vec::new(alloc)),
        [e] => alone(alloc, env, places, e),
        [_, _, ..] => apart(alloc, env, places, values),
    }
}

/// How many values a right side gives, if that is known.
fn values_of(env: &Environment<'_>, e: &Expr) -> Option<usize>
    ensures { result ≡ local_types.values_of env.now (tree.expr_of e.now) }
{
    match e {
        Expr::Call { callee, .. } => match called(env, callee) {
            Some(signature) => Some(signature.results.len()),
            None => None,
        },
        Expr::Number(_)
        | Expr::Character { .. }
        | Expr::Truth { .. }
        | Expr::Name(_)
        | Expr::Parentheses { .. }
        | Expr::Unary { .. }
        | Expr::Cast { .. }
        | Expr::Operations { .. }
        | Expr::Leading { .. } => Some(1),
    }
}

/// Whether a right side gives so many values. What is not known is not wrong.
fn gives(env: &Environment<'_>, wanted: usize, e: &Expr) -> bool
    ensures { result ≡ local_types.is_count wanted (local_types.values_of env.now (tree.expr_of e.now)) }
{
    match values_of(env, e) {
        Some(given) => given == wanted,
        None => true,
    }
}

/// Whether each right side gives one value.
fn give_one(env: &Environment<'_>, values: &[Expr]) -> bool
    ensures { result ≡ list_all (λ value. local_types.is_count 1 (local_types.values_of env.now value)) (map tree.expr_of values.now) }
{
    for e in values {
        if !gives(env, 1, e) {
            return false;
        }
    }
    true
}

/// Whether there are as many values as places.
fn are_enough(env: &Environment<'_>, places: usize, values: &[Expr]) -> bool
    ensures { result ≡ local_types.are_enough env.now places (map tree.expr_of values.now) }
{
    match values {
        [e] => gives(env, places, e),
        [] | [_, _, ..] => values.len() == places && give_one(env, values),
    }
}

/// Values go to places. Where their numbers differ, the rule is broken.
pub(crate) fn update(
    alloc: Global,
    env: &Environment<'_>,
    rule: Rule,
    pos: Pos,
    places: &[Place],
    values: &[Expr],
) -> Result<Update, Stop>
    ensures { Replies update_of result (update_in env.now (typing_rule rule) pos places.now (map tree.expr_of values.now)) }
{
    let types = types_of(alloc, places)?;
    let sources = sources(alloc, env, &types, values)?;
    unless(are_enough(env, places.len(), values), rule, pos)?;
    let targets = targets(alloc, places)?;
    Ok(Update { targets, sources })
}

/// The same where there may be no values.
pub(crate) fn may_update(
    alloc: Global,
    env: &Environment<'_>,
    rule: Rule,
    pos: Pos,
    places: &[Place],
    values: &[Expr],
) -> Result<Option<Update>, Stop>
    ensures { Replies (λ o. option_map update_of o) result (may_update_in env.now (typing_rule rule) pos places.now (map tree.expr_of values.now)) }
{
    if values.is_empty() {
        return Ok(None);
    }
    let update = update(alloc, env, rule, pos, places, values)?;
    Ok(Some(update))
}
