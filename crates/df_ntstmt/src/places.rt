//! Left sides, and other places that take values.

ghost use Rattle.std.specs.Prelude.{◌≡◌, ◌+◌, map, IfOk};
ghost use Rattle.df_lang.specs.StmtView.{target_of, variable_of};
ghost use Rattle.df_ntree.specs.Expr as tree;
ghost use Rattle.df_nenv.specs.Environments.{local_of};
ghost use Rattle.df_ntexpr.specs.Replies.{Replies};
ghost use Rattle.df_ntstmt.specs.mirror.Steps as steps;
ghost use Rattle.df_ntstmt.specs.mirror.Sides as sides;
ghost use Rattle.df_ntstmt.specs.mirror.Sides.{place_in, places_in, types_of_places, target_from, variable_from, variables_in, returned_places, variable_place, is_settled};

use crate::broken::{Rule, broken, uninferred};
use df_base::{Global, Name, Pos, Stop};
use df_lang::{Target, Ty, Variable};
use df_nenv::{Environment, Role};
use df_nrules::beginning_of;
use df_ntexpr::{Wanted, walked};
use df_ntree::{Expr, Ident, Local, TreeType};
use std::alloc::AllocError;

/// A local that takes a value, with its type, if that is known.
#[derive(Clone, Copy, PartialEq, Eq)]
pub(crate) struct Place {
    pub(crate) local: usize,
    pub(crate) name: Name,
    pub(crate) pos: Pos,
    pub(crate) ty: Option<Ty>,
}

/// A type that is known where a place has one.
pub fn or_int(ty: Option<Ty>) -> Ty
    ensures { result ≡ steps.or_int ty }
{
    match ty {
        Some(ty) => ty,
        None => Ty::Int,
    }
}

/// The types of places.
pub(crate) fn types_of(alloc: Global, places: &[Place]) -> Result<Vec<Option<Ty>>, AllocError>
    ensures { IfOk result (λ v. v.items ≡ types_of_places places.now) }
{
    let mut types = Vec::new(alloc);
    for place in places {
        types.push(place.ty)?;
    }
    Ok(types)
}

/// A place as a target.
fn target(place: Place) -> Target
    ensures { target_of result ≡ target_from place }
{
    Target {
        local: place.local,
        name: place.name,
        pos: place.pos,
        ty: or_int(place.ty),
    }
}

/// Places as targets.
pub(crate) fn targets(alloc: Global, places: &[Place]) -> Result<Vec<Target>, AllocError>
    ensures { IfOk result (λ v. map target_of v.items ≡ map target_from places.now) }
{
    let mut targets = Vec::new(alloc);
    for place in places {
        targets.push(target(*place))?;
    }
    Ok(targets)
}

/// A place as a declared local.
fn variable(place: Place) -> Variable
    ensures { variable_of result ≡ variable_from place }
{
    Variable {
        name: place.name,
        pos: place.pos,
        ty: or_int(place.ty),
        is_ghost: false,
        local: place.local,
    }
}

/// Places as declared locals.
pub(crate) fn variables(alloc: Global, places: &[Place]) -> Result<Vec<Variable>, AllocError>
    ensures { IfOk result (λ v. map variable_of v.items ≡ map variable_from places.now) }
{
    let mut variables = Vec::new(alloc);
    for place in places {
        variables.push(variable(*place))?;
    }
    Ok(variables)
}

/// A name on the left: that of a local which is no parameter.
fn named(env: &Environment<'_>, ident: &Ident) -> Result<Place, Stop>
    ensures { Replies (λ place. place) result (place_in env.now (tree.Name ident.now)) }
{
    let Some(local) = env.last_local(ident.name) else {
        return Err(broken(Rule::Assigned, ident.pos));
    };
    match local.role {
        Role::Parameter => Err(broken(Rule::Assigned, ident.pos)),
        Role::Result | Role::Variable => Ok(Place {
            local: local.number,
            name: ident.name,
            pos: ident.pos,
            ty: env.local_type(local.number),
        }),
    }
}

/// A left side that is no name: what it breaks itself, else that.
fn unnamed(alloc: Global, env: &Environment<'_>, e: &Expr) -> Result<Place, Stop>
    ensures { Replies (λ place. place) result (sides.unnamed_place_in env.now (tree.expr_of e.now)) }
{
    drop(walked(alloc, env, Wanted::Nothing, e)?);
    Err(broken(Rule::Assigned, beginning_of(e)))
}

/// A left side.
fn left_side(alloc: Global, env: &Environment<'_>, e: &Expr) -> Result<Place, Stop>
    ensures { Replies (λ place. place) result (place_in env.now (tree.expr_of e.now)) }
{
    match e {
        Expr::Name(ident) => named(env, ident),
        Expr::Number(_)
        | Expr::Character { .. }
        | Expr::Truth { .. }
        | Expr::Parentheses { .. }
        | Expr::Call { .. }
        | Expr::Unary { .. }
        | Expr::Cast { .. }
        | Expr::Operations { .. }
        | Expr::Leading { .. } => unnamed(alloc, env, e),
    }
}

/// Left sides.
pub(crate) fn assigned(
    alloc: Global,
    env: &Environment<'_>,
    targets: &[Expr],
) -> Result<Vec<Place>, Stop>
    ensures { Replies (λ v. v.items) result (places_in env.now (map tree.expr_of targets.now)) }
{
    let mut places = Vec::new(alloc);
    for e in targets {
        let one = left_side(alloc, env, e)?;
        places.push(one)?;
    }
    Ok(places)
}

/// The results, as what a `return` at the position gives.
pub(crate) fn returned(
    alloc: Global,
    env: &Environment<'_>,
    pos: Pos,
) -> Result<Vec<Place>, AllocError>
    ensures { IfOk result (λ v. v.items ≡ returned_places env.now pos env.now.results) }
{
    let mut places = Vec::new(alloc);
    for result in env.results() {
        places.push(Place {
            local: result.number,
            name: result.name,
            pos,
            ty: env.local_type(result.number),
        })?;
    }
    Ok(places)
}

/// Whether a type, a value or an assignment fixes the type of a local.
fn is_settled(ty: Option<TreeType>, values: &[Expr], unfixed: bool) -> bool
    ensures { result ≡ is_settled ty (map tree.expr_of values.now) unfixed }
{
    ty.is_some() || !values.is_empty() || !unfixed
}

/// Declared locals, of which this is the first number.
pub(crate) fn declared(
    alloc: Global,
    env: &Environment<'_>,
    values: &[Expr],
    locals: &[Local],
) -> Result<Vec<Place>, Stop>
    ensures { Replies (λ v. v.items) result (variables_in env.now env.now.next (map tree.expr_of values.now) locals.now) }
{
    let mut places = Vec::new(alloc);
    let first = env.next_number();
    for (i, local) in locals.iter().enumerate() {
        let number = first + i;
        if !is_settled(local.ty, values, env.is_unfixed(number)) {
            return Err(uninferred(&local.name));
        }
        places.push(Place {
            local: number,
            name: local.name.name,
            pos: local.name.pos,
            ty: env.local_type(number),
        })?;
    }
    Ok(places)
}
