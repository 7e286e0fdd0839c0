//! The walk over an expression, by recursion along its nesting.

ghost use Rattle.std.specs.Prelude.{◌≡◌, ◌<◌, ◌+◌, length, drop, map, option_map, slice_get, Some, None, IfOk};
ghost use Rattle.df_lang.specs.ExprView as typed;
ghost use Rattle.df_lang.specs.declared.ty.Ty.TheVariants as types;
ghost use Rattle.df_ntree.specs.Expr as tree;
ghost use Rattle.df_ntyping.specs.ExprTypes as shapes;
ghost use Rattle.df_ntyping.specs.ExprNodes.{first_place, places_of, count};
ghost use Rattle.df_ntyping.specs.Meaning.{called_signature};
ghost use Rattle.df_ntyping.specs.Types.{if_type_known};
ghost use Rattle.df_ntyping.specs.rules.Truths as truths;
ghost use Rattle.df_nnames.specs.Table.{signature_of};
ghost use Rattle.df_ntyping.specs.mirror.Parts.{type_of_operand, breach, or_start, inside, void};
ghost use Rattle.df_ntexpr.specs.Parts.{typed_of, operand_of, row_of, typing_rule, breach_of, signed_row, called_with, Gives};
ghost use Rattle.df_ntyping.specs.mirror.Signs.{is_end};
ghost use Rattle.df_ntyping.specs.mirror.Looking as looking;
ghost use Rattle.df_ntyping.specs.mirror.Looking.{local_in, named, negated, denied, finished, cast_to, cast_all, outer_type, goes_to, given_type, given, is_later, asked, callee_inside, call_rule, leading_of, cast_of, look, look_rows, look_arguments};

use crate::broken::{Broken, Halt, Rule, breach};
use crate::literals::opened;
use crate::part::{Row, Typed};
use crate::signs::{
    converted, is_truth_side, left_behind, rule_of, run_of, sign_holds, type_of, whole_run,
};
use df_base::{Global, Pos};
use df_lang as lang;
use df_lang::Ty;
use df_nenv::{Environment, called, is_arithmetic, last_type, type_of_call};
use df_nnames::Signature;
use df_nrules::{
    beginning_of, casts, counted, first_group, fits_or_narrows, is_integer, is_truth, pos_of,
};
use df_ntree::{BinaryOperator, Expr, Group, Ident, Operation, TreeType, UnaryOperator};
use std::alloc::AllocError;

/// A local as an expression.
fn typed_local(number: usize, known: Option<Ty>, ident: &Ident) -> Result<Option<Typed>, Halt>
    ensures { Gives operand_of result (looking.typed_local number known ident.now) }
{
    match known {
        Some(ty) => Ok(Some(Typed {
            ty,
            expr: lang::Expr::Local {
                local: number,
                name: ident.name,
                pos: ident.pos,
            },
        })),
        None => Err(breach(Rule::Calls, ident.pos, true)),
    }
}

/// A name as an expression is that of a local.
fn named(env: &Environment<'_>, ident: &Ident) -> Result<Option<Typed>, Halt>
    ensures { Gives operand_of result (named (local_in env.now ident.now.name) ident.now) }
{
    match env.local(ident.name) {
        Some((number, known)) => typed_local(number, known, ident),
        None => Err(breach(Rule::Calls, ident.pos, true)),
    }
}

/// A minus before an operand.
fn negated(alloc: Global, pos: Pos, e: &Expr, operand: Option<Typed>) -> Result<Option<Typed>, Halt>
    ensures { Gives operand_of result (negated pos (tree.expr_of e.now) (operand_of operand)) }
{
    let Some(typed) = operand else {
        return Ok(None);
    };
    if !is_integer(typed.ty) {
        drop(typed);
        return Err(breach(Rule::Arithmetic, pos, true));
    }
    let ty = counted(typed.ty);
    let inner = converted(alloc, ty, pos_of(e), typed)?;
    let operand = Box::new(alloc, inner)?;
    Ok(Some(Typed {
        ty,
        expr: lang::Expr::Negate { ty, pos, operand },
    }))
}

/// A `!` before an operand.
fn denied(alloc: Global, pos: Pos, operand: Option<Typed>) -> Result<Option<Typed>, Halt>
    ensures { Gives operand_of result (denied pos (operand_of operand)) }
{
    let Some(typed) = operand else {
        return Err(breach(Rule::Truths, pos, true));
    };
    if !is_truth(typed.ty) {
        drop(typed);
        return Err(breach(Rule::Truths, pos, true));
    }
    let operand = Box::new(alloc, typed.expr)?;
    Ok(Some(Typed {
        ty: Ty::Bool,
        expr: lang::Expr::Not { pos, operand },
    }))
}

/// An expression as it was typed; one that is made of literals alone with each literal of the type.
pub(crate) fn finished(
    alloc: Global,
    ty: Ty,
    e: &Expr,
    operand: Option<Typed>,
) -> Result<Typed, AllocError>
    ensures { IfOk result (λ t. typed_of t ≡ finished ty (tree.expr_of e.now) (operand_of operand)) }
{
    match operand {
        Some(typed) => Ok(typed),
        None => opened(alloc, ty, e),
    }
}

/// A value as one of another type.
fn cast_to(
    alloc: Global,
    pos: Pos,
    typed: Typed,
    target: Option<Ty>,
    is_whole: bool,
) -> Result<Typed, Halt>
    ensures { Gives typed_of result (cast_to pos (typed_of typed) target is_whole) }
{
    let Some(target) = target else {
        drop(typed);
        return Err(breach(Rule::Casts, pos, is_whole));
    };
    if !casts(typed.ty, target) {
        drop(typed);
        return Err(breach(Rule::Casts, pos, is_whole));
    }
    let source = typed.ty;
    let operand = Box::new(alloc, typed.expr)?;
    Ok(Typed {
        ty: target,
        expr: lang::Expr::As {
            source,
            target,
            pos,
            operand,
        },
    })
}

/// A row of `as`.
fn cast_all(
    alloc: Global,
    env: &Environment<'_>,
    pos: Pos,
    mut typed: Typed,
    types: &[TreeType],
) -> Result<Typed, Halt>
    ensures { Gives typed_of result (cast_all env.now pos (typed_of typed) types.now) }
{
    for (i, tree) in types.iter().enumerate() {
        let target = env.type_of(*tree);
        typed = cast_to(alloc, pos, typed, target, i + 1 == types.len())?;
    }
    Ok(typed)
}

/// The type of an expression that breaks a rule as a whole, if it is known.
fn outer_type(env: &Environment<'_>, e: &Expr) -> Option<Ty>
    ensures { result ≡ outer_type env.now (tree.expr_of e.now) }
{
    match e {
        Expr::Call { callee, .. } => type_of_call(env, callee),
        Expr::Unary {
            operator: UnaryOperator::Not,
            ..
        } => Some(Ty::Bool),
        Expr::Cast { types, .. } => last_type(env, types),
        Expr::Operations { rest, .. } => {
            if is_arithmetic(first_group(rest)) {
                None
            } else {
                Some(Ty::Bool)
            }
        }
        Expr::Leading { .. } => Some(Ty::Bool),
        _ => None,
    }
}

/// Whether an expression of the type, if that is known, goes to the place.
fn given_type(own: Option<Ty>, place: Option<Ty>) -> bool
    ensures { result ≡ given_type own place }
{
    match (own, place) {
        (Some(own), Some(place)) => fits_or_narrows(own, place),
        _ => true,
    }
}

/// Whether an operand goes to the place; a literal goes to each integer type.
pub(crate) fn goes_to(operand: &Option<Typed>, place: Option<Ty>) -> bool
    ensures { result ≡ goes_to (operand_of operand.now) place }
{
    match operand {
        Some(typed) => given_type(Some(typed.ty), place),
        None => match place {
            Some(place) => is_integer(place),
            None => true,
        },
    }
}

/// What is told of an expression that is given to a place and breaks a rule.
pub(crate) fn given_broken(
    env: &Environment<'_>,
    place: Option<Ty>,
    e: &Expr,
    broken: Broken,
) -> Broken
    ensures { Err (breach_of result) ≡ given env.now place (tree.expr_of e.now) (Err (breach_of broken)) }
{
    if broken.is_whole && !given_type(outer_type(env, e), place) {
        Broken {
            rule: Rule::Given,
            pos: pos_of(e),
            is_whole: true,
        }
    } else {
        broken
    }
}

/// Whether the rule comes behind that of truths.
fn is_later(rule: Rule) -> bool
    ensures { result ≡ is_later (typing_rule rule) }
{
    match rule {
        Rule::ArgumentCount | Rule::Calls | Rule::Casts => true,
        _ => false,
    }
}

/// Whether the type, if it is known, is that of truths.
fn may_be_truth(own: Option<Ty>) -> bool
    ensures { result ≡ if_type_known truths.is_truth own }
{
    match own {
        Some(ty) => is_truth(ty),
        None => true,
    }
}

/// What is told of a condition that breaks a rule.
pub(crate) fn asked_broken(env: &Environment<'_>, e: &Expr, broken: Broken) -> Broken
    ensures { Err (breach_of result) ≡ asked env.now (tree.expr_of e.now) (Err (breach_of broken)) }
{
    if broken.is_whole && is_later(broken.rule) && !may_be_truth(outer_type(env, e)) {
        Broken {
            rule: Rule::Truths,
            pos: pos_of(e),
            is_whole: true,
        }
    } else {
        broken
    }
}

/// Whether no operation is left behind this one.
fn is_end(rest: &[Operation], i: usize) -> bool
    requires { i < length rest.now }
    ensures { result ≡ is_end (tree.members_of (map tree.operation_of (drop (i + 1) rest.now))) }
{
    i + 1 == rest.len()
}

/// An operation whose operand was looked at, unless its sign breaks a rule that is told at once.
fn signed_row<'e>(
    group: Option<Group>,
    operation: &'e Operation,
    left: Option<Ty>,
    operand: Option<Typed>,
    is_whole: bool,
) -> Result<Row<'e>, Halt>
    ensures { Gives row_of result (signed_row group operation.now.operator operation.now.pos (tree.expr_of operation.now.operand) left (operand_of operand) is_whole) }
{
    if sign_holds(group, operation.operator, left, type_of(&operand)) {
        Ok(Row {
            operator: operation.operator,
            pos: operation.pos,
            operand: &operation.operand,
            typed: operand,
        })
    } else {
        drop(operand);
        Err(breach(rule_of(operation.operator), operation.pos, is_whole))
    }
}

/// What a call in an expression breaks, its arguments being right.
fn call_rule(signature: Option<&Signature>, arguments: usize) -> Rule
    ensures { typing_rule result ≡ call_rule (option_map (λ s. signature_of s.now) signature.entry) arguments }
{
    match signature {
        Some(signature) if signature.parameters.len() != arguments => Rule::ArgumentCount,
        _ => Rule::Calls,
    }
}

/// The types of the places that arguments go to.
fn places_of<'s>(signature: Option<&'s Signature>) -> &'s [Ty]
    ensures { map Some result.now ≡ places_of (option_map (λ s. signature_of s.now) signature.entry) }
{
    match signature {
        Some(signature) => signature.parameters.as_slice(),
        None => &[],
    }
}

/// An operand with a row of `as`.
fn cast(
    alloc: Global,
    env: &Environment<'_>,
    e: &Expr,
    operand: Option<Typed>,
    types: &[TreeType],
) -> Result<Option<Typed>, Halt>
    ensures { Gives operand_of result (cast_of env.now (tree.expr_of e.now) types.now (operand_of operand)) }
{
    let typed = finished(alloc, Ty::Int, e, operand)?;
    let cast = cast_all(alloc, env, beginning_of(e), typed, types)?;
    Ok(Some(cast))
}

/// A run whose operands were looked at.
fn run(
    alloc: Global,
    group: Option<Group>,
    first: &Expr,
    head: Option<Typed>,
    rest: &[Operation],
    rows: Vec<Row<'_>>,
) -> Result<Option<Typed>, Halt>
    ensures { Gives operand_of result (looking.run_in group (tree.expr_of first.now) (operand_of head) (tree.members_of (map tree.operation_of rest.now)) (map row_of rows.entry.items)) }
{
    match whole_run(group, type_of(&head), rest, &rows) {
        Ok(()) => {
            let run = run_of(alloc, group, first, head, rows)?;
            Ok(run)
        }
        Err(halt) => {
            drop(head);
            Err(halt)
        }
    }
}

/// A run that begins with its sign, whose operands were looked at.
fn leading(
    alloc: Global,
    group: Option<Group>,
    mut rows: Vec<Row<'_>>,
) -> Result<Option<Typed>, Halt>
    ensures { Gives operand_of result (Ok (leading_of group (map row_of rows.entry.items))) }
{
    if rows.is_empty() {
        return Ok(None);
    }
    let first = rows.remove(0);
    let run = run_of(alloc, group, first.operand, first.typed, rows)?;
    Ok(run)
}

/// The typed form of an expression, none where it is made of literals alone. The first rule that it
/// breaks is told.
#[cycle(looking)]
pub(crate) fn look(alloc: Global, env: &Environment<'_>, e: &Expr) -> Result<Option<Typed>, Halt>
    ensures { Gives operand_of result (look env.now (tree.expr_of e.now)) }
{
    match e {
        Expr::Number(_) => Ok(None),
        Expr::Character { code, pos } => Ok(Some(Typed {
            ty: Ty::Char,
            expr: lang::Expr::Character {
                code: *code,
                pos: *pos,
            },
        })),
        Expr::Truth { value, pos } => Ok(Some(Typed {
            ty: Ty::Bool,
            expr: lang::Expr::Truth {
                value: *value,
                pos: *pos,
            },
        })),
        Expr::Name(ident) => named(env, ident),
        Expr::Parentheses { inner, .. } => part(alloc, env, inner),
        Expr::Call { callee, arguments } => {
            callee_inside(alloc, env, callee)?;
            call(alloc, env, arguments, callee)
        }
        Expr::Unary {
            operator: UnaryOperator::Negate,
            pos,
            operand,
        } => {
            let typed = part(alloc, env, operand)?;
            negated(alloc, *pos, operand, typed)
        }
        Expr::Unary {
            operator: UnaryOperator::Not,
            pos,
            operand,
        } => {
            let typed = part(alloc, env, operand)?;
            denied(alloc, *pos, typed)
        }
        Expr::Cast { operand, types } => {
            let typed = part(alloc, env, operand)?;
            cast(alloc, env, operand, typed, types)
        }
        Expr::Operations { first, rest } => {
            let group = first_group(rest);
            let head = part(alloc, env, first)?;
            match rows(alloc, env, group, type_of(&head), rest) {
                Ok(rows) => run(alloc, group, first, head, rest, rows),
                Err(halt) => {
                    drop(head);
                    Err(halt)
                }
            }
        }
        Expr::Leading { operations } => {
            let group = first_group(operations);
            let rows = rows(alloc, env, group, Some(Ty::Bool), operations)?;
            leading(alloc, group, rows)
        }
    }
}

/// The same of a part of an expression.
#[cycle(looking)]
fn part(alloc: Global, env: &Environment<'_>, e: &Expr) -> Result<Option<Typed>, Halt>
    ensures { Gives operand_of result (inside (look env.now (tree.expr_of e.now))) }
{
    match look(alloc, env, e) {
        Ok(typed) => Ok(typed),
        Err(Halt::Broken(broken)) => Err(breach(broken.rule, broken.pos, false)),
        Err(Halt::Memory) => Err(Halt::Memory),
    }
}

/// The signs of a run with the operands behind them.
#[cycle(looking)]
fn rows<'e>(
    alloc: Global,
    env: &Environment<'_>,
    group: Option<Group>,
    mut left: Option<Ty>,
    rest: &'e [Operation],
) -> Result<Vec<Row<'e>>, Halt>
    ensures { Gives (λ v. map row_of v.items) result (look_rows env.now group left (tree.members_of (map tree.operation_of rest.now))) }
{
    let mut rows = Vec::new(alloc);
    for (i, operation) in rest.iter().enumerate() {
        let typed = part(alloc, env, &operation.operand)?;
        let row = signed_row(group, operation, left, typed, is_end(rest, i))?;
        left = left_behind(group, left, type_of(&row.typed));
        rows.push(row)?;
    }
    Ok(rows)
}

/// An argument: what it breaks.
#[cycle(looking)]
fn argument(alloc: Global, env: &Environment<'_>, place: Option<Ty>, e: &Expr) -> Result<(), Halt>
    ensures { Gives (λ done. done) result (void (inside (given env.now place (tree.expr_of e.now) (look env.now (tree.expr_of e.now))))) }
{
    match look(alloc, env, e) {
        Ok(typed) => {
            let goes = goes_to(&typed, place);
            drop(typed);
            if goes {
                Ok(())
            } else {
                Err(breach(Rule::Given, pos_of(e), false))
            }
        }
        Err(Halt::Broken(broken)) => {
            let told = given_broken(env, place, e, broken);
            Err(breach(told.rule, told.pos, false))
        }
        Err(Halt::Memory) => Err(Halt::Memory),
    }
}

/// The type of the place of a number, if there is one.
pub fn place_at(places: &[Ty], i: usize) -> Option<Ty>
    ensures { result ≡ slice_get places.now i }
{
    match places.get(i) {
        Some(ty) => Some(*ty),
        None => None,
    }
}

/// The arguments of a call: what they break.
#[cycle(looking)]
fn arguments(alloc: Global, env: &Environment<'_>, places: &[Ty], all: &[Expr]) -> Result<(), Halt>
    ensures { Gives (λ done. done) result (look_arguments env.now (map Some places.now) (tree.arguments_of (map tree.expr_of all.now))) }
{
    for (i, e) in all.iter().enumerate() {
        let place = place_at(places, i);
        argument(alloc, env, place, e)?;
    }
    Ok(())
}

/// The number of arguments.
pub fn argument_count(all: &[Expr]) -> usize
    ensures { result ≡ count (tree.arguments_of (map tree.expr_of all.now)) }
{
    all.len()
}

/// What a call in an expression breaks, unless something is broken in what is called: no expression has one.
#[cycle(looking)]
fn call(
    alloc: Global,
    env: &Environment<'_>,
    all: &[Expr],
    callee: &Expr,
) -> Result<Option<Typed>, Halt>
    ensures { Gives operand_of result (called_with env.now (tree.expr_of callee.now) (tree.arguments_of (map tree.expr_of all.now))) }
{
    let signature = called(env, callee);
    arguments(alloc, env, places_of(signature), all)?;
    let rule = call_rule(signature, argument_count(all));
    Err(breach(rule, beginning_of(callee), true))
}

/// What a part of an expression breaks.
#[cycle(looking)]
fn broken_inside(alloc: Global, env: &Environment<'_>, e: &Expr) -> Result<(), Halt>
    ensures { Gives (λ done. done) result (void (inside (look env.now (tree.expr_of e.now)))) }
{
    match look(alloc, env, e) {
        Ok(typed) => {
            drop(typed);
            Ok(())
        }
        Err(Halt::Broken(broken)) => Err(breach(broken.rule, broken.pos, false)),
        Err(Halt::Memory) => Err(Halt::Memory),
    }
}

/// What stands before arguments: what it breaks inside, unless it is a name.
#[cycle(looking)]
fn callee_inside(alloc: Global, env: &Environment<'_>, callee: &Expr) -> Result<(), Halt>
    ensures { Gives (λ done. done) result (callee_inside (tree.expr_of callee.now) (look env.now (tree.expr_of callee.now))) }
{
    match callee {
        Expr::Name(_) => Ok(()),
        Expr::Number(_)
        | Expr::Character { .. }
        | Expr::Truth { .. }
        | Expr::Parentheses { .. }
        | Expr::Call { .. }
        | Expr::Unary { .. }
        | Expr::Cast { .. }
        | Expr::Operations { .. }
        | Expr::Leading { .. } => broken_inside(alloc, env, callee),
    }
}
