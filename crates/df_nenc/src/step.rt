//! What operators do with the terms of their operands, with what these ask for.
#![tactic(auto, using(crate::proofs::Growing::grows_then, crate::proofs::Reaching::extends_then, crate::proofs::Reaching::extends_nodes))]

ghost use Rattle.std.specs.Prelude.{◌≡◌, true, IfOk};
ghost use Rattle.std.specs.List.{AllByRecursion};
ghost use Rattle.df_nterm.specs.Term.{Numbers, Truths, sort_of_type};
ghost use Rattle.df_nterm.specs.Term as trees;
ghost use Rattle.df_nterm.specs.Expressions as expressions;
ghost use Rattle.df_nenc.specs.Tree.{tree_at, trees_at, path_in};
ghost use Rattle.df_nenc.specs.Growing.{Grows};
ghost use Rattle.df_nenc.specs.Standing.{IsTerm, Stands, IsPath, counts_as_number};
ghost use Rattle.df_nenc.specs.Encoding.{Gives, Extends};
ghost use Rattle.df_nenc.specs.Siblings as siblings;

use crate::condition::{Condition, narrowed_path, owe_divisor, owe_range};
use crate::operation::{implies, literal, multiplied, negative, number_in, summed, value_in};
use df_base::Pos;
use df_form::{Formula, Nodes, Term};
use df_lang::{AddendOperator, FactorOperator, Ty};
use std::alloc::{AllocError, Global};

/// A literal of the type.
pub(crate) fn number(
    alloc: Global,
    nodes: &mut Nodes,
    path: Option<Formula>,
    ty: Ty,
    value: i128,
    pos: Pos,
    out: &mut Vec<Condition>,
) -> Result<Term, AllocError>
    requires { IsPath nodes.old path }
    ensures gives { IfOk result (λ n. Gives (trees.literal value) (expressions.under (path_in nodes.old path) (expressions.in_range ty pos (trees.literal value))) nodes.old nodes.new n out.old.items out.new.items) }
    ensures extends { Extends nodes.old nodes.new out.old.items out.new.items }
{
    let number = literal(alloc, nodes, value)?;
    owe_range(alloc, nodes, path, ty, pos, number, out)?;
    Ok(number)
}

/// The number of the other sign, of the type.
pub(crate) fn negated(
    alloc: Global,
    nodes: &mut Nodes,
    path: Option<Formula>,
    ty: Ty,
    pos: Pos,
    operand: Term,
    out: &mut Vec<Condition>,
) -> Result<Term, AllocError>
    requires path { IsPath nodes.old path }
    requires operand { IsTerm Numbers nodes.old operand }
    ensures gives { IfOk result (λ n. Gives (trees.negative (tree_at nodes.old operand)) (expressions.under (path_in nodes.old path) (expressions.in_range ty pos (trees.negative (tree_at nodes.old operand)))) nodes.old nodes.new n out.old.items out.new.items) }
    ensures extends { Extends nodes.old nodes.new out.old.items out.new.items }
{
    let number = negative(alloc, nodes, operand)?;
    owe_range(alloc, nodes, path, ty, pos, number, out)?;
    Ok(number)
}

/// A sum so far of the type, and one more member.
pub(crate) fn with_addend(
    alloc: Global,
    nodes: &mut Nodes,
    path: Option<Formula>,
    ty: Ty,
    total: Term,
    operator: AddendOperator,
    pos: Pos,
    operand: Term,
    out: &mut Vec<Condition>,
) -> Result<Term, AllocError>
    requires path { IsPath nodes.old path }
    requires total { IsTerm Numbers nodes.old total }
    requires operand { IsTerm Numbers nodes.old operand }
    ensures gives { IfOk result (λ n. Gives (expressions.summed operator (tree_at nodes.old total) (tree_at nodes.old operand)) (expressions.under (path_in nodes.old path) (expressions.in_range ty pos (expressions.summed operator (tree_at nodes.old total) (tree_at nodes.old operand)))) nodes.old nodes.new n out.old.items out.new.items) }
    ensures extends { Extends nodes.old nodes.new out.old.items out.new.items }
{
    let total = summed(alloc, nodes, operator, total, operand)?;
    owe_range(alloc, nodes, path, ty, pos, total, out)?;
    Ok(total)
}

/// A product so far of the type, and one more member.
pub(crate) fn with_factor(
    alloc: Global,
    nodes: &mut Nodes,
    path: Option<Formula>,
    ty: Ty,
    product: Term,
    operator: FactorOperator,
    pos: Pos,
    operand: Term,
    out: &mut Vec<Condition>,
) -> Result<Term, AllocError>
    requires path { IsPath nodes.old path }
    requires product { IsTerm Numbers nodes.old product }
    requires operand { IsTerm Numbers nodes.old operand }
    ensures gives { IfOk result (λ n. Gives (expressions.multiplied operator (tree_at nodes.old product) (tree_at nodes.old operand)) (siblings.conditions_of_factor (path_in nodes.old path) ty operator pos (tree_at nodes.old product) (tree_at nodes.old operand)) nodes.old nodes.new n out.old.items out.new.items) }
    ensures extends { Extends nodes.old nodes.new out.old.items out.new.items }
{
    let product = multiplied(alloc, nodes, operator, product, operand)?;
    owe_divisor(alloc, nodes, path, operator, pos, operand, out)?;
    owe_range(alloc, nodes, path, ty, pos, product, out)?;
    Ok(product)
}

/// A value as one of another type.
pub(crate) fn cast(
    alloc: Global,
    nodes: &mut Nodes,
    path: Option<Formula>,
    source: Ty,
    target: Ty,
    pos: Pos,
    value: Term,
    out: &mut Vec<Condition>,
) -> Result<Term, AllocError>
    requires path { IsPath nodes.old path }
    requires value { IsTerm (sort_of_type source) nodes.old value }
    requires source { counts_as_number source ≡ true }
    ensures gives { IfOk result (λ n. Gives (expressions.value_in target (expressions.number_in source (tree_at nodes.old value))) (expressions.under (path_in nodes.old path) (expressions.in_range target pos (expressions.number_in source (tree_at nodes.old value)))) nodes.old nodes.new n out.old.items out.new.items) }
    ensures extends { Extends nodes.old nodes.new out.old.items out.new.items }
{
    let number = number_in(alloc, nodes, source, value)?;
    owe_range(alloc, nodes, path, target, pos, number, out)?;
    value_in(alloc, nodes, target, number)
}

/// That the last formula is true where these premises are, from the right.
pub(crate) fn implied(
    alloc: Global,
    nodes: &mut Nodes,
    mut premises: Vec<Formula>,
    last: Formula,
) -> Result<Formula, AllocError>
    requires premises { AllByRecursion (IsTerm Truths nodes.old) premises.items }
    requires last { IsTerm Truths nodes.old last }
    ensures stands { IfOk result (λ n. Stands nodes.new (siblings.implied_by (trees_at nodes.old premises.items) (tree_at nodes.old last)) n) }
    ensures grows { Grows nodes.old nodes.new }
{
    let mut formula = last;
    while let Some(premise) = premises.pop() {
        formula = implies(alloc, nodes, premise, formula)?;
    }
    Ok(formula)
}

/// The formula of a place behind the last comparison, if there was one.
pub(crate) fn further(
    alloc: Global,
    nodes: &mut Nodes,
    path: Option<Formula>,
    last: Option<Formula>,
) -> Result<Option<Formula>, AllocError>
    requires path { IsPath nodes.old path }
    requires last { IsPath nodes.old last }
    ensures path { IfOk result (λ on. path_in nodes.new on ≡ siblings.further (path_in nodes.old path) (path_in nodes.old last)) }
    ensures is_path { IfOk result (λ on. IsPath nodes.new on) }
    ensures grows { Grows nodes.old nodes.new }
{
    match last {
        None => Ok(path),
        Some(formula) => {
            let narrowed = narrowed_path(alloc, nodes, path, formula)?;
            Ok(Some(narrowed))
        }
    }
}
