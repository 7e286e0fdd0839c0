//! The walk over an expression: its term, and its conditions in the order of evaluation.
#![tactic(auto, using(crate::proofs::Reaching::extends_then, crate::proofs::Reaching::extends_nodes))]

ghost use Rattle.std.specs.Prelude.{IfOk};
ghost use Rattle.df_lang.specs.ExprView.{expr_of};
ghost use Rattle.df_nterm.specs.Term.{Numbers, Truths, sort_of_type};
ghost use Rattle.df_nterm.specs.Term as trees;
ghost use Rattle.df_nterm.specs.Expressions as expressions;
ghost use Rattle.df_nenc.specs.Tree.{tree_at, trees_in, path_in};
ghost use Rattle.df_nenc.specs.Growing.{Grows, IsFront};
ghost use Rattle.df_nenc.specs.Standing.{IsTerm, Stands, IsPath};
ghost use Rattle.df_nenc.specs.Encoding.{IsOver, Gives, Encodes, Extends};
ghost use Rattle.df_nenc.specs.Siblings.{AreAddendsOver, AreFactorsOver, AreMembersOver, AreLinksOver};
ghost use Rattle.df_nenc.specs.Views.{addends_in, factors_in, members_in, links_in};

use crate::comparison::compared;
use crate::condition::{Condition, narrowed_path, owe_narrowing};
use crate::operation::{all_of, character, goes_on, iff, joined, negation, truth};
use crate::step::{cast, further, implied, negated, number, with_addend, with_factor};
use df_form::{Formula, Nodes, Term};
use df_lang::{Addend, Expr, Factor, Junction, Link, Member, Ty};
use std::alloc::{AllocError, Global};

/// The term of a well-typed expression, over a term for each local. Its conditions are added in the order of evaluation,
/// each under the formula of the place.
#[cycle(expr)]
pub fn encode(
    alloc: Global,
    nodes: &mut Nodes,
    terms: &[Term],
    path: Option<Formula>,
    expr: &Expr,
    out: &mut Vec<Condition>,
) -> Result<Term, AllocError>
    requires over { IsOver nodes.old terms.now (expr_of expr.now) }
    requires path { IsPath nodes.old path }
    ensures encodes { IfOk result (λ n. Encodes nodes.old nodes.new terms.now path (expr_of expr.now) n out.old.items out.new.items) }
    ensures extends { Extends nodes.old nodes.new out.old.items out.new.items }
{
    match expr {
        Expr::Number { ty, value, pos } => number(alloc, nodes, path, *ty, *value, *pos, out),
        Expr::Truth { value, .. } => truth(alloc, nodes, *value),
        Expr::Character { code, .. } => character(alloc, nodes, *code),
        Expr::Local { local, .. } => Ok(terms[*local]),
        Expr::Negate { ty, pos, operand } => {
            let operand = encode(alloc, nodes, terms, path, operand, out)?;
            negated(alloc, nodes, path, *ty, *pos, operand, out)
        }
        Expr::Not { operand, .. } => {
            let operand = encode(alloc, nodes, terms, path, operand, out)?;
            negation(alloc, nodes, operand)
        }
        Expr::Sum { ty, first, rest } => {
            let first = encode(alloc, nodes, terms, path, first, out)?;
            sum(alloc, nodes, terms, path, *ty, first, rest, out)
        }
        Expr::Product { ty, first, rest } => {
            let first = encode(alloc, nodes, terms, path, first, out)?;
            product(alloc, nodes, terms, path, *ty, first, rest, out)
        }
        Expr::Junction {
            junction,
            first,
            rest,
        } => {
            let first = encode(alloc, nodes, terms, path, first, out)?;
            junction_of(alloc, nodes, terms, path, *junction, first, rest, out)
        }
        Expr::Implies { first, rest, .. } => {
            let first = encode(alloc, nodes, terms, path, first, out)?;
            implication(alloc, nodes, terms, path, first, rest, out)
        }
        Expr::Iff { first, rest } => {
            let first = encode(alloc, nodes, terms, path, first, out)?;
            equivalence(alloc, nodes, terms, path, first, rest, out)
        }
        Expr::Chain { ty, first, rest } => {
            let first = encode(alloc, nodes, terms, path, first, out)?;
            chain(alloc, nodes, terms, path, *ty, first, rest, out)
        }
        Expr::As {
            source,
            target,
            pos,
            operand,
        } => {
            let operand = encode(alloc, nodes, terms, path, operand, out)?;
            cast(alloc, nodes, path, *source, *target, *pos, operand, out)
        }
        Expr::Convert {
            source,
            target,
            pos,
            operand,
        } => {
            let operand = encode(alloc, nodes, terms, path, operand, out)?;
            owe_narrowing(alloc, nodes, path, *source, *target, *pos, operand, out)?;
            Ok(operand)
        }
    }
}

/// A sum of the type after its first member.
#[cycle(expr)]
fn sum(
    alloc: Global,
    nodes: &mut Nodes,
    terms: &[Term],
    path: Option<Formula>,
    ty: Ty,
    first: Term,
    rest: &Vec<Addend>,
    out: &mut Vec<Condition>,
) -> Result<Term, AllocError>
    requires over { AreAddendsOver nodes.old terms.now (addends_in rest.now.items) }
    requires path { IsPath nodes.old path }
    requires first { IsTerm Numbers nodes.old first }
    ensures gives { IfOk result (λ n. Gives (expressions.sum_of (trees_in nodes.old terms.now) (tree_at nodes.old first) (addends_in rest.now.items)) (expressions.conditions_of_addends (trees_in nodes.old terms.now) (path_in nodes.old path) ty (tree_at nodes.old first) (addends_in rest.now.items)) nodes.old nodes.new n out.old.items out.new.items) }
    ensures extends { Extends nodes.old nodes.new out.old.items out.new.items }
{
    let mut total = first;
    for addend in rest {
        let operand = encode(alloc, nodes, terms, path, &addend.operand, out)?;
        total = with_addend(
            alloc,
            nodes,
            path,
            ty,
            total,
            addend.operator,
            addend.pos,
            operand,
            out,
        )?;
    }
    Ok(total)
}

/// A product of the type after its first member.
#[cycle(expr)]
fn product(
    alloc: Global,
    nodes: &mut Nodes,
    terms: &[Term],
    path: Option<Formula>,
    ty: Ty,
    first: Term,
    rest: &Vec<Factor>,
    out: &mut Vec<Condition>,
) -> Result<Term, AllocError>
    requires over { AreFactorsOver nodes.old terms.now (factors_in rest.now.items) }
    requires path { IsPath nodes.old path }
    requires first { IsTerm Numbers nodes.old first }
    ensures gives { IfOk result (λ n. Gives (expressions.product_of (trees_in nodes.old terms.now) (tree_at nodes.old first) (factors_in rest.now.items)) (expressions.conditions_of_factors (trees_in nodes.old terms.now) (path_in nodes.old path) ty (tree_at nodes.old first) (factors_in rest.now.items)) nodes.old nodes.new n out.old.items out.new.items) }
    ensures extends { Extends nodes.old nodes.new out.old.items out.new.items }
{
    let mut product = first;
    for factor in rest {
        let operand = encode(alloc, nodes, terms, path, &factor.operand, out)?;
        product = with_factor(
            alloc,
            nodes,
            path,
            ty,
            product,
            factor.operator,
            factor.pos,
            operand,
            out,
        )?;
    }
    Ok(product)
}

/// A junction after its first member: the next one is evaluated where those before do not decide.
#[cycle(expr)]
fn junction_of(
    alloc: Global,
    nodes: &mut Nodes,
    terms: &[Term],
    path: Option<Formula>,
    junction: Junction,
    first: Formula,
    rest: &Vec<Member>,
    out: &mut Vec<Condition>,
) -> Result<Formula, AllocError>
    requires over { AreMembersOver nodes.old terms.now (members_in rest.now.items) }
    requires path { IsPath nodes.old path }
    requires first { IsTerm Truths nodes.old first }
    ensures gives { IfOk result (λ n. Gives (expressions.joined junction (trees.term (tree_at nodes.old first) (expressions.members_of (trees_in nodes.old terms.now) (members_in rest.now.items)))) (expressions.conditions_of_junction (trees_in nodes.old terms.now) (path_in nodes.old path) junction (tree_at nodes.old first) (members_in rest.now.items)) nodes.old nodes.new n out.old.items out.new.items) }
    ensures extends { Extends nodes.old nodes.new out.old.items out.new.items }
{
    let mut formulas = Vec::new(alloc);
    formulas.push(first)?;
    let mut path = path;
    let mut last = first;
    for member in rest {
        let guard = goes_on(alloc, nodes, junction, last)?;
        let narrowed = narrowed_path(alloc, nodes, path, guard)?;
        path = Some(narrowed);
        last = encode(alloc, nodes, terms, path, &member.operand, out)?;
        formulas.push(last)?;
    }
    joined(alloc, nodes, junction, &formulas)
}

/// An implication after its first member.
#[cycle(expr)]
fn implication(
    alloc: Global,
    nodes: &mut Nodes,
    terms: &[Term],
    path: Option<Formula>,
    first: Formula,
    rest: &Vec<Member>,
    out: &mut Vec<Condition>,
) -> Result<Formula, AllocError>
    requires over { AreMembersOver nodes.old terms.now (members_in rest.now.items) }
    requires path { IsPath nodes.old path }
    requires first { IsTerm Truths nodes.old first }
    ensures gives { IfOk result (λ n. Gives (expressions.implication_of (trees_in nodes.old terms.now) (tree_at nodes.old first) (members_in rest.now.items)) (expressions.conditions_of_implication (trees_in nodes.old terms.now) (path_in nodes.old path) (tree_at nodes.old first) (members_in rest.now.items)) nodes.old nodes.new n out.old.items out.new.items) }
    ensures extends { Extends nodes.old nodes.new out.old.items out.new.items }
{
    let mut premises = Vec::new(alloc);
    let mut path = path;
    let mut last = first;
    for member in rest {
        premises.push(last)?;
        let narrowed = narrowed_path(alloc, nodes, path, last)?;
        path = Some(narrowed);
        last = encode(alloc, nodes, terms, path, &member.operand, out)?;
    }
    implied(alloc, nodes, premises, last)
}

/// An equivalence after its first member.
#[cycle(expr)]
fn equivalence(
    alloc: Global,
    nodes: &mut Nodes,
    terms: &[Term],
    path: Option<Formula>,
    first: Formula,
    rest: &Vec<Member>,
    out: &mut Vec<Condition>,
) -> Result<Formula, AllocError>
    requires over { AreMembersOver nodes.old terms.now (members_in rest.now.items) }
    requires path { IsPath nodes.old path }
    requires first { IsTerm Truths nodes.old first }
    ensures gives { IfOk result (λ n. Gives (expressions.equivalence_of (trees_in nodes.old terms.now) (tree_at nodes.old first) (members_in rest.now.items)) (expressions.conditions_of_members (trees_in nodes.old terms.now) (path_in nodes.old path) (members_in rest.now.items)) nodes.old nodes.new n out.old.items out.new.items) }
    ensures extends { Extends nodes.old nodes.new out.old.items out.new.items }
{
    let mut formula = first;
    for member in rest {
        let operand = encode(alloc, nodes, terms, path, &member.operand, out)?;
        formula = iff(alloc, nodes, formula, operand)?;
    }
    Ok(formula)
}

/// A chain of comparisons after its first member: it ends at its first false neighbours.
#[cycle(expr)]
fn chain(
    alloc: Global,
    nodes: &mut Nodes,
    terms: &[Term],
    path: Option<Formula>,
    ty: Ty,
    first: Term,
    rest: &Vec<Link>,
    out: &mut Vec<Condition>,
) -> Result<Formula, AllocError>
    requires over { AreLinksOver nodes.old terms.now ty (links_in rest.now.items) }
    requires path { IsPath nodes.old path }
    requires first { IsTerm (sort_of_type ty) nodes.old first }
    ensures gives { IfOk result (λ n. Gives (trees.conjunction (expressions.comparisons_of (trees_in nodes.old terms.now) ty (tree_at nodes.old first) (links_in rest.now.items))) (expressions.conditions_of_links (trees_in nodes.old terms.now) (path_in nodes.old path) ty (tree_at nodes.old first) (links_in rest.now.items)) nodes.old nodes.new n out.old.items out.new.items) }
    ensures extends { Extends nodes.old nodes.new out.old.items out.new.items }
{
    let mut formulas = Vec::new(alloc);
    let mut path = path;
    let mut last = None;
    let mut left = first;
    for link in rest {
        path = further(alloc, nodes, path, last)?;
        let right = encode(alloc, nodes, terms, path, &link.operand, out)?;
        let formula = compared(alloc, nodes, ty, link.comparison, left, right)?;
        formulas.push(formula)?;
        last = Some(formula);
        left = right;
    }
    all_of(alloc, nodes, &formulas)
}

/// The term alone, where the conditions are known or owed already.
pub fn term(
    alloc: Global,
    nodes: &mut Nodes,
    terms: &[Term],
    expr: &Expr,
) -> Result<Term, AllocError>
    requires { IsOver nodes.old terms.now (expr_of expr.now) }
    ensures stands { IfOk result (λ n. Stands nodes.new (expressions.term_of (trees_in nodes.old terms.now) (expr_of expr.now)) n) }
    ensures grows { Grows nodes.old nodes.new }
{
    let mut conditions = Vec::new(alloc);
    encode(alloc, nodes, terms, None, expr, &mut conditions)
}

/// The term, and the conditions where all runs come.
pub fn defined(
    alloc: Global,
    nodes: &mut Nodes,
    terms: &[Term],
    expr: &Expr,
    out: &mut Vec<Condition>,
) -> Result<Term, AllocError>
    requires { IsOver nodes.old terms.now (expr_of expr.now) }
    ensures gives { IfOk result (λ n. Gives (expressions.term_of (trees_in nodes.old terms.now) (expr_of expr.now)) (expressions.conditions_of (trees_in nodes.old terms.now) (expr_of expr.now)) nodes.old nodes.new n out.old.items out.new.items) }
    ensures grows { Grows nodes.old nodes.new }
    ensures begins { IsFront out.old.items out.new.items }
{
    encode(alloc, nodes, terms, None, expr, out)
}
