//! The members of measures, with the conditions under which they have values.
#![tactic(auto, using(df_nenc::proofs::Growing::grows_not, df_nenc::proofs::Growing::grows_then, df_nenc::proofs::Reaching::front_not, df_nenc::proofs::Reaching::front_then, df_nenc::proofs::Growing::term_stays))]

ghost use Rattle.std.specs.Prelude.{◌≡◌, ◌≤◌, ◌++◌, map, length, IfOk};
ghost use Rattle.df_base.specs.declared.pos.Pos.{Pos};
ghost use Rattle.df_lang.specs.ExprView.{expr_of};
ghost use Rattle.df_lang.specs.DeclView.{param_of, method_of};
ghost use Rattle.df_lang.specs.Measures as measures;
ghost use Rattle.df_nterm.specs.Expressions.{conditions_of};
ghost use Rattle.df_nenc.specs.Tree.{trees_in};
ghost use Rattle.df_nenc.specs.Growing.{Grows, IsFront};
ghost use Rattle.df_nenc.specs.Encoding.{IsOver};
ghost use Rattle.df_nmeas.specs.Measuring.{AreOver, IsMethodOver, IsLoopOver, IsNumberOver, IsSideOver, Measures, MakesMeasure, measures_in, decreases_in, members_from, distance_in};

use crate::measured::Measured;
use df_form::{Nodes, Term};
use df_lang::{AddendOperator, Comparison, Expr, Junction, Measure, Method, Param, Ty};
use df_nenc::{Condition, defined, summed};
use std::alloc::{AllocError, Global};

/// The members of a measure, over a term for each local.
pub fn measure(
    alloc: Global,
    nodes: &mut Nodes,
    terms: &[Term],
    measures: &[Measure],
    out: &mut Vec<Condition>,
) -> Result<Vec<Measured>, AllocError>
    requires { AreOver nodes.old terms.now (measures_in measures.now) }
    ensures measures { IfOk result (λ members. MakesMeasure nodes.old nodes.new terms.now (measures_in measures.now) members.items out.old.items out.new.items) }
    ensures grows { Grows nodes.old nodes.new }
    ensures begins { IsFront out.old.items out.new.items }
{
    let mut members = Vec::new(alloc);
    for measure in measures {
        let value = defined(alloc, nodes, terms, &measure.value, out)?;
        members.push(Measured {
            ty: measure.ty,
            value,
        })?;
    }
    Ok(members)
}

/// The parameters in order, each with the term of its local.
fn of_parameters(
    alloc: Global,
    parameters: &[Param],
    terms: &[Term],
) -> Result<Vec<Measured>, AllocError>
    requires { length parameters.now ≤ length terms.now }
    ensures { IfOk result (λ members. members.items ≡ members_from 0 (map param_of parameters.now) terms.now) }
{
    let mut members = Vec::new(alloc);
    for (i, parameter) in parameters.iter().enumerate() {
        members.push(Measured {
            ty: parameter.ty,
            value: terms[i],
        })?;
    }
    Ok(members)
}

/// The measure of a method, over a term for each parameter: its clause, or its parameters in order.
pub fn method_measure(
    alloc: Global,
    nodes: &mut Nodes,
    terms: &[Term],
    method: &Method,
    out: &mut Vec<Condition>,
) -> Result<Vec<Measured>, AllocError>
    requires { IsMethodOver nodes.old terms.now (method_of method.now) }
    ensures measures { IfOk result (λ members. MakesMeasure nodes.old nodes.new terms.now (measures.method_measure (method_of method.now)) members.items out.old.items out.new.items) }
    ensures grows { Grows nodes.old nodes.new }
    ensures begins { IsFront out.old.items out.new.items }
{
    match &method.decreases {
        Some(measures) => measure(alloc, nodes, terms, measures, out),
        None => of_parameters(alloc, &method.parameters, terms),
    }
}

/// How far the one number is below the other.
fn distance(
    alloc: Global,
    nodes: &mut Nodes,
    terms: &[Term],
    low: &Expr,
    high: &Expr,
    out: &mut Vec<Condition>,
) -> Result<Vec<Measured>, AllocError>
    requires low { IsNumberOver nodes.old terms.now (expr_of low.now) }
    requires high { IsNumberOver nodes.old terms.now (expr_of high.now) }
    ensures measures { IfOk result (λ members. Measures (distance_in (trees_in nodes.old terms.now) (expr_of low.now) (expr_of high.now)) (conditions_of (trees_in nodes.old terms.now) (expr_of high.now) ++ conditions_of (trees_in nodes.old terms.now) (expr_of low.now)) nodes.old nodes.new members.items out.old.items out.new.items) }
    ensures grows { Grows nodes.old nodes.new }
    ensures begins { IsFront out.old.items out.new.items }
{
    let high = defined(alloc, nodes, terms, high, out)?;
    let low = defined(alloc, nodes, terms, low, out)?;
    let value = summed(alloc, nodes, AddendOperator::Minus, high, low)?;
    let mut members = Vec::new(alloc);
    members.push(Measured { ty: Ty::Int, value })?;
    Ok(members)
}

/// Of a comparison of integers by order: what falls.
fn comparison_measure(
    alloc: Global,
    nodes: &mut Nodes,
    terms: &[Term],
    ty: Ty,
    left: &Expr,
    comparison: Comparison,
    right: &Expr,
    out: &mut Vec<Condition>,
) -> Result<Vec<Measured>, AllocError>
    requires left { IsSideOver nodes.old terms.now ty (expr_of left.now) }
    requires right { IsSideOver nodes.old terms.now ty (expr_of right.now) }
    ensures measures { IfOk result (λ members. (pos : Pos) → MakesMeasure nodes.old nodes.new terms.now (measures.measure_of_number (measures.comparison_measure ty pos (expr_of left.now) comparison (expr_of right.now))) members.items out.old.items out.new.items) }
    ensures grows { Grows nodes.old nodes.new }
    ensures begins { IsFront out.old.items out.new.items }
{
    match ty {
        Ty::Bool | Ty::Char => Ok(Vec::new(alloc)),
        Ty::Newtype(_) | Ty::Int | Ty::Nat => match comparison {
            Comparison::Less | Comparison::AtMost => distance(
                alloc, nodes, terms, left, right, out,
            ),
            Comparison::Greater | Comparison::AtLeast => distance(
                alloc, nodes, terms, right, left, out,
            ),
            Comparison::Equal | Comparison::NotEqual => Ok(Vec::new(alloc)),
        },
    }
}

/// What falls by a guard: of a comparison of two integers by order, their distance; of conjuncts the first one counts.
fn guard_measure(
    alloc: Global,
    nodes: &mut Nodes,
    terms: &[Term],
    guard: &Expr,
    out: &mut Vec<Condition>,
) -> Result<Vec<Measured>, AllocError>
    requires { IsOver nodes.old terms.now (expr_of guard.now) }
    ensures measures { IfOk result (λ members. MakesMeasure nodes.old nodes.new terms.now (measures.measure_of_number (measures.guard_measure (expr_of guard.now))) members.items out.old.items out.new.items) }
    ensures grows { Grows nodes.old nodes.new }
    ensures begins { IsFront out.old.items out.new.items }
{
    match guard {
        Expr::Chain { ty, first, rest } => match rest.as_slice() {
            [link] => comparison_measure(
                alloc,
                nodes,
                terms,
                *ty,
                first,
                link.comparison,
                &link.operand,
                out,
            ),
            [] => Ok(Vec::new(alloc)),
            [_, _, ..] => Ok(Vec::new(alloc)),
        },
        Expr::Junction {
            junction: Junction::And,
            first,
            ..
        } => guard_measure(alloc, nodes, terms, first, out),
        Expr::Junction {
            junction: Junction::Or,
            ..
        }
        | Expr::Number { .. }
        | Expr::Truth { .. }
        | Expr::Character { .. }
        | Expr::Local { .. }
        | Expr::Negate { .. }
        | Expr::Not { .. }
        | Expr::Sum { .. }
        | Expr::Product { .. }
        | Expr::Implies { .. }
        | Expr::Iff { .. }
        | Expr::As { .. }
        | Expr::Convert { .. } => Ok(Vec::new(alloc)),
    }
}

/// The measure of a loop: its clause, or what falls by its guard.
pub fn loop_measure(
    alloc: Global,
    nodes: &mut Nodes,
    terms: &[Term],
    guard: &Expr,
    decreases: &Option<Vec<Measure>>,
    out: &mut Vec<Condition>,
) -> Result<Vec<Measured>, AllocError>
    requires { IsLoopOver nodes.old terms.now (expr_of guard.now) (decreases_in decreases.now) }
    ensures measures { IfOk result (λ members. MakesMeasure nodes.old nodes.new terms.now (measures.loop_measure (expr_of guard.now) (decreases_in decreases.now)) members.items out.old.items out.new.items) }
    ensures grows { Grows nodes.old nodes.new }
    ensures begins { IsFront out.old.items out.new.items }
{
    match decreases {
        Some(measures) => measure(alloc, nodes, terms, measures, out),
        None => guard_measure(alloc, nodes, terms, guard, out),
    }
}
