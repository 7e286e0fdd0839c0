//! Typed runs of operations.

ghost use Rattle.std.specs.Prelude.{◌≡◌, map, IfOk};
ghost use Rattle.df_lang.specs.Expr as pure;
ghost use Rattle.df_lang.specs.ExprView as typed;
ghost use Rattle.df_lang.specs.declared.expr.Arrow.TheVariants as arrows;
ghost use Rattle.df_lang.specs.declared.expr.Junction.TheVariants as junctions;
ghost use Rattle.df_ntyping.specs.ExprElaboration as elaboration;
ghost use Rattle.df_ntyping.specs.ExprElaboration.{addends_of, factors_of, members_of, links_of, turned};
ghost use Rattle.df_ntexpr.specs.Parts.{part_of};
ghost use Rattle.df_ntexpr.specs.TypedViews.{addend_of, factor_of, link_of, member_of};
ghost use Rattle.df_ntyping.specs.mirror.Signs.{run_expr};

use crate::part::Part;
use df_base::Global;
use df_lang::{
    Addend, AddendOperator, Arrow, Comparison, Expr, Factor, FactorOperator, Junction, Link,
    Member, Ty,
};
use df_ntree::{BinaryOperator, Group};
use std::alloc::AllocError;

fn addend_operator(operator: BinaryOperator) -> AddendOperator
    ensures { result ≡ elaboration.addend_operator operator }
{
    match operator {
        BinaryOperator::Subtract => AddendOperator::Minus,
        _ => AddendOperator::Plus,
    }
}

fn factor_operator(operator: BinaryOperator) -> FactorOperator
    ensures { result ≡ elaboration.factor_operator operator }
{
    match operator {
        BinaryOperator::Divide => FactorOperator::Divide,
        BinaryOperator::Modulo => FactorOperator::Modulo,
        _ => FactorOperator::Times,
    }
}

fn comparison_of(operator: BinaryOperator) -> Comparison
    ensures { result ≡ elaboration.comparison_of operator }
{
    match operator {
        BinaryOperator::NotEqual => Comparison::NotEqual,
        BinaryOperator::Less => Comparison::Less,
        BinaryOperator::AtMost => Comparison::AtMost,
        BinaryOperator::Greater => Comparison::Greater,
        BinaryOperator::AtLeast => Comparison::AtLeast,
        _ => Comparison::Equal,
    }
}

fn addends(alloc: Global, parts: Vec<Part>) -> Result<Vec<Addend>, AllocError>
    ensures { IfOk result (λ v. typed.addends_of (map addend_of v.items) ≡ addends_of (map part_of parts.items)) }
{
    let mut addends = Vec::new(alloc);
    for part in parts {
        addends.push(Addend {
            operator: addend_operator(part.operator),
            pos: part.pos,
            operand: part.operand,
        })?;
    }
    Ok(addends)
}

fn factors(alloc: Global, parts: Vec<Part>) -> Result<Vec<Factor>, AllocError>
    ensures { IfOk result (λ v. typed.factors_of (map factor_of v.items) ≡ factors_of (map part_of parts.items)) }
{
    let mut factors = Vec::new(alloc);
    for part in parts {
        factors.push(Factor {
            operator: factor_operator(part.operator),
            pos: part.pos,
            operand: part.operand,
        })?;
    }
    Ok(factors)
}

fn members(alloc: Global, parts: Vec<Part>) -> Result<Vec<Member>, AllocError>
    ensures { IfOk result (λ v. typed.members_of (map member_of v.items) ≡ members_of (map part_of parts.items)) }
{
    let mut members = Vec::new(alloc);
    for part in parts {
        members.push(Member {
            pos: part.pos,
            operand: part.operand,
        })?;
    }
    Ok(members)
}

fn links(alloc: Global, parts: Vec<Part>) -> Result<Vec<Link>, AllocError>
    ensures { IfOk result (λ v. typed.links_of (map link_of v.items) ≡ links_of (map part_of parts.items)) }
{
    let mut links = Vec::new(alloc);
    for part in parts {
        links.push(Link {
            comparison: comparison_of(part.operator),
            pos: part.pos,
            operand: part.operand,
        })?;
    }
    Ok(links)
}

/// A sum of the type.
pub(crate) fn sum(alloc: Global, ty: Ty, first: Expr, parts: Vec<Part>) -> Result<Expr, AllocError>
    ensures { IfOk result (λ e. typed.expr_of e ≡ pure.Sum ty (typed.expr_of first) (addends_of (map part_of parts.items))) }
{
    let first = Box::new(alloc, first)?;
    let rest = addends(alloc, parts)?;
    Ok(Expr::Sum { ty, first, rest })
}

/// A product of the type.
pub(crate) fn product(
    alloc: Global,
    ty: Ty,
    first: Expr,
    parts: Vec<Part>,
) -> Result<Expr, AllocError>
    ensures { IfOk result (λ e. typed.expr_of e ≡ pure.Product ty (typed.expr_of first) (factors_of (map part_of parts.items))) }
{
    let first = Box::new(alloc, first)?;
    let rest = factors(alloc, parts)?;
    Ok(Expr::Product { ty, first, rest })
}

/// A chain of comparisons of values of the type.
fn chain(alloc: Global, ty: Ty, first: Expr, parts: Vec<Part>) -> Result<Expr, AllocError>
    ensures { IfOk result (λ e. typed.expr_of e ≡ pure.Chain ty (typed.expr_of first) (links_of (map part_of parts.items))) }
{
    let first = Box::new(alloc, first)?;
    let rest = links(alloc, parts)?;
    Ok(Expr::Chain { ty, first, rest })
}

fn junction(
    alloc: Global,
    junction: Junction,
    first: Expr,
    parts: Vec<Part>,
) -> Result<Expr, AllocError>
    ensures { IfOk result (λ e. typed.expr_of e ≡ pure.Junction junction (typed.expr_of first) (members_of (map part_of parts.items))) }
{
    let first = Box::new(alloc, first)?;
    let rest = members(alloc, parts)?;
    Ok(Expr::Junction {
        junction,
        first,
        rest,
    })
}

fn implies(alloc: Global, first: Expr, parts: Vec<Part>) -> Result<Expr, AllocError>
    ensures { IfOk result (λ e. typed.expr_of e ≡ pure.Implies arrows.Implies (typed.expr_of first) (members_of (map part_of parts.items))) }
{
    let first = Box::new(alloc, first)?;
    let rest = members(alloc, parts)?;
    Ok(Expr::Implies {
        arrow: Arrow::Implies,
        first,
        rest,
    })
}

fn iff(alloc: Global, first: Expr, parts: Vec<Part>) -> Result<Expr, AllocError>
    ensures { IfOk result (λ e. typed.expr_of e ≡ pure.Iff (typed.expr_of first) (members_of (map part_of parts.items))) }
{
    let first = Box::new(alloc, first)?;
    let rest = members(alloc, parts)?;
    Ok(Expr::Iff { first, rest })
}

/// Implications from the right, of a run of `<==`.
fn explied(alloc: Global, first: Expr, rest: Vec<Member>) -> Result<Expr, AllocError>
    ensures { IfOk result (λ e. typed.expr_of e ≡ pure.Implies arrows.Explies (typed.expr_of first) (typed.members_of (map member_of rest.items))) }
{
    let first = Box::new(alloc, first)?;
    Ok(Expr::Implies {
        arrow: Arrow::Explies,
        first,
        rest,
    })
}

/// A run of `<==` as one of `==>` from the right.
fn turned(alloc: Global, mut first: Expr, parts: Vec<Part>) -> Result<Expr, AllocError>
    ensures { IfOk result (λ e. typed.expr_of e ≡ turned (typed.expr_of first) pure.no_member (map part_of parts.items)) }
{
    let mut rest = Vec::new(alloc);
    for part in parts {
        rest.push(Member {
            pos: part.pos,
            operand: first,
        })?;
        first = part.operand;
    }
    rest.reverse();
    explied(alloc, first, rest)
}

/// The typed expression of a run of the group.
pub(crate) fn run_expr(
    alloc: Global,
    group: Option<Group>,
    of: Ty,
    first: Expr,
    parts: Vec<Part>,
) -> Result<Expr, AllocError>
    ensures { IfOk result (λ e. typed.expr_of e ≡ run_expr group of (typed.expr_of first) (map part_of parts.items)) }
{
    match group {
        Some(Group::Sum) => sum(alloc, of, first, parts),
        Some(Group::Product) => product(alloc, of, first, parts),
        Some(Group::Comparison) => chain(alloc, of, first, parts),
        Some(Group::Conjunction) => junction(alloc, Junction::And, first, parts),
        Some(Group::Disjunction) => junction(alloc, Junction::Or, first, parts),
        Some(Group::Implication) => implies(alloc, first, parts),
        Some(Group::Explication) => turned(alloc, first, parts),
        Some(Group::Equivalence) | None => iff(alloc, first, parts),
    }
}
