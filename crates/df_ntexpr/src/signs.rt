//! Signs between operands that were looked at, and whole runs.

ghost use Rattle.std.specs.Prelude.{◌≡◌, ◌<◌, ◌+◌, length, drop, ◌&&◌, ◌||◌, not, true, map, Some, None, if◌then◌else◌, IfOk, option_map};
ghost use Rattle.df_lang.specs.ExprView as typed;
ghost use Rattle.df_ntree.specs.Expr as tree;
ghost use Rattle.df_ntyping.specs.Types as types;
ghost use Rattle.df_ntyping.specs.ExprTypes as shapes;
ghost use Rattle.df_ntyping.specs.mirror.Parts.{type_of_operand, breach, or_start};
ghost use Rattle.df_ntyping.specs.Rule as rules;
ghost use Rattle.df_ntexpr.specs.Parts.{typed_of, operand_of, row_of, part_of, typing_rule, breaches, Gives};
ghost use Rattle.df_ntyping.specs.mirror.Signs as signs;
ghost use Rattle.df_ntyping.specs.mirror.Signs.{beside, rule_of, takes_by, is_implication, or_side, left_behind, sign_holds, is_truth_side, is_last, wrong_at, whole_run, first_type, type_of_run, converted_to, settled, settled_parts, run_ty, run_of};

use crate::broken::{Broken, Halt, Rule, breach};
use crate::literals::opened;
use crate::part::{Part, Row, Typed};
use crate::runs::run_expr;
use df_base::{Global, Pos};
use df_lang::{Expr, Ty};
use df_nenv::is_arithmetic;
use df_nrules::{
    are_one_integer, are_ordered, counted, counted_of, is_truth, literal_type, one_fits, pos_of,
    run_begins, same_type,
};
use df_ntree as tree;
use df_ntree::{BinaryOperator, Group, Operation};
use std::alloc::AllocError;

/// The type of an operand that is not made of literals alone.
pub(crate) fn type_of(operand: &Option<Typed>) -> Option<Ty>
    ensures { result ≡ type_of_operand (operand_of operand.now) }
{
    match operand {
        Some(typed) => Some(typed.ty),
        None => None,
    }
}

/// What a side counts as beside the other: one made of literals takes the type of the other.
fn beside(side: Option<Ty>, other: Option<Ty>) -> Ty
    ensures { result ≡ beside side other }
{
    match side {
        Some(ty) => ty,
        None => literal_type(counted_of(other)),
    }
}

/// The rule that a sign can break.
pub(crate) fn rule_of(operator: BinaryOperator) -> Rule
    ensures { typing_rule result ≡ rule_of operator }
{
    match operator {
        BinaryOperator::Equal | BinaryOperator::NotEqual => Rule::Equality,
        BinaryOperator::Less
        | BinaryOperator::AtMost
        | BinaryOperator::Greater
        | BinaryOperator::AtLeast => Rule::Order,
        BinaryOperator::Add
        | BinaryOperator::Subtract
        | BinaryOperator::Multiply
        | BinaryOperator::Divide
        | BinaryOperator::Modulo => Rule::Arithmetic,
        BinaryOperator::Iff
        | BinaryOperator::Implies
        | BinaryOperator::Explies
        | BinaryOperator::And
        | BinaryOperator::Or => Rule::Truths,
    }
}

/// Whether a sign of the rule takes operands of the types.
fn takes_by(rule: Rule, left: Ty, right: Ty) -> bool
    ensures { result ≡ takes_by (typing_rule rule) left right }
{
    match rule {
        Rule::Equality => one_fits(left, right),
        Rule::Order => are_ordered(left, right),
        Rule::Arithmetic => are_one_integer(left, right),
        _ => is_truth(left) && is_truth(right),
    }
}

fn is_implication(group: Option<Group>) -> bool
    ensures { result ≡ is_implication group }
{
    match group {
        Some(Group::Implication) => true,
        _ => false,
    }
}

/// Whether a sign takes its operands, as far as that is told at once.
pub(crate) fn sign_holds(
    group: Option<Group>,
    operator: BinaryOperator,
    left: Option<Ty>,
    right: Option<Ty>,
) -> bool
    ensures { result ≡ sign_holds group operator left right }
{
    is_implication(group) || takes_by(rule_of(operator), beside(left, right), beside(right, left))
}

fn or_side(side: Option<Ty>, other: Option<Ty>) -> Option<Ty>
    ensures { result ≡ or_side side other }
{
    match side {
        Some(ty) => Some(ty),
        None => other,
    }
}

/// What stands on the left of the next sign.
pub(crate) fn left_behind(group: Option<Group>, left: Option<Ty>, right: Option<Ty>) -> Option<Ty>
    ensures { result ≡ left_behind group left right }
{
    match group {
        Some(Group::Sum | Group::Product) => counted_of(or_side(left, right)),
        Some(Group::Comparison) => or_side(right, counted_of(left)),
        _ => Some(Ty::Bool),
    }
}

pub(crate) fn is_truth_side(side: Option<Ty>) -> bool
    ensures { result ≡ is_truth_side side }
{
    match side {
        Some(ty) => is_truth(ty),
        None => false,
    }
}

/// Whether an implication has truths; what stands on its right is looked at where no sign follows.
fn has_truths(left: Option<Ty>, right: Option<Ty>, is_last: bool) -> bool
    ensures { result ≡ (is_truth_side left && (is_truth_side right || not is_last)) }
{
    is_truth_side(left) && (is_truth_side(right) || !is_last)
}

/// The rule is broken at the sign, unless it holds there.
fn unless(holds: bool, wrong: Option<Broken>, pos: Pos, is_whole: bool) -> Option<Broken>
    ensures { breaches result ≡ (if holds then breaches wrong else Some (breach rules.Truths pos is_whole)) }
{
    if holds {
        wrong
    } else {
        Some(Broken {
            rule: Rule::Truths,
            pos,
            is_whole,
        })
    }
}

/// Whether no row is left behind this one.
fn is_last(rows: &[Row<'_>], i: usize) -> bool
    requires { i < length rows.now }
    ensures { result ≡ is_last (map row_of (drop (i + 1) rows.now)) }
{
    i + 1 == rows.len()
}

/// Of implications, which hold to the right, the last one that has no truths.
fn wrong_at(mut left: Option<Ty>, rows: &[Row<'_>]) -> Option<Broken>
    ensures { breaches result ≡ wrong_at true left (map row_of rows.now) }
{
    let mut wrong = None;
    for (i, row) in rows.iter().enumerate() {
        let right = type_of(&row.typed);
        let holds = has_truths(left, right, is_last(rows, i));
        wrong = unless(holds, wrong, row.pos, i == 0);
        left = right;
    }
    wrong
}

fn rises(operator: BinaryOperator) -> bool
    ensures { result ≡ types.rises operator }
{
    match operator {
        BinaryOperator::Less | BinaryOperator::AtMost | BinaryOperator::Equal => true,
        _ => false,
    }
}

fn falls(operator: BinaryOperator) -> bool
    ensures { result ≡ types.falls operator }
{
    match operator {
        BinaryOperator::Greater | BinaryOperator::AtLeast | BinaryOperator::Equal => true,
        _ => false,
    }
}

fn all_rise(rest: &[Operation]) -> bool
    ensures { result ≡ types.all_of types.rises (tree.members_of (map tree.operation_of rest.now)) }
{
    for operation in rest {
        if !rises(operation.operator) {
            return false;
        }
    }
    true
}

fn all_fall(rest: &[Operation]) -> bool
    ensures { result ≡ types.all_of types.falls (tree.members_of (map tree.operation_of rest.now)) }
{
    for operation in rest {
        if !falls(operation.operator) {
            return false;
        }
    }
    true
}

fn is_single(rest: &[Operation]) -> bool
    ensures { result ≡ types.is_single (tree.members_of (map tree.operation_of rest.now)) }
{
    rest.len() == 1
}

/// Whether a chain keeps its direction.
fn keeps_direction(rest: &[Operation]) -> bool
    ensures { result ≡ types.keeps_direction (tree.members_of (map tree.operation_of rest.now)) }
{
    is_single(rest) || all_rise(rest) || all_fall(rest)
}

/// Looks at a whole run, after its last operand.
pub(crate) fn whole_run(
    group: Option<Group>,
    left: Option<Ty>,
    rest: &[Operation],
    rows: &[Row<'_>],
) -> Result<(), Halt>
    ensures { Gives (λ done. done) result (whole_run group left (tree.members_of (map tree.operation_of rest.now)) (map row_of rows.now)) }
{
    match group {
        Some(Group::Comparison) => {
            if keeps_direction(rest) {
                Ok(())
            } else {
                Err(breach(Rule::Direction, run_begins(rest), true))
            }
        }
        Some(Group::Implication) => match wrong_at(left, rows) {
            Some(broken) => Err(Halt::Broken(broken)),
            None => Ok(()),
        },
        _ => Ok(()),
    }
}

/// The type of the first operand that is not made of literals alone.
fn first_type(rows: &[Row<'_>]) -> Option<Ty>
    ensures { result ≡ first_type (map row_of rows.now) }
{
    for row in rows {
        if let Some(ty) = type_of(&row.typed) {
            return Some(ty);
        }
    }
    None
}

/// What all operands of a run count as.
fn type_of_run(known: Option<Ty>) -> Ty
    ensures { result ≡ type_of_run known }
{
    match known {
        Some(ty) => counted(ty),
        None => Ty::Int,
    }
}

/// A value at a place of the type.
pub(crate) fn converted(
    alloc: Global,
    target: Ty,
    pos: Pos,
    value: Typed,
) -> Result<Expr, AllocError>
    ensures { IfOk result (λ e. typed.expr_of e ≡ converted_to target pos (typed_of value)) }
{
    if same_type(value.ty, target) {
        return Ok(value.expr);
    }
    let source = value.ty;
    let operand = Box::new(alloc, value.expr)?;
    Ok(Expr::Convert {
        source,
        target,
        pos,
        operand,
    })
}

/// An operand at a place of the type.
pub(crate) fn settled(
    alloc: Global,
    of: Ty,
    e: &tree::Expr,
    operand: Option<Typed>,
) -> Result<Expr, AllocError>
    ensures { IfOk result (λ x. typed.expr_of x ≡ settled of (tree.expr_of e.now) (operand_of operand)) }
{
    let typed = match operand {
        Some(typed) => typed,
        None => opened(alloc, of, e)?,
    };
    converted(alloc, of, pos_of(e), typed)
}

/// The operations of a run, their operands of one type.
fn settled_parts(alloc: Global, of: Ty, rows: Vec<Row<'_>>) -> Result<Vec<Part>, AllocError>
    ensures { IfOk result (λ v. map part_of v.items ≡ settled_parts of (map row_of rows.entry.items)) }
{
    let mut parts = Vec::new(alloc);
    for row in rows {
        let operand = settled(alloc, of, row.operand, row.typed)?;
        parts.push(Part {
            operator: row.operator,
            pos: row.pos,
            operand,
        })?;
    }
    Ok(parts)
}

/// The type of a run whose operands count as the type.
fn run_ty(group: Option<Group>, of: Ty) -> Ty
    ensures { result ≡ run_ty group of }
{
    match group {
        Some(Group::Sum | Group::Product) => of,
        _ => Ty::Bool,
    }
}

/// The typed run; none where it is made of literals alone.
pub(crate) fn run_of(
    alloc: Global,
    group: Option<Group>,
    first: &tree::Expr,
    head: Option<Typed>,
    rows: Vec<Row<'_>>,
) -> Result<Option<Typed>, AllocError>
    ensures { IfOk result (λ o. operand_of o ≡ run_of group (tree.expr_of first.now) (operand_of head) (map row_of rows.entry.items)) }
{
    let known = or_side(type_of(&head), first_type(&rows));
    if is_arithmetic(group) && known.is_none() {
        drop(head);
        return Ok(None);
    }
    let of = type_of_run(known);
    let first = settled(alloc, of, first, head)?;
    match settled_parts(alloc, of, rows) {
        Ok(parts) => {
            let expr = run_expr(alloc, group, of, first, parts)?;
            Ok(Some(Typed {
                ty: run_ty(group, of),
                expr,
            }))
        }
        Err(error) => {
            drop(first);
            Err(error)
        }
    }
}
