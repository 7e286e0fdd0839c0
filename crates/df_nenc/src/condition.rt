//! Conditions under which expressions have values.
#![tactic(auto, using(crate::proofs::Growing::grows_then, crate::proofs::Reaching::extends_then, crate::proofs::Reaching::extends_nodes))]

ghost use Rattle.std.specs.Prelude.{◌≡◌, pos, true, IfOk, OnOk};
ghost use Rattle.df_lang.specs.declared.ty.Ty.TheVariants as types;
ghost use Rattle.df_lang.specs.declared.expr.FactorOperator.TheVariants as factors;
ghost use Rattle.df_meaning.specs.declared.kind.Kind.TheVariants as kinds;
ghost use Rattle.df_nterm.specs.Term.{Numbers, Truths, sort_of_type};
ghost use Rattle.df_nterm.specs.Term as trees;
ghost use Rattle.df_nterm.specs.Expressions as expressions;
ghost use Rattle.df_nenc.specs.Tree.{tree_at, path_in};
ghost use Rattle.df_nenc.specs.Growing.{Grows, IsFront};
ghost use Rattle.df_nenc.specs.Standing.{IsTerm, Stands, IsPath, counts_as_number, narrows};
ghost use Rattle.df_nenc.specs.Encoding.{Adds, Extends};

use crate::comparison::{at_most, equal};
use crate::operation::{both, implies, is_of, literal, negation};
use df_base::Pos;
use df_form::{Formula, Kind, Nodes, Term};
use df_lang::{FactorOperator, Ty};
use std::alloc::{AllocError, Global};

/// What is to be true for a value to be there, by the node of the program that asks for it.
#[derive(Clone, Copy)]
pub struct Condition {
    pub pos: Pos,
    pub kind: Kind,
    pub formula: Formula,
}

/// What is asked only of the runs that come to a place: those of which a formula is true, or all.
pub fn on_path(
    alloc: Global,
    nodes: &mut Nodes,
    path: Option<Formula>,
    formula: Formula,
) -> Result<Formula, AllocError>
    requires path { IsPath nodes.old path }
    requires formula { IsTerm Truths nodes.old formula }
    ensures stands { IfOk result (λ n. Stands nodes.new (expressions.on_path (path_in nodes.old path) (tree_at nodes.old formula)) n) }
    ensures grows { Grows nodes.old nodes.new }
{
    match path {
        None => Ok(formula),
        Some(path) => implies(alloc, nodes, path, formula),
    }
}

/// The formula of a place further on, where another one is true too.
pub fn narrowed_path(
    alloc: Global,
    nodes: &mut Nodes,
    path: Option<Formula>,
    formula: Formula,
) -> Result<Formula, AllocError>
    requires path { IsPath nodes.old path }
    requires formula { IsTerm Truths nodes.old formula }
    ensures stands { IfOk result (λ n. Stands nodes.new (expressions.narrowed_path (path_in nodes.old path) (tree_at nodes.old formula)) n) }
    ensures grows { Grows nodes.old nodes.new }
{
    match path {
        None => Ok(formula),
        Some(path) => both(alloc, nodes, path, formula),
    }
}

/// Adds a condition.
pub(crate) fn owe(
    alloc: Global,
    nodes: &mut Nodes,
    path: Option<Formula>,
    pos: Pos,
    kind: Kind,
    formula: Formula,
    out: &mut Vec<Condition>,
) -> Result<(), AllocError>
    requires path { IsPath nodes.old path }
    requires formula { IsTerm Truths nodes.old formula }
    ensures adds { OnOk result (Adds nodes.new (expressions.under (path_in nodes.old path) (expressions.condition pos kind (tree_at nodes.old formula))) out.old.items out.new.items) }
    ensures extends { Extends nodes.old nodes.new out.old.items out.new.items }
{
    let formula = on_path(alloc, nodes, path, formula)?;
    out.push(Condition { pos, kind, formula })?;
    Ok(())
}

/// That a number is the code of a character.
fn is_code(alloc: Global, nodes: &mut Nodes, number: Term) -> Result<Formula, AllocError>
    requires { IsTerm Numbers nodes.old number }
    ensures stands { IfOk result (λ n. Stands nodes.new (trees.both (trees.at_most (trees.literal (pos 0)) (tree_at nodes.old number)) (trees.at_most (tree_at nodes.old number) (trees.literal (pos 127)))) n) }
    ensures grows { Grows nodes.old nodes.new }
{
    let first = literal(alloc, nodes, 0)?;
    let is_from_first = at_most(alloc, nodes, first, number)?;
    let last = literal(alloc, nodes, 127)?;
    let is_to_last = at_most(alloc, nodes, number, last)?;
    both(alloc, nodes, is_from_first, is_to_last)
}

/// Adds that a value is one of the type, which is not `bool`.
fn owe_type(
    alloc: Global,
    nodes: &mut Nodes,
    path: Option<Formula>,
    ty: Ty,
    pos: Pos,
    value: Term,
    out: &mut Vec<Condition>,
) -> Result<(), AllocError>
    requires typed { counts_as_number ty ≡ true }
    requires path { IsPath nodes.old path }
    requires value { IsTerm (sort_of_type ty) nodes.old value }
    ensures adds { OnOk result (Adds nodes.new (expressions.under (path_in nodes.old path) (expressions.condition pos kinds.Range (trees.of_one (trees.Is ty) (tree_at nodes.old value)))) out.old.items out.new.items) }
    ensures extends { Extends nodes.old nodes.new out.old.items out.new.items }
{
    let formula = is_of(alloc, nodes, ty, value)?;
    owe(alloc, nodes, path, pos, Kind::Range, formula, out)
}

/// Adds that a number is the code of a character.
fn owe_code(
    alloc: Global,
    nodes: &mut Nodes,
    path: Option<Formula>,
    pos: Pos,
    number: Term,
    out: &mut Vec<Condition>,
) -> Result<(), AllocError>
    requires path { IsPath nodes.old path }
    requires number { IsTerm Numbers nodes.old number }
    ensures adds { OnOk result (Adds nodes.new (expressions.under (path_in nodes.old path) (expressions.in_range types.Char pos (tree_at nodes.old number))) out.old.items out.new.items) }
    ensures extends { Extends nodes.old nodes.new out.old.items out.new.items }
{
    let formula = is_code(alloc, nodes, number)?;
    owe(alloc, nodes, path, pos, Kind::Range, formula, out)
}

/// Adds that the number is one of the type: any number is an `int`; of a character it is the code.
pub(crate) fn owe_range(
    alloc: Global,
    nodes: &mut Nodes,
    path: Option<Formula>,
    ty: Ty,
    pos: Pos,
    number: Term,
    out: &mut Vec<Condition>,
) -> Result<(), AllocError>
    requires path { IsPath nodes.old path }
    requires number { IsTerm Numbers nodes.old number }
    ensures adds { OnOk result (Adds nodes.new (expressions.under (path_in nodes.old path) (expressions.in_range ty pos (tree_at nodes.old number))) out.old.items out.new.items) }
    ensures extends { Extends nodes.old nodes.new out.old.items out.new.items }
{
    match ty {
        Ty::Newtype(_) => owe_type(alloc, nodes, path, ty, pos, number, out),
        Ty::Nat => owe_type(alloc, nodes, path, ty, pos, number, out),
        Ty::Char => owe_code(alloc, nodes, path, pos, number, out),
        Ty::Int => Ok(()),
        Ty::Bool => Ok(()),
    }
}

/// Adds that a number is not 0.
fn owe_nonzero(
    alloc: Global,
    nodes: &mut Nodes,
    path: Option<Formula>,
    pos: Pos,
    number: Term,
    out: &mut Vec<Condition>,
) -> Result<(), AllocError>
    requires path { IsPath nodes.old path }
    requires number { IsTerm Numbers nodes.old number }
    ensures adds { OnOk result (Adds nodes.new (expressions.under (path_in nodes.old path) (expressions.divides factors.Divide pos (tree_at nodes.old number))) out.old.items out.new.items) }
    ensures extends { Extends nodes.old nodes.new out.old.items out.new.items }
{
    let zero = literal(alloc, nodes, 0)?;
    let is_zero = equal(alloc, nodes, number, zero)?;
    let formula = negation(alloc, nodes, is_zero)?;
    owe(alloc, nodes, path, pos, Kind::Divisor, formula, out)
}

/// Adds that a divisor is not 0.
pub(crate) fn owe_divisor(
    alloc: Global,
    nodes: &mut Nodes,
    path: Option<Formula>,
    operator: FactorOperator,
    pos: Pos,
    number: Term,
    out: &mut Vec<Condition>,
) -> Result<(), AllocError>
    requires path { IsPath nodes.old path }
    requires number { IsTerm Numbers nodes.old number }
    ensures adds { OnOk result (Adds nodes.new (expressions.under (path_in nodes.old path) (expressions.divides operator pos (tree_at nodes.old number))) out.old.items out.new.items) }
    ensures extends { Extends nodes.old nodes.new out.old.items out.new.items }
{
    match operator {
        FactorOperator::Times => Ok(()),
        FactorOperator::Divide => owe_nonzero(alloc, nodes, path, pos, number, out),
        FactorOperator::Modulo => owe_nonzero(alloc, nodes, path, pos, number, out),
    }
}

/// Whether values of the one type are narrowed to the other.
fn is_narrowed(source: Ty, target: Ty) -> bool
    ensures { result ≡ narrows source target }
{
    match (source, target) {
        (Ty::Int, Ty::Nat) => true,
        (Ty::Int, Ty::Newtype(_) | Ty::Int | Ty::Bool | Ty::Char)
        | (Ty::Newtype(_) | Ty::Nat | Ty::Bool | Ty::Char, _) => false,
    }
}

/// Adds what it is for a value to stand at a place of another type: from `int` to `nat` it must be one.
pub fn owe_narrowing(
    alloc: Global,
    nodes: &mut Nodes,
    path: Option<Formula>,
    source: Ty,
    target: Ty,
    pos: Pos,
    value: Term,
    out: &mut Vec<Condition>,
) -> Result<(), AllocError>
    requires path { IsPath nodes.old path }
    requires value { IsTerm (sort_of_type source) nodes.old value }
    ensures adds { OnOk result (Adds nodes.new (expressions.under (path_in nodes.old path) (expressions.narrowing source target pos (tree_at nodes.old value))) out.old.items out.new.items) }
    ensures grows { Grows nodes.old nodes.new }
    ensures begins { IsFront out.old.items out.new.items }
{
    if is_narrowed(source, target) {
        owe_range(alloc, nodes, path, Ty::Nat, pos, value, out)
    } else {
        Ok(())
    }
}
