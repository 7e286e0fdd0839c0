//! Nodes by their operations.
#![tactic(auto, using(crate::proofs::Growing::grows_not, crate::proofs::Growing::grows_then, crate::proofs::Growing::term_stays, crate::proofs::Growing::path_stays))]

ghost use Rattle.std.specs.Prelude.{◌≡◌, true, [], ◌∷◌, map, IfOk};
ghost use Rattle.df_form.specs.Sorting.{is_well_sorted, takes};
ghost use Rattle.df_form.specs.declared.node.Sort.TheVariants as sorts;
ghost use Rattle.df_nterm.specs.Term as trees;
ghost use Rattle.df_nenc.specs.Tree.{op_of, tree_at};
ghost use Rattle.df_nenc.specs.Growing.{Grows};
ghost use Rattle.df_nenc.specs.Standing.{IsTerm, Stands};

use df_form::{Arena, Formula, NodeTable, Nodes, Op, Term};
use std::alloc::{AllocError, Global};

/// The number of the operation on these parts, which is added last where it does not stand yet.
pub(crate) fn make(
    _alloc: Global,
    nodes: &mut Nodes,
    op: Op,
    parts: &[Term],
) -> Result<Term, AllocError>
    requires { is_well_sorted nodes.old (record { op = op; parts = parts.now }) ≡ true }
    ensures stands { IfOk result (λ n. Stands nodes.new (trees.node (op_of op) (trees.terms_of (map (tree_at nodes.old) parts.now))) n) }
    ensures grows { Grows nodes.old nodes.new }
{
    let _ = nodes.len();
    nodes.add(op, parts)
}

/// The number of an operation that takes no parts.
pub(crate) fn none(alloc: Global, nodes: &mut Nodes, op: Op) -> Result<Term, AllocError>
    requires { is_well_sorted nodes.old (record { op = op; parts = [] }) ≡ true }
    ensures stands { IfOk result (λ n. Stands nodes.new (trees.node (op_of op) trees.no_term) n) }
    ensures grows { Grows nodes.old nodes.new }
{
    make(alloc, nodes, op, &[])
}

/// The number of the operation on one part.
pub(crate) fn one(alloc: Global, nodes: &mut Nodes, op: Op, part: Term) -> Result<Term, AllocError>
    requires { is_well_sorted nodes.old (record { op = op; parts = part ∷ [] }) ≡ true }
    ensures stands { IfOk result (λ n. Stands nodes.new (trees.of_one (op_of op) (tree_at nodes.old part)) n) }
    ensures grows { Grows nodes.old nodes.new }
{
    make(alloc, nodes, op, &[part])
}

/// The number of the operation on two parts.
pub(crate) fn two(
    alloc: Global,
    nodes: &mut Nodes,
    op: Op,
    left: Term,
    right: Term,
) -> Result<Term, AllocError>
    requires { is_well_sorted nodes.old (record { op = op; parts = left ∷ right ∷ [] }) ≡ true }
    ensures stands { IfOk result (λ n. Stands nodes.new (trees.of_two (op_of op) (tree_at nodes.old left) (tree_at nodes.old right)) n) }
    ensures grows { Grows nodes.old nodes.new }
{
    make(alloc, nodes, op, &[left, right])
}

/// The number of an operation on two numbers.
pub(crate) fn of_numbers(
    alloc: Global,
    nodes: &mut Nodes,
    op: Op,
    left: Term,
    right: Term,
) -> Result<Term, AllocError>
    requires takes { takes op (sorts.Number ∷ sorts.Number ∷ []) ≡ true }
    requires left { IsTerm trees.Numbers nodes.old left }
    requires right { IsTerm trees.Numbers nodes.old right }
    ensures stands { IfOk result (λ n. Stands nodes.new (trees.of_two (op_of op) (tree_at nodes.old left) (tree_at nodes.old right)) n) }
    ensures grows { Grows nodes.old nodes.new }
{
    two(alloc, nodes, op, left, right)
}

/// The number of an operation on two formulas.
pub(crate) fn of_formulas(
    alloc: Global,
    nodes: &mut Nodes,
    op: Op,
    left: Formula,
    right: Formula,
) -> Result<Formula, AllocError>
    requires takes { takes op (sorts.Truth ∷ sorts.Truth ∷ []) ≡ true }
    requires left { IsTerm trees.Truths nodes.old left }
    requires right { IsTerm trees.Truths nodes.old right }
    ensures stands { IfOk result (λ n. Stands nodes.new (trees.of_two (op_of op) (tree_at nodes.old left) (tree_at nodes.old right)) n) }
    ensures grows { Grows nodes.old nodes.new }
{
    two(alloc, nodes, op, left, right)
}
