//! Comparisons of terms.
#![tactic(auto, using(crate::proofs::Growing::grows_not, crate::proofs::Growing::grows_then, crate::proofs::Growing::term_stays, crate::proofs::Growing::path_stays))]

ghost use Rattle.std.specs.Prelude.{◌≡◌, ◌<◌, length, true, IfOk};
ghost use Rattle.df_nterm.specs.Term.{Numbers, Truths, sort_of_type};
ghost use Rattle.df_nterm.specs.Term as trees;
ghost use Rattle.df_nterm.specs.Expressions as expressions;
ghost use Rattle.df_nenc.specs.Tree.{sort_of_term, tree_at};
ghost use Rattle.df_nenc.specs.Growing.{Grows};
ghost use Rattle.df_nenc.specs.Standing.{IsTerm, Stands, counts_as_number, may_compare};

use crate::making::{of_numbers, two};
use crate::operation::{iff, negation, number_in};
use df_form::{Formula, Nodes, Op, Term};
use df_lang::{Comparison, Ty};
use std::alloc::{AllocError, Global};

/// That two numbers, or two characters, are equal.
pub fn equal(
    alloc: Global,
    nodes: &mut Nodes,
    left: Term,
    right: Term,
) -> Result<Formula, AllocError>
    requires left { left < length nodes.old }
    requires right { right < length nodes.old }
    requires alike { sort_of_term (tree_at nodes.old left) ≡ sort_of_term (tree_at nodes.old right) }
    requires values { sort_of_term (tree_at nodes.old left) ≡ Truths → ⊥ }
    ensures stands { IfOk result (λ n. Stands nodes.new (trees.equal (tree_at nodes.old left) (tree_at nodes.old right)) n) }
    ensures grows { Grows nodes.old nodes.new }
{
    two(alloc, nodes, Op::Equal, left, right)
}

/// That two values of the type are equal.
pub fn equal_in(
    alloc: Global,
    nodes: &mut Nodes,
    ty: Ty,
    left: Term,
    right: Term,
) -> Result<Formula, AllocError>
    requires left { IsTerm (sort_of_type ty) nodes.old left }
    requires right { IsTerm (sort_of_type ty) nodes.old right }
    ensures stands { IfOk result (λ n. Stands nodes.new (expressions.equal_in ty (tree_at nodes.old left) (tree_at nodes.old right)) n) }
    ensures grows { Grows nodes.old nodes.new }
{
    match ty {
        Ty::Bool => iff(alloc, nodes, left, right),
        Ty::Newtype(_) | Ty::Int | Ty::Nat | Ty::Char => equal(alloc, nodes, left, right),
    }
}

/// That the first number is at most the second.
pub fn at_most(
    alloc: Global,
    nodes: &mut Nodes,
    left: Term,
    right: Term,
) -> Result<Formula, AllocError>
    requires left { IsTerm Numbers nodes.old left }
    requires right { IsTerm Numbers nodes.old right }
    ensures stands { IfOk result (λ n. Stands nodes.new (trees.at_most (tree_at nodes.old left) (tree_at nodes.old right)) n) }
    ensures grows { Grows nodes.old nodes.new }
{
    of_numbers(alloc, nodes, Op::AtMost, left, right)
}

/// That the first number is less than the second.
pub fn less(
    alloc: Global,
    nodes: &mut Nodes,
    left: Term,
    right: Term,
) -> Result<Formula, AllocError>
    requires left { IsTerm Numbers nodes.old left }
    requires right { IsTerm Numbers nodes.old right }
    ensures stands { IfOk result (λ n. Stands nodes.new (trees.less (tree_at nodes.old left) (tree_at nodes.old right)) n) }
    ensures grows { Grows nodes.old nodes.new }
{
    let is_at_most = at_most(alloc, nodes, right, left)?;
    negation(alloc, nodes, is_at_most)
}

/// That the first of two numbers or characters is at most the second, by their codes.
fn at_most_in(
    alloc: Global,
    nodes: &mut Nodes,
    ty: Ty,
    left: Term,
    right: Term,
) -> Result<Formula, AllocError>
    requires counts { counts_as_number ty ≡ true }
    requires left { IsTerm (sort_of_type ty) nodes.old left }
    requires right { IsTerm (sort_of_type ty) nodes.old right }
    ensures stands { IfOk result (λ n. Stands nodes.new (trees.at_most (expressions.number_in ty (tree_at nodes.old left)) (expressions.number_in ty (tree_at nodes.old right))) n) }
    ensures grows { Grows nodes.old nodes.new }
{
    let left = number_in(alloc, nodes, ty, left)?;
    let right = number_in(alloc, nodes, ty, right)?;
    at_most(alloc, nodes, left, right)
}

/// Two neighbours of a chain compare so; characters by their codes.
pub(crate) fn compared(
    alloc: Global,
    nodes: &mut Nodes,
    ty: Ty,
    comparison: Comparison,
    left: Term,
    right: Term,
) -> Result<Formula, AllocError>
    requires compares { may_compare ty comparison ≡ true }
    requires left { IsTerm (sort_of_type ty) nodes.old left }
    requires right { IsTerm (sort_of_type ty) nodes.old right }
    ensures stands { IfOk result (λ n. Stands nodes.new (expressions.compared ty comparison (tree_at nodes.old left) (tree_at nodes.old right)) n) }
    ensures grows { Grows nodes.old nodes.new }
{
    match comparison {
        Comparison::Equal => equal_in(alloc, nodes, ty, left, right),
        Comparison::NotEqual => {
            let is_equal = equal_in(alloc, nodes, ty, left, right)?;
            negation(alloc, nodes, is_equal)
        }
        Comparison::AtMost => at_most_in(alloc, nodes, ty, left, right),
        Comparison::AtLeast => at_most_in(alloc, nodes, ty, right, left),
        Comparison::Less => {
            let is_at_most = at_most_in(alloc, nodes, ty, right, left)?;
            negation(alloc, nodes, is_at_most)
        }
        Comparison::Greater => {
            let is_at_most = at_most_in(alloc, nodes, ty, left, right)?;
            negation(alloc, nodes, is_at_most)
        }
    }
}
