//! That one measure is below another.
#![tactic(auto, using(df_nenc::proofs::Growing::grows_not, df_nenc::proofs::Growing::grows_then, df_nenc::proofs::Growing::term_stays))]

ghost use Rattle.std.specs.Prelude.{◌≡◌, drop, IfOk};
ghost use Rattle.df_nterm.specs.Term.{Numbers, Truths, Characters};
ghost use Rattle.df_nterm.specs.Measuring as measuring;
ghost use Rattle.df_nenc.specs.Tree.{tree_at};
ghost use Rattle.df_nenc.specs.Growing.{Grows};
ghost use Rattle.df_nenc.specs.Standing.{IsTerm, Stands};
ghost use Rattle.df_nmeas.specs.Measuring.{IsMember, AreMembers, one_measured, measured_in, in_front_of, pairs_before};

use crate::measured::Measured;
use df_form::{Formula, Nodes, Sort, Term, sort_of_type};
use df_lang::Ty;
use df_nenc::{at_most, both, either, equal, iff, less, literal, negation, number_in, truth};
use std::alloc::{AllocError, Global};

/// Of two numbers: the one is less than the other, which is at least 0.
fn numbers_below(
    alloc: Global,
    nodes: &mut Nodes,
    now: Term,
    before: Term,
) -> Result<Formula, AllocError>
    requires now { IsTerm Numbers nodes.old now }
    requires before { IsTerm Numbers nodes.old before }
    ensures stands { IfOk result (λ n. Stands nodes.new (measuring.below_of Numbers Numbers (tree_at nodes.old now) (tree_at nodes.old before)) n) }
    ensures grows { Grows nodes.old nodes.new }
{
    let is_less = less(alloc, nodes, now, before)?;
    let zero = literal(alloc, nodes, 0)?;
    let is_natural = at_most(alloc, nodes, zero, before)?;
    both(alloc, nodes, is_less, is_natural)
}

/// Of two truths: the one is false, and the other true.
fn truths_below(
    alloc: Global,
    nodes: &mut Nodes,
    now: Formula,
    before: Formula,
) -> Result<Formula, AllocError>
    requires now { IsTerm Truths nodes.old now }
    requires before { IsTerm Truths nodes.old before }
    ensures stands { IfOk result (λ n. Stands nodes.new (measuring.below_of Truths Truths (tree_at nodes.old now) (tree_at nodes.old before)) n) }
    ensures grows { Grows nodes.old nodes.new }
{
    let is_false = negation(alloc, nodes, now)?;
    both(alloc, nodes, is_false, before)
}

/// Of two characters: by their codes.
fn characters_below(
    alloc: Global,
    nodes: &mut Nodes,
    now: Term,
    before: Term,
) -> Result<Formula, AllocError>
    requires now { IsTerm Characters nodes.old now }
    requires before { IsTerm Characters nodes.old before }
    ensures stands { IfOk result (λ n. Stands nodes.new (measuring.below_of Characters Characters (tree_at nodes.old now) (tree_at nodes.old before)) n) }
    ensures grows { Grows nodes.old nodes.new }
{
    let now = number_in(alloc, nodes, Ty::Char, now)?;
    let before = number_in(alloc, nodes, Ty::Char, before)?;
    less(alloc, nodes, now, before)
}

/// The one value is below the other: those of different sorts are not ordered.
fn is_below(
    alloc: Global,
    nodes: &mut Nodes,
    now: &Measured,
    before: &Measured,
) -> Result<Formula, AllocError>
    requires now { IsMember nodes.old now.now }
    requires before { IsMember nodes.old before.now }
    ensures stands { IfOk result (λ n. Stands nodes.new (measuring.is_below (one_measured nodes.old now.now) (one_measured nodes.old before.now)) n) }
    ensures grows { Grows nodes.old nodes.new }
{
    match sort_of_type(now.ty) {
        Sort::Number => match sort_of_type(before.ty) {
            Sort::Number => numbers_below(alloc, nodes, now.value, before.value),
            Sort::Truth => truth(alloc, nodes, false),
            Sort::Character => truth(alloc, nodes, false),
        },
        Sort::Truth => match sort_of_type(before.ty) {
            Sort::Number => truth(alloc, nodes, false),
            Sort::Truth => truths_below(alloc, nodes, now.value, before.value),
            Sort::Character => truth(alloc, nodes, false),
        },
        Sort::Character => match sort_of_type(before.ty) {
            Sort::Number => truth(alloc, nodes, false),
            Sort::Truth => truth(alloc, nodes, false),
            Sort::Character => characters_below(alloc, nodes, now.value, before.value),
        },
    }
}

/// The two values are the same.
fn is_same(
    alloc: Global,
    nodes: &mut Nodes,
    now: &Measured,
    before: &Measured,
) -> Result<Formula, AllocError>
    requires now { IsMember nodes.old now.now }
    requires before { IsMember nodes.old before.now }
    ensures stands { IfOk result (λ n. Stands nodes.new (measuring.is_same (one_measured nodes.old now.now) (one_measured nodes.old before.now)) n) }
    ensures grows { Grows nodes.old nodes.new }
{
    match sort_of_type(now.ty) {
        Sort::Number => match sort_of_type(before.ty) {
            Sort::Number => equal(alloc, nodes, now.value, before.value),
            Sort::Truth => truth(alloc, nodes, false),
            Sort::Character => truth(alloc, nodes, false),
        },
        Sort::Truth => match sort_of_type(before.ty) {
            Sort::Number => truth(alloc, nodes, false),
            Sort::Truth => iff(alloc, nodes, now.value, before.value),
            Sort::Character => truth(alloc, nodes, false),
        },
        Sort::Character => match sort_of_type(before.ty) {
            Sort::Number => truth(alloc, nodes, false),
            Sort::Truth => truth(alloc, nodes, false),
            Sort::Character => equal(alloc, nodes, now.value, before.value),
        },
    }
}

/// A pair of members in front of others: the first pair decides, or is the same and the others decide.
fn in_front(
    alloc: Global,
    nodes: &mut Nodes,
    now: &Measured,
    before: &Measured,
    others: Formula,
) -> Result<Formula, AllocError>
    requires now { IsMember nodes.old now.now }
    requires before { IsMember nodes.old before.now }
    requires others { IsTerm Truths nodes.old others }
    ensures stands { IfOk result (λ n. Stands nodes.new (in_front_of (one_measured nodes.old now.now) (one_measured nodes.old before.now) (tree_at nodes.old others)) n) }
    ensures grows { Grows nodes.old nodes.new }
{
    let decides = is_below(alloc, nodes, now, before)?;
    let leaves = is_same(alloc, nodes, now, before)?;
    let later = both(alloc, nodes, leaves, others)?;
    either(alloc, nodes, decides, later)
}

/// From a place on where a list ends, or the last pair of both stands: behind a shorter list stands a top above every
/// value.
fn at_end(
    alloc: Global,
    nodes: &mut Nodes,
    now: &[Measured],
    before: &[Measured],
    from: usize,
) -> Result<Formula, AllocError>
    requires now { AreMembers nodes.old now.now }
    requires before { AreMembers nodes.old before.now }
    requires end { pairs_before (drop from now.now) (drop from before.now) ≡ 0 }
    ensures stands { IfOk result (λ n. Stands nodes.new (measuring.are_below (drop from (measured_in nodes.old now.now)) (drop from (measured_in nodes.old before.now))) n) }
    ensures grows { Grows nodes.old nodes.new }
{
    match now.get(from) {
        None => truth(alloc, nodes, false),
        Some(now) => match before.get(from) {
            None => truth(alloc, nodes, true),
            Some(before) => is_below(alloc, nodes, now, before),
        },
    }
}

/// How many pairs stand in front of the last pair of equally long lists, or of the end of the shorter one.
fn pairs(now: &[Measured], before: &[Measured]) -> usize
    ensures { result ≡ pairs_before now.now before.now }
{
    if now.len() == before.len() {
        now.len().saturating_sub(1)
    } else {
        now.len().min(before.len())
    }
}

/// That the one measure is below the other: at the first place where they differ.
pub fn below(
    alloc: Global,
    nodes: &mut Nodes,
    now: &[Measured],
    before: &[Measured],
) -> Result<Formula, AllocError>
    requires now { AreMembers nodes.old now.now }
    requires before { AreMembers nodes.old before.now }
    ensures stands { IfOk result (λ n. Stands nodes.new (measuring.are_below (measured_in nodes.old now.now) (measured_in nodes.old before.now)) n) }
    ensures grows { Grows nodes.old nodes.new }
{
    let mut place = pairs(now, before);
    let mut formula = at_end(alloc, nodes, now, before, place)?;
    while place > 0 {
        place -= 1;
        formula = in_front(alloc, nodes, &now[place], &before[place], formula)?;
    }
    Ok(formula)
}
