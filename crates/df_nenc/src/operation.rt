//! Terms by their operations.
#![tactic(auto, using(crate::proofs::Growing::grows_not, crate::proofs::Growing::grows_then, crate::proofs::Growing::term_stays, crate::proofs::Growing::path_stays))]

ghost use Rattle.std.specs.Prelude.{◌≡◌, pos, true, IfOk};
ghost use Rattle.std.specs.List.{AllByRecursion};
ghost use Rattle.df_nterm.specs.Term.{Numbers, Truths, sort_of_type};
ghost use Rattle.df_nterm.specs.Term as trees;
ghost use Rattle.df_nterm.specs.Expressions as expressions;
ghost use Rattle.df_nenc.specs.Tree.{sort_of, tree_at, trees_at};
ghost use Rattle.df_nenc.specs.Growing.{Grows};
ghost use Rattle.df_nenc.specs.Standing.{IsTerm, Stands, counts_as_number};

use crate::making::{make, none, of_formulas, of_numbers, one, two};
use df_form::{Formula, Free, Nodes, Op, Payload, Sort, Symbol, Term};
use df_lang::{AddendOperator, FactorOperator, Junction, Ty};
use std::alloc::{AllocError, Global};

/// A number.
pub fn literal(alloc: Global, nodes: &mut Nodes, value: i128) -> Result<Term, AllocError>
    ensures stands { IfOk result (λ n. Stands nodes.new (trees.literal value) n) }
    ensures grows { Grows nodes.old nodes.new }
{
    none(alloc, nodes, Op::Number(value))
}

/// A truth.
pub fn truth(alloc: Global, nodes: &mut Nodes, value: bool) -> Result<Formula, AllocError>
    ensures stands { IfOk result (λ n. Stands nodes.new (trees.truth_term value) n) }
    ensures grows { Grows nodes.old nodes.new }
{
    if value {
        none(alloc, nodes, Op::And)
    } else {
        none(alloc, nodes, Op::Or)
    }
}

/// The term that is free to have any value of the sort; the number tells it from others.
pub fn free(alloc: Global, nodes: &mut Nodes, number: usize, sort: Sort) -> Result<Term, AllocError>
    ensures stands { IfOk result (λ n. Stands nodes.new (trees.free number (sort_of sort)) n) }
    ensures grows { Grows nodes.old nodes.new }
{
    none(alloc, nodes, Op::Free(Free { number, sort }))
}

/// That a value is one of the type, which is not `bool`.
pub fn is_of(alloc: Global, nodes: &mut Nodes, ty: Ty, value: Term) -> Result<Formula, AllocError>
    requires typed { counts_as_number ty ≡ true }
    requires value { IsTerm (sort_of_type ty) nodes.old value }
    ensures stands { IfOk result (λ n. Stands nodes.new (trees.of_one (trees.Is ty) (tree_at nodes.old value)) n) }
    ensures grows { Grows nodes.old nodes.new }
{
    one(alloc, nodes, Op::Of(Symbol::Is, Payload::Type(ty)), value)
}

/// The number of the other sign.
pub fn negative(alloc: Global, nodes: &mut Nodes, number: Term) -> Result<Term, AllocError>
    requires { IsTerm Numbers nodes.old number }
    ensures stands { IfOk result (λ n. Stands nodes.new (trees.negative (tree_at nodes.old number)) n) }
    ensures grows { Grows nodes.old nodes.new }
{
    let sign = literal(alloc, nodes, -1)?;
    two(alloc, nodes, Op::Times, sign, number)
}

/// A sum or a difference.
pub fn summed(
    alloc: Global,
    nodes: &mut Nodes,
    operator: AddendOperator,
    left: Term,
    right: Term,
) -> Result<Term, AllocError>
    requires left { IsTerm Numbers nodes.old left }
    requires right { IsTerm Numbers nodes.old right }
    ensures stands { IfOk result (λ n. Stands nodes.new (expressions.summed operator (tree_at nodes.old left) (tree_at nodes.old right)) n) }
    ensures grows { Grows nodes.old nodes.new }
{
    match operator {
        AddendOperator::Plus => two(alloc, nodes, Op::Plus, left, right),
        AddendOperator::Minus => {
            let right = negative(alloc, nodes, right)?;
            two(alloc, nodes, Op::Plus, left, right)
        }
    }
}

/// A product, a quotient or a remainder.
#[tactic(auto, using(crate::proofs::Growing::grows_not, crate::proofs::Growing::grows_then, crate::proofs::Growing::term_stays, crate::proofs::Growing::path_stays, crate::proofs::Sorts::takes_quotient, crate::proofs::Sorts::takes_remainder))]
pub(crate) fn multiplied(
    alloc: Global,
    nodes: &mut Nodes,
    operator: FactorOperator,
    left: Term,
    right: Term,
) -> Result<Term, AllocError>
    requires left { IsTerm Numbers nodes.old left }
    requires right { IsTerm Numbers nodes.old right }
    ensures stands { IfOk result (λ n. Stands nodes.new (expressions.multiplied operator (tree_at nodes.old left) (tree_at nodes.old right)) n) }
    ensures grows { Grows nodes.old nodes.new }
{
    match operator {
        FactorOperator::Times => of_numbers(alloc, nodes, Op::Times, left, right),
        FactorOperator::Divide => of_numbers(
            alloc,
            nodes,
            Op::Of(Symbol::Div, Payload::Nothing),
            left,
            right,
        ),
        FactorOperator::Modulo => of_numbers(
            alloc,
            nodes,
            Op::Of(Symbol::Mod, Payload::Nothing),
            left,
            right,
        ),
    }
}

/// The number that a value of the type counts as: of a character its code.
pub fn number_in(alloc: Global, nodes: &mut Nodes, ty: Ty, value: Term) -> Result<Term, AllocError>
    requires { IsTerm (sort_of_type ty) nodes.old value }
    ensures stands { IfOk result (λ n. Stands nodes.new (expressions.number_in ty (tree_at nodes.old value)) n) }
    ensures grows { Grows nodes.old nodes.new }
{
    match ty {
        Ty::Char => one(alloc, nodes, Op::Of(Symbol::Code, Payload::Nothing), value),
        Ty::Newtype(_) | Ty::Int | Ty::Nat | Ty::Bool => Ok(value),
    }
}

/// The value of the type that a number is: a character by its code.
pub fn value_in(alloc: Global, nodes: &mut Nodes, ty: Ty, number: Term) -> Result<Term, AllocError>
    requires { IsTerm Numbers nodes.old number }
    ensures stands { IfOk result (λ n. Stands nodes.new (expressions.value_in ty (tree_at nodes.old number)) n) }
    ensures grows { Grows nodes.old nodes.new }
{
    match ty {
        Ty::Char => one(alloc, nodes, Op::Of(Symbol::Chr, Payload::Nothing), number),
        Ty::Newtype(_) | Ty::Int | Ty::Nat | Ty::Bool => Ok(number),
    }
}

/// The character of a code.
pub(crate) fn character(alloc: Global, nodes: &mut Nodes, code: u8) -> Result<Term, AllocError>
    ensures stands { IfOk result (λ n. Stands nodes.new (trees.of_one trees.Chr (trees.literal (pos code))) n) }
    ensures grows { Grows nodes.old nodes.new }
{
    let code = literal(alloc, nodes, code as i128)?;
    one(alloc, nodes, Op::Of(Symbol::Chr, Payload::Nothing), code)
}

/// That a formula is false.
pub fn negation(alloc: Global, nodes: &mut Nodes, formula: Formula) -> Result<Formula, AllocError>
    requires { IsTerm Truths nodes.old formula }
    ensures stands { IfOk result (λ n. Stands nodes.new (trees.negation (tree_at nodes.old formula)) n) }
    ensures grows { Grows nodes.old nodes.new }
{
    one(alloc, nodes, Op::Not, formula)
}

/// That two formulas are true.
pub fn both(
    alloc: Global,
    nodes: &mut Nodes,
    left: Formula,
    right: Formula,
) -> Result<Formula, AllocError>
    requires left { IsTerm Truths nodes.old left }
    requires right { IsTerm Truths nodes.old right }
    ensures stands { IfOk result (λ n. Stands nodes.new (trees.both (tree_at nodes.old left) (tree_at nodes.old right)) n) }
    ensures grows { Grows nodes.old nodes.new }
{
    of_formulas(alloc, nodes, Op::And, left, right)
}

/// That one of two formulas is true.
pub fn either(
    alloc: Global,
    nodes: &mut Nodes,
    left: Formula,
    right: Formula,
) -> Result<Formula, AllocError>
    requires left { IsTerm Truths nodes.old left }
    requires right { IsTerm Truths nodes.old right }
    ensures stands { IfOk result (λ n. Stands nodes.new (trees.either (tree_at nodes.old left) (tree_at nodes.old right)) n) }
    ensures grows { Grows nodes.old nodes.new }
{
    of_formulas(alloc, nodes, Op::Or, left, right)
}

/// That the second formula is true where the first one is.
pub fn implies(
    alloc: Global,
    nodes: &mut Nodes,
    left: Formula,
    right: Formula,
) -> Result<Formula, AllocError>
    requires left { IsTerm Truths nodes.old left }
    requires right { IsTerm Truths nodes.old right }
    ensures stands { IfOk result (λ n. Stands nodes.new (trees.implies (tree_at nodes.old left) (tree_at nodes.old right)) n) }
    ensures grows { Grows nodes.old nodes.new }
{
    of_formulas(alloc, nodes, Op::Implies, left, right)
}

/// That two formulas have the same truth.
pub fn iff(
    alloc: Global,
    nodes: &mut Nodes,
    left: Formula,
    right: Formula,
) -> Result<Formula, AllocError>
    requires left { IsTerm Truths nodes.old left }
    requires right { IsTerm Truths nodes.old right }
    ensures stands { IfOk result (λ n. Stands nodes.new (trees.iff (tree_at nodes.old left) (tree_at nodes.old right)) n) }
    ensures grows { Grows nodes.old nodes.new }
{
    of_formulas(alloc, nodes, Op::Iff, left, right)
}

/// That all of these formulas are true: of one it is that formula.
pub(crate) fn all_of(
    alloc: Global,
    nodes: &mut Nodes,
    formulas: &[Formula],
) -> Result<Formula, AllocError>
    requires { AllByRecursion (IsTerm Truths nodes.old) formulas.now }
    ensures stands { IfOk result (λ n. Stands nodes.new (trees.conjunction (trees.terms_of (trees_at nodes.old formulas.now))) n) }
    ensures grows { Grows nodes.old nodes.new }
{
    match formulas {
        [] => make(alloc, nodes, Op::And, formulas),
        [formula] => Ok(*formula),
        [_, _, ..] => make(alloc, nodes, Op::And, formulas),
    }
}

/// That one of these formulas is true: of one it is that formula.
pub fn one_of(alloc: Global, nodes: &mut Nodes, formulas: &[Formula]) -> Result<Formula, AllocError>
    requires { AllByRecursion (IsTerm Truths nodes.old) formulas.now }
    ensures stands { IfOk result (λ n. Stands nodes.new (trees.disjunction (trees.terms_of (trees_at nodes.old formulas.now))) n) }
    ensures grows { Grows nodes.old nodes.new }
{
    match formulas {
        [] => make(alloc, nodes, Op::Or, formulas),
        [formula] => Ok(*formula),
        [_, _, ..] => make(alloc, nodes, Op::Or, formulas),
    }
}

/// A junction of formulas.
pub(crate) fn joined(
    alloc: Global,
    nodes: &mut Nodes,
    junction: Junction,
    formulas: &[Formula],
) -> Result<Formula, AllocError>
    requires { AllByRecursion (IsTerm Truths nodes.old) formulas.now }
    ensures stands { IfOk result (λ n. Stands nodes.new (expressions.joined junction (trees.terms_of (trees_at nodes.old formulas.now))) n) }
    ensures grows { Grows nodes.old nodes.new }
{
    match junction {
        Junction::And => all_of(alloc, nodes, formulas),
        Junction::Or => one_of(alloc, nodes, formulas),
    }
}

/// Where a member does not decide a junction the next one is evaluated.
pub(crate) fn goes_on(
    alloc: Global,
    nodes: &mut Nodes,
    junction: Junction,
    formula: Formula,
) -> Result<Formula, AllocError>
    requires { IsTerm Truths nodes.old formula }
    ensures stands { IfOk result (λ n. Stands nodes.new (expressions.goes_on junction (tree_at nodes.old formula)) n) }
    ensures grows { Grows nodes.old nodes.new }
{
    match junction {
        Junction::And => Ok(formula),
        Junction::Or => negation(alloc, nodes, formula),
    }
}
