//! What is known and owed so far, and the rules by which it grows.
#![tactic(auto, using(df_nenc::proofs::Growing::grows_not, df_nenc::proofs::Growing::grows_then, crate::proofs::Growing::ledger_stays, crate::proofs::Growing::measured_stay))]

ghost use Rattle.std.proofs.Props.{props};
ghost use Rattle.std.specs.Prelude.{◌≡◌, IfOk};
ghost use Rattle.df_nenc.specs.Growing.{Grows};
ghost use Rattle.df_nenc.specs.Standing.{Stands};
ghost use Rattle.df_nenc.specs.Tree.{sort_of};
ghost use Rattle.df_nledger.specs.Said.{IsLedger};
ghost use Rattle.df_npass.specs.Rules.{some_term};
ghost use Rattle.df_nterm.specs.Term.{Numbers, Truths, Characters, sort_of_type};

use crate::said::Said;
use df_base::Pos;
use df_form::{Formula, Kind, NodeTable, Nodes, Sort, Term};
use df_lang::{Expr, Ty};
use df_nenc::{
    Condition, defined, equal_in, free, is_of, literal, narrowed_path, number_in, on_path, value_in,
};
use std::alloc::{AllocError, Global};

/// What is known and owed so far, in order, and the place to which runs have come: all of them, or those of which a
/// formula is true.
#[derive(Drop)]
pub struct Ledger {
    pub nodes: Nodes,
    pub path: Option<Formula>,
    pub said: Vec<Said>,
    /// The free terms, by their numbers.
    pub frees: Vec<Term>,
    pub ghost is_ledger: { IsLedger nodes path said.items } by { Prim.hlevel props },
}

/// The sort of the values of a type.
fn sort(ty: Ty) -> Sort
    ensures { sort_of result ≡ sort_of_type ty }
{
    match ty {
        Ty::Bool => Sort::Truth,
        Ty::Char => Sort::Character,
        Ty::Newtype(_) | Ty::Int | Ty::Nat => Sort::Number,
    }
}

/// The term of a local of a type that has no value: no expression with a value has it.
fn some_value(alloc: Global, nodes: &mut Nodes, ty: Ty) -> Result<Term, AllocError>
    ensures stands { IfOk result (λ n. Stands nodes.new (some_term (sort_of_type ty)) n) }
    ensures grows { Grows nodes.old nodes.new }
{
    match ty {
        Ty::Bool => some_truth(alloc, nodes),
        Ty::Char => some_character(alloc, nodes),
        Ty::Newtype(_) => some_number(alloc, nodes),
        Ty::Int => some_number(alloc, nodes),
        Ty::Nat => some_number(alloc, nodes),
    }
}

/// That 0 is a number.
fn some_truth(alloc: Global, nodes: &mut Nodes) -> Result<Term, AllocError>
    ensures stands { IfOk result (λ n. Stands nodes.new (some_term Truths) n) }
    ensures grows { Grows nodes.old nodes.new }
{
    let number = literal(alloc, nodes, 0)?;
    is_of(alloc, nodes, Ty::Int, number)
}

/// The code of what is no character.
fn some_number(alloc: Global, nodes: &mut Nodes) -> Result<Term, AllocError>
    ensures stands { IfOk result (λ n. Stands nodes.new (some_term Numbers) n) }
    ensures grows { Grows nodes.old nodes.new }
{
    let character = some_character(alloc, nodes)?;
    number_in(alloc, nodes, Ty::Char, character)
}

/// The character of -1.
fn some_character(alloc: Global, nodes: &mut Nodes) -> Result<Term, AllocError>
    ensures stands { IfOk result (λ n. Stands nodes.new (some_term Characters) n) }
    ensures grows { Grows nodes.old nodes.new }
{
    let code = literal(alloc, nodes, -1)?;
    value_in(alloc, nodes, Ty::Char, code)
}

impl Ledger {
    ghost use Rattle.std.specs.Prelude.{◌<◌, ◌++◌, suc, true, [], length, map, drop, OnOk};
    ghost use Rattle.std.specs.List.{AllByRecursion};
    ghost use Rattle.df_lang.specs.ExprView.{expr_of};
    ghost use Rattle.df_nenc.specs.Encoding.{IsOver, AreConditions, conditions_in};
    ghost use Rattle.df_nenc.specs.Standing.{IsTerm, counts_as_number};
    ghost use Rattle.df_nenc.specs.Tree.{path_in, tree_at, trees_at, trees_in};
    ghost use Rattle.df_nledger.specs.Ledger.{ledger_of, way_of, saying, with_fresh, with_any};
    ghost use Rattle.df_nledger.specs.Said.{HasPath};
    ghost use Rattle.df_npass.specs.Rules as rules;
    ghost use Rattle.df_npass.specs.Statements.{assert_expr};
    ghost use Rattle.df_nterm.specs.Expressions.{term_of, conditions_of, equal_in as equal_trees};
    ghost use Rattle.df_nterm.specs.Term.{of_one};
    ghost use Rattle.df_nterm.specs.Term as ops;

    /// Nothing yet, where all runs come.
    pub fn new(alloc: Global) -> Ledger
        ensures { ledger_of result ≡ record { said = []; fresh = 0; path = None } }
    {
        Ledger {
            nodes: Nodes::new(alloc),
            path: None,
            said: Vec::new(alloc),
            frees: Vec::new(alloc),
        }
    }

    /// A formula is known of the runs of which another one is true.
    fn assume_on(
        &mut self,
        alloc: Global,
        path: Option<Formula>,
        formula: Formula,
    ) -> Result<(), AllocError>
        requires path { HasPath self.old.nodes path }
        requires formula { IsTerm Truths self.old.nodes formula }
        ensures ledger { OnOk result (ledger_of self.new ≡ saying (rules.assume (path_in self.old.nodes path) (tree_at self.old.nodes formula)) (ledger_of self.old)) }
        ensures grows { Grows self.old.nodes self.new.nodes }
    {
        let formula = on_path(alloc, &mut self.nodes, path, formula)?;
        self.said.push(Said::Known(formula))?;
        Ok(())
    }

    /// A formula is known of the runs that come here.
    pub(crate) fn assume(&mut self, alloc: Global, formula: Formula) -> Result<(), AllocError>
        requires { IsTerm Truths self.old.nodes formula }
        ensures ledger { OnOk result (ledger_of self.new ≡ saying (rules.assume (path_in self.old.nodes self.old.path) (tree_at self.old.nodes formula)) (ledger_of self.old)) }
        ensures grows { Grows self.old.nodes self.new.nodes }
    {
        self.assume_on(alloc, self.path, formula)
    }

    /// A formula is owed of the runs that come here.
    pub fn assert(
        &mut self,
        alloc: Global,
        pos: Pos,
        kind: Kind,
        formula: Formula,
    ) -> Result<(), AllocError>
        requires { IsTerm Truths self.old.nodes formula }
        ensures ledger { OnOk result (ledger_of self.new ≡ saying (rules.assert (path_in self.old.nodes self.old.path) pos kind (tree_at self.old.nodes formula)) (ledger_of self.old)) }
        ensures grows { Grows self.old.nodes self.new.nodes }
    {
        let formula = on_path(alloc, &mut self.nodes, self.path, formula)?;
        self.said.push(Said::Owed { pos, kind, formula })?;
        Ok(())
    }

    /// Conditions are known.
    #[tactic(auto, using(df_nenc::proofs::Growing::grows_not, df_nenc::proofs::Growing::grows_then, crate::proofs::Conditions::saying_from, crate::proofs::Conditions::saying_done))]
    pub(crate) fn assume_all(
        &mut self,
        alloc: Global,
        conditions: &[Condition],
    ) -> Result<(), AllocError>
        requires { AreConditions self.old.nodes conditions.now }
        ensures ledger { OnOk result (ledger_of self.new ≡ saying (rules.assume_all (path_in self.old.nodes self.old.path) (conditions_in self.old.nodes conditions.now)) (ledger_of self.old)) }
        ensures grows { Grows self.old.nodes self.new.nodes }
    {
        for condition in conditions {
            self.assume(alloc, condition.formula)?;
        }
        Ok(())
    }

    /// Conditions are owed, each where it says so.
    #[tactic(auto, using(df_nenc::proofs::Growing::grows_not, df_nenc::proofs::Growing::grows_then, crate::proofs::Conditions::saying_from, crate::proofs::Conditions::saying_done))]
    pub(crate) fn assert_all(
        &mut self,
        alloc: Global,
        conditions: &[Condition],
    ) -> Result<(), AllocError>
        requires { AreConditions self.old.nodes conditions.now }
        ensures ledger { OnOk result (ledger_of self.new ≡ saying (rules.assert_all (path_in self.old.nodes self.old.path) (conditions_in self.old.nodes conditions.now)) (ledger_of self.old)) }
        ensures grows { Grows self.old.nodes self.new.nodes }
    {
        for condition in conditions {
            self.assert(alloc, condition.pos, condition.kind, condition.formula)?;
        }
        Ok(())
    }

    /// The term of an expression, which is owed to have a value.
    pub fn value(&mut self, alloc: Global, terms: &[Term], expr: &Expr) -> Result<Term, AllocError>
        requires { IsOver self.old.nodes terms.now (expr_of expr.now) }
        ensures ledger { OnOk result (ledger_of self.new ≡ saying (assert_expr (way_of self.old terms.now) (expr_of expr.now)) (ledger_of self.old)) }
        ensures stands { IfOk result (λ n. Stands self.new.nodes (term_of (trees_in self.old.nodes terms.now) (expr_of expr.now)) n) }
        ensures grows { Grows self.old.nodes self.new.nodes }
    {
        let mut conditions = Vec::new(alloc);
        let term = defined(alloc, &mut self.nodes, terms, expr, &mut conditions)?;
        self.assert_all(alloc, &conditions)?;
        Ok(term)
    }

    /// The term of an expression that is known to have a value.
    pub(crate) fn known_value(
        &mut self,
        alloc: Global,
        terms: &[Term],
        expr: &Expr,
    ) -> Result<Term, AllocError>
        requires { IsOver self.old.nodes terms.now (expr_of expr.now) }
        ensures ledger { OnOk result (ledger_of self.new ≡ saying (rules.assume_all (path_in self.old.nodes self.old.path) (conditions_of (trees_in self.old.nodes terms.now) (expr_of expr.now))) (ledger_of self.old)) }
        ensures stands { IfOk result (λ n. Stands self.new.nodes (term_of (trees_in self.old.nodes terms.now) (expr_of expr.now)) n) }
        ensures grows { Grows self.old.nodes self.new.nodes }
    {
        let mut conditions = Vec::new(alloc);
        let term = defined(alloc, &mut self.nodes, terms, expr, &mut conditions)?;
        self.assume_all(alloc, &conditions)?;
        Ok(term)
    }

    /// The formula of the runs that come here, of which this one is true too.
    pub fn narrowed(&mut self, alloc: Global, formula: Formula) -> Result<Formula, AllocError>
        requires { IsTerm Truths self.old.nodes formula }
        ensures ledger { OnOk result (ledger_of self.new ≡ ledger_of self.old) }
        ensures stands { IfOk result (λ n. Stands self.new.nodes (rules.narrowed_path (path_in self.old.nodes self.old.path) (tree_at self.old.nodes formula)) n) }
        ensures grows { Grows self.old.nodes self.new.nodes }
    {
        narrowed_path(alloc, &mut self.nodes, self.path, formula)
    }

    /// That a term is a value of the type, which is not `bool`, is known.
    fn assume_is(&mut self, alloc: Global, ty: Ty, term: Term) -> Result<(), AllocError>
        requires typed { counts_as_number ty ≡ true }
        requires term { IsTerm (sort_of_type ty) self.old.nodes term }
        ensures ledger { OnOk result (ledger_of self.new ≡ saying (rules.assume (path_in self.old.nodes self.old.path) (of_one (ops.Is ty) (tree_at self.old.nodes term))) (ledger_of self.old)) }
        ensures grows { Grows self.old.nodes self.new.nodes }
    {
        let formula = is_of(alloc, &mut self.nodes, ty, term)?;
        self.assume(alloc, formula)
    }

    /// A term is a value of the type: of numbers, truths and characters there is nothing to say.
    fn assume_type(&mut self, alloc: Global, ty: Ty, term: Term) -> Result<(), AllocError>
        requires { IsTerm (sort_of_type ty) self.old.nodes term }
        ensures ledger { OnOk result (ledger_of self.new ≡ saying (rules.assume_type (path_in self.old.nodes self.old.path) ty (tree_at self.old.nodes term)) (ledger_of self.old)) }
        ensures grows { Grows self.old.nodes self.new.nodes }
    {
        match ty {
            Ty::Newtype(_) => self.assume_is(alloc, ty, term),
            Ty::Nat => self.assume_is(alloc, ty, term),
            Ty::Int => Ok(()),
            Ty::Bool => Ok(()),
            Ty::Char => Ok(()),
        }
    }

    /// The next free term.
    pub fn fresh(&mut self, alloc: Global, ty: Ty) -> Result<Term, AllocError>
        ensures ledger { OnOk result (ledger_of self.new ≡ with_fresh [] (suc (length self.old.frees.items)) (ledger_of self.old)) }
        ensures stands { IfOk result (λ n. Stands self.new.nodes (rules.free_of (length self.old.frees.items) ty) n) }
        ensures grows { Grows self.old.nodes self.new.nodes }
    {
        let term = free(alloc, &mut self.nodes, self.frees.len(), sort(ty))?;
        self.frees.push(term)?;
        Ok(term)
    }

    /// Any value of a type.
    pub fn any(&mut self, alloc: Global, ty: Ty) -> Result<Term, AllocError>
        ensures ledger { OnOk result (ledger_of self.new ≡ with_any ty (ledger_of self.old)) }
        ensures stands { IfOk result (λ n. Stands self.new.nodes (rules.free_of (length self.old.frees.items) ty) n) }
        ensures grows { Grows self.old.nodes self.new.nodes }
    {
        let term = self.fresh(alloc, ty)?;
        self.assume_type(alloc, ty, term)?;
        Ok(term)
    }

    /// The term of a local without a value: it is not read.
    fn unset_one(&mut self, alloc: Global, ty: Ty) -> Result<Term, AllocError>
        ensures ledger { OnOk result (ledger_of self.new ≡ ledger_of self.old) }
        ensures stands { IfOk result (λ n. Stands self.new.nodes (some_term (sort_of_type ty)) n) }
        ensures grows { Grows self.old.nodes self.new.nodes }
    {
        some_value(alloc, &mut self.nodes, ty)
    }

    /// That two terms of a type are equal is known of the runs of a path.
    fn assume_equal(
        &mut self,
        alloc: Global,
        ty: Ty,
        term: Term,
        path: Option<Formula>,
        here: Term,
    ) -> Result<(), AllocError>
        requires term { IsTerm (sort_of_type ty) self.old.nodes term }
        requires path { HasPath self.old.nodes path }
        requires here { IsTerm (sort_of_type ty) self.old.nodes here }
        ensures ledger { OnOk result (ledger_of self.new ≡ saying (rules.assume (path_in self.old.nodes path) (equal_trees ty (tree_at self.old.nodes term) (tree_at self.old.nodes here))) (ledger_of self.old)) }
        ensures grows { Grows self.old.nodes self.new.nodes }
    {
        let equal = equal_in(alloc, &mut self.nodes, ty, term, here)?;
        self.assume_on(alloc, path, equal)
    }

    /// On a path a local has this term, and it is known to be equal to another one, if the local has a value there.
    pub fn assume_there(
        &mut self,
        alloc: Global,
        ty: Ty,
        term: Term,
        path: Option<Formula>,
        here: Term,
    ) -> Result<(), AllocError>
        requires term { IsTerm (sort_of_type ty) self.old.nodes term }
        requires path { HasPath self.old.nodes path }
        requires here { IsTerm (sort_of_type ty) self.old.nodes here }
        ensures ledger { OnOk result (ledger_of self.new ≡ saying (rules.assume_there ty (tree_at self.old.nodes term) (path_in self.old.nodes path) (tree_at self.old.nodes here)) (ledger_of self.old)) }
        ensures grows { Grows self.old.nodes self.new.nodes }
    {
        let unset = self.unset_one(alloc, ty)?;
        let _nodes = self.nodes.len();
        if unset == here {
            return Ok(());
        }
        self.assume_equal(alloc, ty, term, path, here)
    }

    /// Adds a term for each further local of these types: it has no value yet.
    pub fn unset(
        &mut self,
        alloc: Global,
        types: &[Ty],
        terms: &mut Vec<Term>,
    ) -> Result<(), AllocError>
        requires { AllByRecursion (λ n. n < length self.old.nodes) terms.old.items }
        ensures ledger { OnOk result (ledger_of self.new ≡ ledger_of self.old) }
        ensures terms { OnOk result (trees_at self.new.nodes terms.new.items ≡ trees_at self.old.nodes terms.old.items ++ map (λ ty. some_term (sort_of_type ty)) (drop (length terms.old.items) types.now)) }
        ensures below { OnOk result (AllByRecursion (λ n. n < length self.new.nodes) terms.new.items) }
        ensures grows { Grows self.old.nodes self.new.nodes }
    {
        let first = terms.len();
        for place in first..types.len() {
            let term = self.unset_one(alloc, types[place])?;
            terms.push(term)?;
        }
        Ok(())
    }
}
