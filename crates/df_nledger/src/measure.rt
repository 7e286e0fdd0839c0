//! Measures of a place.
#![tactic(auto, using(df_nenc::proofs::Growing::grows_not, df_nenc::proofs::Growing::grows_then, crate::proofs::Growing::ledger_stays, crate::proofs::Growing::measured_stay))]

ghost use Rattle.std.specs.Prelude.{◌≡◌, OnOk, IfOk};
ghost use Rattle.df_lang.specs.DeclView.{method_of};
ghost use Rattle.df_lang.specs.ExprView.{expr_of};
ghost use Rattle.df_lang.specs.Measures.{method_measure as measure_of_method, loop_measure as measure_of_loop};
ghost use Rattle.df_meaning.specs.declared.kind.Kind.TheVariants as kinds;
ghost use Rattle.df_nenc.specs.Growing.{Grows};
ghost use Rattle.df_nenc.specs.Tree.{path_in, trees_in};
ghost use Rattle.df_nledger.specs.Ledger.{ledger_of, way_of, saying};
ghost use Rattle.df_nmeas.specs.Measuring.{AreMembers, IsMethodOver, IsLoopOver, decreases_in, measured_in};
ghost use Rattle.df_npass.specs.Rules as rules;
ghost use Rattle.df_npass.specs.Statements.{assert_measure};
ghost use Rattle.df_nterm.specs.Measuring.{measured, are_below};

use crate::ledger::Ledger;
use df_base::Pos;
use df_form::{Kind, Term};
use df_lang::{Expr, Measure, Method};
use df_nmeas::{Measured, below, loop_measure, method_measure};
use std::alloc::{AllocError, Global};

impl Ledger {
    /// The measure of a method, whose members are owed to have values.
    pub fn method_measure(
        &mut self,
        alloc: Global,
        terms: &[Term],
        method: &Method,
    ) -> Result<Vec<Measured>, AllocError>
        requires { IsMethodOver self.old.nodes terms.now (method_of method.now) }
        ensures ledger { OnOk result (ledger_of self.new ≡ saying (assert_measure (way_of self.old terms.now) (measure_of_method (method_of method.now))) (ledger_of self.old)) }
        ensures measured { IfOk result (λ made. measured_in self.new.nodes made.items ≡ measured (trees_in self.old.nodes terms.now) (measure_of_method (method_of method.now))) }
        ensures are { IfOk result (λ made. AreMembers self.new.nodes made.items) }
        ensures grows { Grows self.old.nodes self.new.nodes }
    {
        let mut conditions = Vec::new(alloc);
        let made = method_measure(alloc, &mut self.nodes, terms, method, &mut conditions)?;
        self.assert_all(alloc, &conditions)?;
        Ok(made)
    }

    /// The measure of a loop, whose members are owed to have values.
    pub fn loop_measure(
        &mut self,
        alloc: Global,
        terms: &[Term],
        guard: &Expr,
        decreases: &Option<Vec<Measure>>,
    ) -> Result<Vec<Measured>, AllocError>
        requires { IsLoopOver self.old.nodes terms.now (expr_of guard.now) (decreases_in decreases.now) }
        ensures ledger { OnOk result (ledger_of self.new ≡ saying (assert_measure (way_of self.old terms.now) (measure_of_loop (expr_of guard.now) (decreases_in decreases.now))) (ledger_of self.old)) }
        ensures measured { IfOk result (λ made. measured_in self.new.nodes made.items ≡ measured (trees_in self.old.nodes terms.now) (measure_of_loop (expr_of guard.now) (decreases_in decreases.now))) }
        ensures are { IfOk result (λ made. AreMembers self.new.nodes made.items) }
        ensures grows { Grows self.old.nodes self.new.nodes }
    {
        let mut conditions = Vec::new(alloc);
        let made = loop_measure(
            alloc,
            &mut self.nodes,
            terms,
            guard,
            decreases,
            &mut conditions,
        )?;
        self.assert_all(alloc, &conditions)?;
        Ok(made)
    }

    /// One measure is owed to be below another.
    pub fn assert_below(
        &mut self,
        alloc: Global,
        pos: Pos,
        now: &[Measured],
        before: &[Measured],
    ) -> Result<(), AllocError>
        requires now { AreMembers self.old.nodes now.now }
        requires before { AreMembers self.old.nodes before.now }
        ensures ledger { OnOk result (ledger_of self.new ≡ saying (rules.assert (path_in self.old.nodes self.old.path) pos kinds.Decreases (are_below (measured_in self.old.nodes now.now) (measured_in self.old.nodes before.now))) (ledger_of self.old)) }
        ensures grows { Grows self.old.nodes self.new.nodes }
    {
        let formula = below(alloc, &mut self.nodes, now, before)?;
        self.assert(alloc, pos, Kind::Decreases, formula)
    }
}
