//! Calls, and the right sides of updates.
#![tactic(auto, using(df_nenc::proofs::Growing::grows_not, df_nenc::proofs::Growing::grows_then, crate::proofs::Growing::ledger_stays, crate::proofs::Growing::measured_stay))]

ghost use Rattle.std.specs.Prelude.{◌≡◌, ◌∷◌, [], length, map, OnOk, IfOk};
ghost use Rattle.std.specs.List.{flat_map};
ghost use Rattle.df_lang.specs.DeclView.{method_of, param_of};
ghost use Rattle.df_lang.specs.StmtView.{call_of, conversion_of, source_of};
ghost use Rattle.df_lang.specs.Program.{types_of};
ghost use Rattle.df_lang.specs.Typing.{source_types};
ghost use Rattle.df_lang.specs.View.{program_of};
ghost use Rattle.df_nenc.specs.Growing.{Grows};
ghost use Rattle.df_nenc.specs.Standing.{IsTerm};
ghost use Rattle.df_nenc.specs.Tree.{path_in, tree_at, trees_at};
ghost use Rattle.df_nledger.specs.Calls.{IsCallee, IsCall, AreSources, AreConverted, Gives, result_types};
ghost use Rattle.df_nledger.specs.Ledger.{ledger_of, way_of, saying};
ghost use Rattle.df_nledger.specs.Setting.{setting_of};
ghost use Rattle.df_nmeas.specs.Measuring.{AreMembers, measured_in};
ghost use Rattle.df_npass.specs.Rules.{assert_all};
ghost use Rattle.df_npass.specs.Statements as pure;
ghost use Rattle.df_nterm.specs.Expressions.{narrowing};
ghost use Rattle.df_nterm.specs.Term.{sort_of_type};

use crate::ledger::Ledger;
use crate::setting::Setting;
use df_base::Pos;
use df_form::{Kind, Term};
use df_lang::{Call, Conversion, Method, Param, Source};
use df_nenc::owe_narrowing;
use df_nmeas::Measured;
use std::alloc::{AllocError, Global};

impl Ledger {
    /// Places have any values of their types.
    pub fn any_values(&mut self, alloc: Global, params: &[Param]) -> Result<Vec<Term>, AllocError>
        ensures given { IfOk result (λ terms. Gives (pure.any_values (path_in self.old.nodes self.old.path) (map param_of params.now) (length self.old.frees.items)) (types_of (map param_of params.now)) self.old self.new terms.items) }
        ensures grows { Grows self.old.nodes self.new.nodes }
    {
        let mut terms = Vec::new(alloc);
        for param in params {
            let term = self.any(alloc, param.ty)?;
            terms.push(term)?;
        }
        Ok(terms)
    }

    /// Inside the group the measure of the callee is owed to be below that of the declaration.
    fn assert_decrease(
        &mut self,
        setting: &Setting,
        entry: &[Measured],
        call: &Call,
        method: &Method,
        arguments: &[Term],
    ) -> Result<(), AllocError>
        requires callee { IsCallee self.old.nodes (method_of method.now) arguments.now }
        requires entry { AreMembers self.old.nodes entry.now }
        ensures ledger { OnOk result (ledger_of self.new ≡ saying (pure.assert_decrease (setting_of setting.now (measured_in self.old.nodes entry.now)) (call_of call.now) (method_of method.now) (way_of self.old arguments.now)) (ledger_of self.old)) }
        ensures grows { Grows self.old.nodes self.new.nodes }
    {
        if setting.is_inside(call.callee) {
            let now = self.method_measure(setting.alloc, arguments, method)?;
            self.assert_below(setting.alloc, call.pos, &now, entry)?;
        }
        Ok(())
    }

    /// On these arguments, what the callee asks is owed; of its results what it ensures is known.
    fn method_call(
        &mut self,
        setting: &Setting,
        entry: &[Measured],
        call: &Call,
        method: &Method,
        arguments: Vec<Term>,
    ) -> Result<Vec<Term>, AllocError>
        requires callee { IsCallee self.old.nodes (method_of method.now) arguments.items }
        requires entry { AreMembers self.old.nodes entry.now }
        ensures given { IfOk result (λ terms. Gives (pure.pass_method_call (setting_of setting.now (measured_in self.old.nodes entry.now)) (call_of call.now) (method_of method.now) (trees_at self.old.nodes arguments.items) (way_of self.old []) (length self.old.frees.items)) (types_of (method_of method.now).results) self.old self.new terms.items) }
        ensures grows { Grows self.old.nodes self.new.nodes }
    {
        let alloc = setting.alloc;
        self.assert_clauses(
            alloc,
            &arguments,
            Some(call.pos),
            Kind::Requires,
            &method.preconditions,
        )?;
        self.assert_decrease(setting, entry, call, method, &arguments)?;
        let results = self.any_values(alloc, &method.results)?;
        let mut both = arguments;
        both.extend_from_slice(&results)?;
        self.assume_clauses(alloc, &both, &method.postconditions)?;
        Ok(results)
    }

    /// The results of a call.
    pub fn call(
        &mut self,
        setting: &Setting,
        entry: &[Measured],
        terms: &[Term],
        call: &Call,
    ) -> Result<Vec<Term>, AllocError>
        requires call { IsCall self.old.nodes (program_of setting.now.program.now) terms.now (call_of call.now) }
        requires entry { AreMembers self.old.nodes entry.now }
        ensures given { IfOk result (λ given. Gives (pure.pass_call (setting_of setting.now (measured_in self.old.nodes entry.now)) (call_of call.now) (way_of self.old terms.now) (length self.old.frees.items)) (result_types (program_of setting.now.program.now) (call_of call.now)) self.old self.new given.items) }
        ensures grows { Grows self.old.nodes self.new.nodes }
    {
        let arguments = self.values(setting.alloc, terms, &call.arguments)?;
        match setting.method(call.callee) {
            Some(method) => self.method_call(setting, entry, call, method, arguments),
            None => Ok(Vec::new(setting.alloc)),
        }
    }

    /// A result goes to a place of another type.
    fn assert_conversion(
        &mut self,
        alloc: Global,
        pos: Pos,
        conversion: &Conversion,
        term: Term,
    ) -> Result<(), AllocError>
        requires { IsTerm (sort_of_type conversion.now.source) self.old.nodes term }
        ensures ledger { OnOk result (ledger_of self.new ≡ saying (assert_all (path_in self.old.nodes self.old.path) (narrowing conversion.now.source conversion.now.target pos (tree_at self.old.nodes term))) (ledger_of self.old)) }
        ensures grows { Grows self.old.nodes self.new.nodes }
    {
        let mut conditions = Vec::new(alloc);
        owe_narrowing(
            alloc,
            &mut self.nodes,
            None,
            conversion.source,
            conversion.target,
            pos,
            term,
            &mut conditions,
        )?;
        self.assert_all(alloc, &conditions)
    }

    /// Each result goes to a place of another type.
    fn assert_conversions(
        &mut self,
        alloc: Global,
        pos: Pos,
        conversions: &[Conversion],
        terms: &[Term],
    ) -> Result<(), AllocError>
        requires { AreConverted self.old.nodes (map conversion_of conversions.now) terms.now }
        ensures ledger { OnOk result (ledger_of self.new ≡ saying (pure.assert_conversions pos (way_of self.old []) (map conversion_of conversions.now) (trees_at self.old.nodes terms.now)) (ledger_of self.old)) }
        ensures grows { Grows self.old.nodes self.new.nodes }
    {
        for (i, conversion) in conversions.iter().enumerate() {
            self.assert_conversion(alloc, pos, conversion, terms[i])?;
        }
        Ok(())
    }

    /// The terms of a right side.
    fn source(
        &mut self,
        setting: &Setting,
        entry: &[Measured],
        terms: &[Term],
        source: &Source,
    ) -> Result<Vec<Term>, AllocError>
        requires source { AreSources self.old.nodes (program_of setting.now.program.now) terms.now (source_of source.now ∷ []) }
        requires entry { AreMembers self.old.nodes entry.now }
        ensures given { IfOk result (λ given. Gives (pure.pass_source (setting_of setting.now (measured_in self.old.nodes entry.now)) (source_of source.now) (way_of self.old terms.now) (length self.old.frees.items)) (source_types (source_of source.now)) self.old self.new given.items) }
        ensures grows { Grows self.old.nodes self.new.nodes }
    {
        match source {
            Source::Value { value, .. } => {
                let value = self.value(setting.alloc, terms, value)?;
                let mut given = Vec::new(setting.alloc);
                given.push(value)?;
                Ok(given)
            }
            Source::Call { call, results } => {
                let given = self.call(setting, entry, terms, call)?;
                self.assert_conversions(setting.alloc, call.pos, results, &given)?;
                Ok(given)
            }
        }
    }

    /// The terms of right sides in order.
    pub fn sources(
        &mut self,
        setting: &Setting,
        entry: &[Measured],
        terms: &[Term],
        sources: &[Source],
    ) -> Result<Vec<Term>, AllocError>
        requires sources { AreSources self.old.nodes (program_of setting.now.program.now) terms.now (map source_of sources.now) }
        requires entry { AreMembers self.old.nodes entry.now }
        ensures given { IfOk result (λ given. Gives (pure.pass_sources (setting_of setting.now (measured_in self.old.nodes entry.now)) (map source_of sources.now) (way_of self.old terms.now) (length self.old.frees.items)) (flat_map source_types (map source_of sources.now)) self.old self.new given.items) }
        ensures grows { Grows self.old.nodes self.new.nodes }
    {
        let mut all = Vec::new(setting.alloc);
        for source in sources {
            let given = self.source(setting, entry, terms, source)?;
            all.extend_from_slice(&given)?;
        }
        Ok(all)
    }
}
