//! Updates: terms go to their places.
#![tactic(auto, using(df_nenc::proofs::Growing::grows_not, df_nenc::proofs::Growing::grows_then, df_nenc::proofs::Growing::term_stays, df_nledger::proofs::Growing::ledger_stays, crate::proofs::Waiting::passed_stays, crate::proofs::Passing::is_passed, df_nledger::proofs::Growing::measured_stay))]

ghost use Rattle.std.specs.Prelude.{◌≡◌, [], true, if◌then◌else◌, map, OnOk};
ghost use Rattle.std.specs.Option.{option_map};
ghost use Rattle.df_lang.specs.StmtView.{target_of, update_of};
ghost use Rattle.df_lang.specs.View.{program_of};
ghost use Rattle.df_nenc.specs.Growing.{Grows};
ghost use Rattle.df_nenc.specs.Standing.{IsTerm, AreLocals};
ghost use Rattle.df_nenc.specs.Tree.{tree_at, trees_at};
ghost use Rattle.df_nflow.specs.PassedView.{standing_of};
ghost use Rattle.df_nflow.specs.Standing.{also, Moves};
ghost use Rattle.df_nflow.specs.Typed.{is_target_over, are_targets_over, target_types, is_update_over, may_update_over};
ghost use Rattle.df_nledger.specs.Setting.{setting_of};
ghost use Rattle.df_meaning.specs.declared.kind.Kind.TheVariants as kinds;
ghost use Rattle.df_npass.specs.Rules.{assert, over, with_term};
ghost use Rattle.df_nterm.specs.Term.{sort_of_type};
ghost use Rattle.df_npass.specs.Statements as pure;
ghost use Rattle.df_nterm.specs.Expressions.{equal_in as equal_trees};

use crate::passed::Passed;
use df_form::{Kind, Term};
use df_lang::{Target, Update};
use df_nenc::equal_in;
use df_nledger::Setting;
use indexmap::IndexSet;
use std::alloc::{AllocError, Global};

impl Passed {
    /// A place that was given its term already is owed to be given an equal one.
    fn assert_same(&mut self, alloc: Global, target: &Target, term: Term) -> Result<(), AllocError>
        requires local { is_target_over self.old.types.items (target_of target.now) ≡ true }
        requires term { IsTerm (sort_of_type target.now.ty) self.old.ledger.nodes term }
        ensures same { OnOk result (standing_of self.new ≡ also (assert (standing_of self.old).way.path target.now.pos kinds.Distinct (equal_trees target.now.ty (tree_at self.old.ledger.nodes term) ((standing_of self.old).way.env target.now.local))) (standing_of self.old)) }
        ensures grows { Grows self.old.ledger.nodes self.new.ledger.nodes }
    {
        let last = self.terms[target.local];
        let equal = equal_in(alloc, &mut self.ledger.nodes, target.ty, term, last)?;
        self.ledger.assert(alloc, target.pos, Kind::Distinct, equal)
    }

    /// A place that was given its term already takes an equal one.
    fn give_again(&mut self, alloc: Global, target: &Target, term: Term) -> Result<(), AllocError>
        requires local { is_target_over self.old.types.items (target_of target.now) ≡ true }
        requires term { IsTerm (sort_of_type target.now.ty) self.old.ledger.nodes term }
        ensures moves { OnOk result (Moves (standing_of self.old) (pure.saying (assert (standing_of self.old).way.path target.now.pos kinds.Distinct (equal_trees target.now.ty (tree_at self.old.ledger.nodes term) ((standing_of self.old).way.env target.now.local))) (standing_of self.old).fresh (over (with_term (standing_of self.old).way.env target.now.local (tree_at self.old.ledger.nodes term)) (standing_of self.old).way)) (standing_of self.new)) }
        ensures grows { Grows self.old.ledger.nodes self.new.ledger.nodes }
    {
        self.assert_same(alloc, target, term)?;
        self.give(target.local, term)
    }

    /// A place takes its term.
    fn give_one(
        &mut self,
        alloc: Global,
        is_new: bool,
        target: &Target,
        term: Term,
    ) -> Result<(), AllocError>
        requires local { is_target_over self.old.types.items (target_of target.now) ≡ true }
        requires term { IsTerm (sort_of_type target.now.ty) self.old.ledger.nodes term }
        ensures moves { OnOk result (Moves (standing_of self.old) (pure.saying (if is_new then [] else assert (standing_of self.old).way.path target.now.pos kinds.Distinct (equal_trees target.now.ty (tree_at self.old.ledger.nodes term) ((standing_of self.old).way.env target.now.local))) (standing_of self.old).fresh (over (with_term (standing_of self.old).way.env target.now.local (tree_at self.old.ledger.nodes term)) (standing_of self.old).way)) (standing_of self.new)) }
        ensures grows { Grows self.old.ledger.nodes self.new.ledger.nodes }
    {
        if is_new {
            self.give(target.local, term)
        } else {
            self.give_again(alloc, target, term)
        }
    }

    /// Terms go to their places.
    fn give_all(
        &mut self,
        alloc: Global,
        targets: &[Target],
        terms: &[Term],
    ) -> Result<(), AllocError>
        requires targets { are_targets_over self.old.types.items (map target_of targets.now) ≡ true }
        requires terms { AreLocals self.old.ledger.nodes (target_types (map target_of targets.now)) terms.now }
        ensures moves { OnOk result (Moves (standing_of self.old) (pure.give_all [] (map target_of targets.now) (trees_at self.old.ledger.nodes terms.now) (standing_of self.old).fresh (standing_of self.old).way) (standing_of self.new)) }
        ensures grows { Grows self.old.ledger.nodes self.new.ledger.nodes }
    {
        let mut named = IndexSet::new(alloc);
        for (i, target) in targets.iter().enumerate() {
            let is_new = named.insert(target.local)?;
            self.give_one(alloc, is_new, target, terms[i])?;
        }
        Ok(())
    }

    /// All right sides are evaluated before any place takes its value.
    pub(crate) fn update(&mut self, setting: &Setting, update: &Update) -> Result<(), AllocError>
        requires { is_update_over (program_of setting.now.program.now) self.old.types.items (update_of update.now) ≡ true }
        ensures moves { OnOk result (Moves (standing_of self.old) (pure.pass_update (setting_of setting.now (standing_of self.old).entry) (update_of update.now) (standing_of self.old).way (standing_of self.old).fresh) (standing_of self.new)) }
        ensures grows { Grows self.old.ledger.nodes self.new.ledger.nodes }
    {
        let terms = self
            .ledger
            .sources(setting, &self.entry, &self.terms, &update.sources)?;
        self.give_all(setting.alloc, &update.targets, &terms)
    }

    /// The update, where there is one.
    pub(crate) fn optional(
        &mut self,
        setting: &Setting,
        update: &Option<Update>,
    ) -> Result<(), AllocError>
        requires { may_update_over (program_of setting.now.program.now) self.old.types.items (option_map update_of update.now) ≡ true }
        ensures moves { OnOk result (Moves (standing_of self.old) (pure.pass_optional (setting_of setting.now (standing_of self.old).entry) (option_map update_of update.now) (standing_of self.old).way (standing_of self.old).fresh) (standing_of self.new)) }
        ensures grows { Grows self.old.ledger.nodes self.new.ledger.nodes }
    {
        match update {
            Some(update) => self.update(setting, update),
            None => Ok(()),
        }
    }
}
