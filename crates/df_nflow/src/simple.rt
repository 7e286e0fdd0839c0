//! Calls and returns as statements.
#![tactic(auto, using(df_nenc::proofs::Growing::grows_not, df_nenc::proofs::Growing::grows_then, df_nenc::proofs::Growing::term_stays, df_nledger::proofs::Growing::ledger_stays, crate::proofs::Waiting::passed_stays, crate::proofs::Passing::is_passed, df_nledger::proofs::Growing::measured_stay))]

ghost use Rattle.std.specs.Prelude.{◌≡◌, ◌∷◌, [], true, None, OnOk, IfOk};
ghost use Rattle.std.specs.Option.{option_map};
ghost use Rattle.df_lang.specs.StmtView.{call_of, update_of};
ghost use Rattle.df_lang.specs.View.{program_of};
ghost use Rattle.df_nenc.specs.Growing.{Grows};
ghost use Rattle.df_nflow.specs.PassedView.{standing_of};
ghost use Rattle.df_nflow.specs.Standing.{Moves, Passes};
ghost use Rattle.df_nflow.specs.Typed.{are_at, may_update_over};
ghost use Rattle.df_nledger.specs.Calls.{is_call_over};
ghost use Rattle.df_nlocals.specs.Views.{changed_in};
ghost use Rattle.df_nledger.specs.Setting.{setting_of};
ghost use Rattle.df_npass.specs.Statements as pure;

use crate::passed::Passed;
use crate::way::{Exits, Onward};
use df_lang::{Call, Update};
use df_nledger::Setting;
use std::alloc::AllocError;

impl Passed {
    /// A call, of which no result is kept.
    pub(crate) fn call(&mut self, setting: &Setting, call: &Call) -> Result<(), AllocError>
        requires { is_call_over (program_of setting.now.program.now) self.old.types.items (call_of call.now) ≡ true }
        ensures moves { let given = pure.pass_call (setting_of setting.now (standing_of self.old).entry) (call_of call.now) (standing_of self.old).way (standing_of self.old).fresh in OnOk result (Moves (standing_of self.old) (pure.saying given.said given.fresh (standing_of self.old).way) (standing_of self.new)) }
        ensures grows { Grows self.old.ledger.nodes self.new.ledger.nodes }
    {
        self.ledger.call(setting, &self.entry, &self.terms, call)?;
        Ok(())
    }

    /// Results take their values, and all runs leave the method.
    pub(crate) fn return_with(
        &mut self,
        setting: &Setting,
        exits: Exits,
        update: &Option<Update>,
    ) -> Result<Onward, AllocError>
        requires update { may_update_over (program_of setting.now.program.now) self.old.types.items (option_map update_of update.now) ≡ true }
        requires in_method { are_at self.old.types.items (changed_in exits.in_method.now) ≡ true }
        ensures passes { let moved = pure.pass_optional (setting_of setting.now (standing_of self.old).entry) (option_map update_of update.now) (standing_of self.old).way (standing_of self.old).fresh in IfOk result (λ onward. Passes (changed_in exits.entry.in_loop.now) (changed_in exits.entry.in_method.now) (standing_of self.old) (record { said = moved.said; fresh = moved.fresh; way = None; breaks = []; returns = moved.way ∷ []; loses = true }) (standing_of self.new) onward.goes_on onward.loses) }
        ensures grows { Grows self.old.ledger.nodes self.new.ledger.nodes }
    {
        self.optional(setting, update)?;
        self.leave_method(setting.alloc, exits)
    }
}
