//! Where the passing stands.
#![tactic(auto, using(df_nenc::proofs::Growing::grows_not, df_nenc::proofs::Growing::grows_then, df_nenc::proofs::Growing::term_stays, df_nledger::proofs::Growing::ledger_stays, crate::proofs::Waiting::passed_stays, crate::proofs::Passing::is_passed, df_nledger::proofs::Growing::measured_stay))]

ghost use Rattle.std.proofs.Props.{props};
ghost use Rattle.df_nflow.specs.Views.{IsPassed};

use crate::way::{Arrived, Kept};
use df_form::Term;
use df_lang::Ty;
use df_nledger::Ledger;
use df_nlocals::Changed;
use df_nmeas::Measured;
use std::alloc::{AllocError, Global};

/// Where the passing over a method stands.
#[derive(Drop)]
pub(crate) struct Passed {
    pub(crate) ledger: Ledger,
    /// The type and the term of each local of the method, by its number.
    pub(crate) types: Vec<Ty>,
    pub(crate) terms: Vec<Term>,
    /// The measure of the method on entry.
    pub(crate) entry: Vec<Measured>,
    /// The terms that locals had before they were given others.
    pub(crate) trail: Vec<Kept>,
    /// The ways that lead out of the loop around, and those that lead out of the method.
    pub(crate) breaks: Vec<Arrived>,
    pub(crate) returns: Vec<Arrived>,
    pub(crate) ghost is_passed: { IsPassed ledger.nodes types.items terms.items entry.items trail.items breaks.items returns.items } by { Prim.hlevel props },
}

impl Passed {
    ghost use Rattle.std.specs.Prelude.{◌≡◌, ◌≤◌, ◌-◌, [], true, length, take, drop, OnOk, IfOk};
    ghost use Rattle.df_nenc.specs.Tree.{tree_at};
    ghost use Rattle.df_nflow.specs.PassedView.{standing_of};
    ghost use Rattle.df_nflow.specs.Standing.{over_terms, Moves};
    ghost use Rattle.df_nflow.specs.Typed.{are_at};
    ghost use Rattle.df_nflow.specs.Views.{AreKept, IsKept, IsArrived, arrival_in, all_kept_in};
    ghost use Rattle.df_nlocals.specs.Views.{changed_in};
    ghost use Rattle.df_nflow.specs.Ways.{arrival, back};
    ghost use Rattle.df_npass.specs.Rules.{over, with_term};
    ghost use Rattle.df_npass.specs.Statements.{saying};

    /// A local has another term.
    pub(crate) fn give(&mut self, local: usize, term: Term) -> Result<(), AllocError>
        requires { IsKept self.old.ledger.nodes self.old.types.items local term }
        ensures moves { OnOk result (Moves (standing_of self.old) (saying [] (standing_of self.old).fresh (over (with_term (standing_of self.old).way.env local (tree_at self.old.ledger.nodes term)) (standing_of self.old).way)) (standing_of self.new)) }
        ensures nodes { self.new.ledger.nodes ≡ self.old.ledger.nodes }
    {
        self.trail.push(Kept {
            local,
            term: self.terms[local],
        })?;
        self.terms[local] = term;
        Ok(())
    }

    /// The last local of the trail has again the term that it had. What leads back here is added.
    fn step_back(&mut self, ahead: &mut Vec<Kept>) -> Result<(), AllocError>
        requires { AreKept self.old.ledger.nodes self.old.types.items ahead.old.items }
        ensures standing { OnOk result (standing_of self.new ≡ over_terms (back (drop (length self.old.trail.items - 1) (standing_of self.old).trail) (standing_of self.old).way.env) (take (length self.old.trail.items - 1) (standing_of self.old).trail) (standing_of self.old)) }
        ensures ahead { OnOk result (back (all_kept_in self.old.ledger.nodes ahead.new.items) (standing_of self.new).way.env ≡ back (all_kept_in self.old.ledger.nodes ahead.old.items) (standing_of self.old).way.env) }
        ensures are_ahead { OnOk result (AreKept self.old.ledger.nodes self.old.types.items ahead.new.items) }
        ensures shorter { OnOk result (length self.new.trail.items ≡ length self.old.trail.items - 1) }
        ensures nodes { self.new.ledger.nodes ≡ self.old.ledger.nodes }
    {
        match self.trail.pop() {
            None => Ok(()),
            Some(kept) => {
                ahead.push(Kept {
                    local: kept.local,
                    term: self.terms[kept.local],
                })?;
                self.terms[kept.local] = kept.term;
                Ok(())
            }
        }
    }

    /// Locals have again the terms that they had when the trail was so long. What leads back here is answered.
    pub(crate) fn rewind(&mut self, alloc: Global, mark: usize) -> Result<Vec<Kept>, AllocError>
        requires { mark ≤ length self.old.trail.items }
        ensures standing { OnOk result (standing_of self.new ≡ over_terms (back (drop mark (standing_of self.old).trail) (standing_of self.old).way.env) (take mark (standing_of self.old).trail) (standing_of self.old)) }
        ensures ahead { IfOk result (λ ahead. back (all_kept_in self.old.ledger.nodes ahead.items) (standing_of self.new).way.env ≡ (standing_of self.old).way.env) }
        ensures are_ahead { IfOk result (λ ahead. AreKept self.old.ledger.nodes self.old.types.items ahead.items) }
        ensures nodes { self.new.ledger.nodes ≡ self.old.ledger.nodes }
    {
        let mut ahead = Vec::new(alloc);
        while self.trail.len() > mark {
            self.step_back(&mut ahead)?;
        }
        Ok(ahead)
    }

    /// Locals have the terms that were answered, the last first.
    pub(crate) fn replay(&mut self, ahead: &[Kept]) -> Result<(), AllocError>
        requires { AreKept self.old.ledger.nodes self.old.types.items ahead.now }
        ensures moves { OnOk result (Moves (standing_of self.old) (saying [] (standing_of self.old).fresh (over (back (all_kept_in self.old.ledger.nodes ahead.now) (standing_of self.old).way.env) (standing_of self.old).way)) (standing_of self.new)) }
        ensures nodes { self.new.ledger.nodes ≡ self.old.ledger.nodes }
    {
        for place in (0..ahead.len()).rev() {
            self.give(ahead[place].local, ahead[place].term)?;
        }
        Ok(())
    }

    /// The way here, as it waits where these locals are joined.
    pub(crate) fn arrived(
        &self,
        alloc: Global,
        changed: &[Changed],
        ahead: Vec<Kept>,
    ) -> Result<Arrived, AllocError>
        requires changed { are_at self.now.types.items (changed_in changed.now) ≡ true }
        requires ahead { AreKept self.now.ledger.nodes self.now.types.items ahead.items }
        ensures arrival { IfOk result (λ arrived. arrival_in self.now.ledger.nodes arrived ≡ arrival (changed_in changed.now) (standing_of self.now).way) }
        ensures is { IfOk result (λ arrived. IsArrived self.now.ledger.nodes self.now.types.items arrived) }
        ensures ahead { IfOk result (λ arrived. arrived.ahead ≡ ahead) }
    {
        let mut terms = Vec::new(alloc);
        for one in changed {
            terms.push(self.terms[one.local])?;
        }
        Ok(Arrived {
            path: self.ledger.path,
            terms,
            ahead,
        })
    }
}
