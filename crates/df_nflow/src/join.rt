//! Where ways come together.
#![tactic(auto, using(df_nenc::proofs::Growing::grows_not, df_nenc::proofs::Growing::grows_then, df_nenc::proofs::Growing::term_stays, df_nledger::proofs::Growing::ledger_stays, crate::proofs::Waiting::passed_stays, crate::proofs::Passing::is_passed, df_nledger::proofs::Growing::measured_stay))]

ghost use Rattle.std.specs.Prelude.{◌≡◌, ◌==◌, ◌∷◌, [], List, true, false, slice_get, OnOk, IfOk};
ghost use Rattle.std.specs.List.{list_all};
ghost use Rattle.std.specs.Option.{option_map_or};
ghost use Rattle.df_nenc.specs.Growing.{Grows};
ghost use Rattle.df_nenc.specs.Standing.{IsTerm};
ghost use Rattle.df_nenc.specs.Tree.{path_in, tree_at};
ghost use Rattle.df_nflow.specs.Branches.{AreEnded};
ghost use Rattle.df_nflow.specs.Joining.{assume_joined_at, join_locals_from, paths_in, take_all, AreThere, AllThere};
ghost use Rattle.df_nledger.specs.Ledger.{ledger_of};
ghost use Rattle.df_nflow.specs.PassedView.{standing_of};
ghost use Rattle.df_nledger.specs.Said.{HasPath};
ghost use Rattle.df_nflow.specs.Standing.{also, Moves, Joins};
ghost use Rattle.df_nflow.specs.Typed.{is_at, are_at};
ghost use Rattle.df_nflow.specs.Views.{AreArrived, ArePaths, IsArrived, arrival_in, arrivals_in, all_ended_in};
ghost use Rattle.df_nlocals.specs.Views.{changed_in, changed_of};
ghost use Rattle.df_nflow.specs.Ways.{Arrive};
ghost use Rattle.df_npass.specs.Rules.{Way, any_path as any_of, paths_of, join as joined, join_branches as joined_branches};
ghost use Rattle.df_npass.specs.Statements.{saying};
ghost use Rattle.df_nterm.specs.Term.{sort_of_type};

use crate::passed::Passed;
use crate::way::Arrived;
use df_form::{Formula, NodeTable, Term};
use df_lang::Ty;
use df_nenc::one_of;
use df_nledger::Ledger;
use df_nlocals::Changed;
use std::alloc::{AllocError, Global};

/// Whether this term stands at a place.
fn is_same(term: Term, place: usize, terms: &[Term]) -> bool
    ensures { result ≡ option_map_or (λ n. n == term) (slice_get terms.now place) false }
{
    match terms.get(place) {
        Some(other) => *other == term,
        None => false,
    }
}

/// Whether the local at a place among those that are joined has this term on each way.
fn are_same(term: Term, place: usize, arrived: &[Arrived]) -> bool
    ensures { result ≡ list_all (λ way. option_map_or (λ n. n == term) (slice_get way.terms.items place) false) arrived.now }
{
    for way in arrived {
        if !is_same(term, place, &way.terms) {
            return false;
        }
    }
    true
}

/// The formula of the runs that come by one of the ways: none where all runs come.
pub(crate) fn any_path(
    ledger: &mut Ledger,
    alloc: Global,
    arrived: &[Arrived],
) -> Result<Option<Formula>, AllocError>
    requires { ArePaths ledger.old.nodes arrived.now }
    ensures ledger { OnOk result (ledger_of ledger.new ≡ ledger_of ledger.old) }
    ensures path { IfOk result (λ path. path_in ledger.new.nodes path ≡ any_of (paths_in (arrivals_in ledger.old.nodes arrived.now))) }
    ensures is_path { IfOk result (λ path. HasPath ledger.new.nodes path) }
    ensures grows { Grows ledger.old.nodes ledger.new.nodes }
{
    let mut paths = Vec::new(alloc);
    for way in arrived {
        match way.path {
            Some(path) => paths.push(path)?,
            None => return Ok(None),
        }
    }
    Ok(Some(one_of(alloc, &mut ledger.nodes, &paths)?))
}

impl Passed {
    /// On each way the term is that of the local there, if it has a value.
    fn assume_joined(
        &mut self,
        alloc: Global,
        ty: Ty,
        place: usize,
        term: Term,
        arrived: &[Arrived],
    ) -> Result<(), AllocError>
        requires term { IsTerm (sort_of_type ty) self.old.ledger.nodes term }
        requires arrived { AreArrived self.old.ledger.nodes self.old.types.items arrived.now }
        requires there { AreThere place (sort_of_type ty) (arrivals_in self.old.ledger.nodes arrived.now) }
        ensures said { OnOk result (standing_of self.new ≡ also (assume_joined_at ty place (tree_at self.old.ledger.nodes term) (arrivals_in self.old.ledger.nodes arrived.now)) (standing_of self.old)) }
        ensures grows { Grows self.old.ledger.nodes self.new.ledger.nodes }
    {
        for way in arrived {
            self.ledger
                .assume_there(alloc, ty, term, way.path, way.terms[place])?;
        }
        Ok(())
    }

    /// A local that has its term on each way keeps it; another one is a new free term.
    fn join_local(
        &mut self,
        alloc: Global,
        changed: &Changed,
        place: usize,
        arrived: &[Arrived],
    ) -> Result<(), AllocError>
        requires changed { is_at self.old.types.items changed.now.local changed.now.ty ≡ true }
        requires arrived { AreArrived self.old.ledger.nodes self.old.types.items arrived.now }
        requires there { AreThere place (sort_of_type changed.now.ty) (arrivals_in self.old.ledger.nodes arrived.now) }
        ensures moves { OnOk result (Moves (standing_of self.old) (join_locals_from place (changed_of changed.now ∷ []) (arrivals_in self.old.ledger.nodes arrived.now) (standing_of self.old).fresh (standing_of self.old).way.env (standing_of self.old).way.path) (standing_of self.new)) }
        ensures grows { Grows self.old.ledger.nodes self.new.ledger.nodes }
    {
        let _nodes = self.ledger.nodes.len();
        if are_same(self.terms[changed.local], place, arrived) {
            return Ok(());
        }
        let term = self.ledger.fresh(alloc, changed.ty)?;
        self.assume_joined(alloc, changed.ty, place, term, arrived)?;
        self.give(changed.local, term)
    }

    /// The locals of several ways, one after another.
    fn join_locals(
        &mut self,
        alloc: Global,
        changed: &[Changed],
        arrived: &[Arrived],
    ) -> Result<(), AllocError>
        requires changed { are_at self.old.types.items (changed_in changed.now) ≡ true }
        requires arrived { AreArrived self.old.ledger.nodes self.old.types.items arrived.now }
        requires there { AllThere 0 (changed_in changed.now) (arrivals_in self.old.ledger.nodes arrived.now) }
        ensures moves { OnOk result (Moves (standing_of self.old) (join_locals_from 0 (changed_in changed.now) (arrivals_in self.old.ledger.nodes arrived.now) (standing_of self.old).fresh (standing_of self.old).way.env (standing_of self.old).way.path) (standing_of self.new)) }
        ensures grows { Grows self.old.ledger.nodes self.new.ledger.nodes }
    {
        for (place, one) in changed.iter().enumerate() {
            self.join_local(alloc, one, place, arrived)?;
        }
        Ok(())
    }

    /// The locals have their terms on the one way.
    fn take(&mut self, changed: &[Changed], way: &Arrived) -> Result<(), AllocError>
        requires changed { are_at self.old.types.items (changed_in changed.now) ≡ true }
        requires way { IsArrived self.old.ledger.nodes self.old.types.items way.now }
        requires there { AllThere 0 (changed_in changed.now) (arrival_in self.old.ledger.nodes way.now ∷ []) }
        ensures moves { OnOk result (Moves (standing_of self.old) (saying [] (standing_of self.old).fresh (record { env = take_all (changed_in changed.now) (arrival_in self.old.ledger.nodes way.now).terms (standing_of self.old).way.env; path = path_in self.old.ledger.nodes way.now.path })) (standing_of self.new)) }
        ensures nodes { self.new.ledger.nodes ≡ self.old.ledger.nodes }
    {
        for (place, one) in changed.iter().enumerate() {
            self.give(one.local, way.terms[place])?;
        }
        self.ledger.path = way.path;
        Ok(())
    }

    /// The ways come together on a path, where one of several ways came by the terms here. One way keeps its path.
    /// Whether any run comes is answered.
    pub(crate) fn join(
        &mut self,
        alloc: Global,
        path: Option<Formula>,
        changed: &[Changed],
        arrived: &[Arrived],
    ) -> Result<bool, AllocError>
        requires path { HasPath self.old.ledger.nodes path }
        requires changed { are_at self.old.types.items (changed_in changed.now) ≡ true }
        requires arrived { AreArrived self.old.ledger.nodes self.old.types.items arrived.now }
        requires there { AllThere 0 (changed_in changed.now) (arrivals_in self.old.ledger.nodes arrived.now) }
        ensures joins { IfOk result (λ goes_on. (ways : List Way) → Arrive (changed_in changed.now) (arrivals_in self.old.ledger.nodes arrived.now) ways
            → Joins (standing_of self.old) (joined (path_in self.old.ledger.nodes path) (standing_of self.old).way.env (changed_in changed.now) ways (standing_of self.old).fresh) (standing_of self.new) goes_on) }
        ensures grows { Grows self.old.ledger.nodes self.new.ledger.nodes }
    {
        match arrived {
            [] => Ok(false),
            [way] => {
                self.take(changed, way)?;
                Ok(true)
            }
            [_, _, ..] => {
                self.ledger.path = path;
                self.join_locals(alloc, changed, arrived)?;
                Ok(true)
            }
        }
    }

    /// All ways come together, where one of several ways came by the terms here.
    pub(crate) fn join_all(
        &mut self,
        alloc: Global,
        changed: &[Changed],
        arrived: &[Arrived],
    ) -> Result<bool, AllocError>
        requires changed { are_at self.old.types.items (changed_in changed.now) ≡ true }
        requires arrived { AreArrived self.old.ledger.nodes self.old.types.items arrived.now }
        requires there { AllThere 0 (changed_in changed.now) (arrivals_in self.old.ledger.nodes arrived.now) }
        ensures joins { IfOk result (λ goes_on. (ways : List Way) → Arrive (changed_in changed.now) (arrivals_in self.old.ledger.nodes arrived.now) ways
            → Joins (standing_of self.old) (joined (any_of (paths_of ways)) (standing_of self.old).way.env (changed_in changed.now) ways (standing_of self.old).fresh) (standing_of self.new) goes_on) }
        ensures grows { Grows self.old.ledger.nodes self.new.ledger.nodes }
    {
        let path = any_path(&mut self.ledger, alloc, arrived)?;
        self.join(alloc, path, changed, arrived)
    }

    /// The ways of branches, of which one alone leads on as it is.
    pub(crate) fn join_branches(
        &mut self,
        alloc: Global,
        path: Option<Formula>,
        changed: &[Changed],
        arrived: &[Arrived],
    ) -> Result<bool, AllocError>
        requires path { HasPath self.old.ledger.nodes path }
        requires changed { are_at self.old.types.items (changed_in changed.now) ≡ true }
        requires arrived { AreArrived self.old.ledger.nodes self.old.types.items arrived.now }
        requires there { AllThere 0 (changed_in changed.now) (arrivals_in self.old.ledger.nodes arrived.now) }
        ensures joins { IfOk result (λ goes_on. (ways : List Way) → AreEnded (changed_in changed.now) (standing_of self.old).way.env (all_ended_in self.old.ledger.nodes arrived.now) ways
            → Joins (standing_of self.old) (joined_branches (path_in self.old.ledger.nodes path) (standing_of self.old).way.env (changed_in changed.now) ways (standing_of self.old).fresh) (standing_of self.new) goes_on) }
        ensures grows { Grows self.old.ledger.nodes self.new.ledger.nodes }
    {
        match arrived {
            [] => Ok(false),
            [way] => {
                self.replay(&way.ahead)?;
                self.ledger.path = way.path;
                Ok(true)
            }
            [_, _, ..] => self.join(alloc, path, changed, arrived),
        }
    }
}
