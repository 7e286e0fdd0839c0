//! Branches that end. One is settled first: its last decisions are taken back as long as the list before the last one may
//! be shut. Then it is counted and closed, and the search goes back over the decisions that its conflict does not need.

ghost use Rattle.std.specs.Prelude.{◌≡◌, ◌≤◌, suc, map, length, true, IfOk, OnOk, IsTrue};
ghost use Rattle.df_form.specs.Clause.{are_literals};
ghost use Rattle.df_trail.specs.Trail.{branch_of};
ghost use Rattle.df_branch.specs.Place.{IsPlace};
ghost use Rattle.df_branch.specs.Standing.{TellsStanding};
ghost use Rattle.df_search.specs.Searching.{clauses_of, Counts, Closes, Ends, Settles, Shortens, IsPlaced, HasBefore, Grown, Lessens, lines_at, GoesFrom, Lacks, AreApart, AllApart};

use crate::searching::{End, State, Turn};
use df_branch::{Standing, standing_at};
use df_form::Lit;
use df_trail::{Conflict, Retreat, holds};
use std::alloc::AllocError;

/// Whether the branch has a last literal that the other one lacks.
fn lacks_last(branch: &[Lit], other: &[Lit]) -> bool
    ensures { IsTrue result → Lacks branch.now other.now }
{
    match branch {
        [] => false,
        [.., last] => !holds(other, *last),
    }
}

/// Whether one of the branches lacks the last literal of the other: so what both hold are first literals
/// of one, which are not shut.
fn is_apart(branch: &[Lit], other: &[Lit]) -> bool
    ensures { IsTrue result → AreApart branch.now other.now }
{
    lacks_last(branch, other) || lacks_last(other, branch)
}

/// Whether the branch is so apart from each of the others.
fn is_apart_from(branch: &[Lit], others: &[Vec<Lit>]) -> bool
    ensures { IsTrue result → AllApart branch.now (map (λ other. other.items) others.now) }
{
    for other in others {
        if !is_apart(branch, other) {
            return false;
        }
    }
    true
}

impl<'a> State<'a> {
    /// Counts the branch among the closed ones, where it is apart from each.
    fn count(&mut self) -> Result<(), AllocError>
        ensures counts { OnOk result (Counts self.old self.new) }
        ensures one { length self.new.closed.items ≤ suc (length self.old.closed.items) }
        ensures log { self.new.derivation ≡ self.old.derivation }
    {
        let branch = self.trail.branch(self.alloc)?;
        if is_apart_from(&branch, &self.closed) {
            self.closed.push(branch)?;
        }
        Ok(())
    }

    /// Closes the branch by the log's last clause, which says that literals of it are not all true.
    fn close(&mut self, conflict: Conflict, steps: u64) -> Result<Turn, AllocError>
        ensures closes { IfOk result (Closes self.old conflict steps self.new) }
        ensures longer { length self.old.derivation.lines.items ≤ length self.new.derivation.lines.items }
    {
        self.count()?;
        match self
            .trail
            .retreat(self.alloc, &mut self.derivation, conflict)?
        {
            Retreat::Ended => Ok(Turn::Proved),
            Retreat::Turned => {
                if self.closed.len() as u64 >= steps {
                    Ok(Turn::Spent)
                } else {
                    Ok(Turn::On)
                }
            }
        }
    }

    /// What comes of the end of a branch of which no first literals, but all, are shut.
    fn finish(&mut self, end: End, steps: u64) -> Result<Turn, AllocError>
        ensures ends { IfOk result (Ends self.old end steps self.new) }
        ensures longer { IfOk result (GoesFrom (lines_at self.old end) self.new) }
    {
        match end {
            End::Closed(conflict) => self.close(conflict, steps),
            End::Wide => Ok(Turn::Wide),
            End::Many(count) => Ok(Turn::Many(count)),
        }
    }

    /// What the rows of first literals of the branch come to.
    fn standing(&self, before: &[Lit]) -> Result<Standing, AllocError>
        requires place { IsPlace self.now.set (clauses_of self.now) self.now.derivation.nodes (branch_of self.now.trail) }
        requires formulas { are_literals self.now.derivation.nodes before.now ≡ true }
        ensures { IfOk result (TellsStanding (clauses_of self.now) self.now.derivation.nodes before.now) }
    {
        standing_at(
            self.alloc,
            &self.clauses,
            &self.derivation.nodes,
            before,
            &self.point,
        )
    }

    /// How the branch ends without its last decision, where the list before that may be shut.
    fn end_before(&mut self, before: &[Lit]) -> Result<Option<End>, AllocError>
        requires placed { IsPlaced self.old }
        requires fresh { HasBefore self.old before.now }
        ensures shortens { IfOk result (Shortens self.old self.new) }
        ensures placed { OnOk result (IsPlaced self.new) }
        ensures closed { self.new.closed.items ≡ self.old.closed.items }
        ensures grown { IfOk result (Grown self.old self.new) }
        ensures less { IfOk result (Lessens self.old self.new) }
    {
        match self.standing(before)? {
            Standing::Stands(None) => Ok(None),
            Standing::Stands(Some(point)) => {
                self.point = point;
                Ok(None)
            }
            Standing::Refuted(numbers) => {
                self.trail.take_back();
                let conflict = self.refute(&numbers)?;
                Ok(Some(End::Closed(conflict)))
            }
            Standing::Unsolvable {
                reasons,
                facts,
                combinations,
            } => {
                self.trail.take_back();
                let conflict = self.solve(&reasons, facts, combinations)?;
                Ok(Some(End::Closed(conflict)))
            }
            Standing::Wide => {
                self.trail.take_back();
                Ok(Some(End::Wide))
            }
            Standing::Many(count) => {
                self.trail.take_back();
                Ok(Some(End::Many(count)))
            }
        }
    }

    /// The same, where the other side of the last decision is open: else the list before it is not shut.
    fn shortened(&mut self) -> Result<Option<End>, AllocError>
        requires { IsPlaced self.old }
        ensures shortens { IfOk result (Shortens self.old self.new) }
        ensures placed { OnOk result (IsPlaced self.new) }
        ensures closed { self.new.closed.items ≡ self.old.closed.items }
        ensures grown { IfOk result (Grown self.old self.new) }
        ensures less { IfOk result (Lessens self.old self.new) }
    {
        match self.trail.before(self.alloc)? {
            Some(before) => self.end_before(&before),
            None => Ok(None),
        }
    }

    /// What comes of the end of a branch. Its last decisions are taken back as long as the list before
    /// the last one may be shut: so no first literals of what is closed, but all, are shut.
    pub(crate) fn settle(&mut self, first: End, steps: u64) -> Result<Turn, AllocError>
        requires { IsPlaced self.old }
        ensures settles { IfOk result (Settles self.old first steps self.new) }
        ensures longer { IfOk result (GoesFrom (lines_at self.old first) self.new) }
    {
        let mut end = first;
        loop {
            match self.shortened()? {
                Some(shorter) => end = shorter,
                None => return self.finish(end, steps),
            }
        }
    }
}
