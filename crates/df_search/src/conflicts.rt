//! Lines that close a branch: each says that some of its decisions are not all true.
#![tactic(auto, using(crate::proofs::Same::same_not, crate::proofs::Same::same_log, crate::proofs::Same::same_then))]

ghost use Rattle.std.specs.Prelude.{◌≡◌, ◌<◌, map, length, IfOk, OnOk};
ghost use Rattle.df_trail.specs.Trail.{branch_of, HasAll};
ghost use Rattle.df_search.specs.Searching.{IsSame};
ghost use Rattle.df_search.specs.Moves.{Propagates, RefutesList, RefutesListBy, Refutes, RefutesBy, Solves, Contradicts};
ghost use Rattle.df_search.specs.Places.{AreWithin, place_in};

use crate::lessening::lessened;
use crate::needing::needed;
use crate::searching::State;
use df_closure::{Closure, close};
use df_cong::Reason;
use df_form::{Combination, Lit};
use df_trail::{Conflict, negations};
use std::alloc::AllocError;

impl<'a> State<'a> {
    /// The numbers in the log of clauses that have these numbers here.
    fn placed(&self, numbers: &[usize]) -> Result<Vec<usize>, AllocError>
        requires { AreWithin (length self.now.places.items) numbers.now }
        ensures { IfOk result (λ placed. placed.items ≡ map (place_in self.now.places.items) numbers.now) }
    {
        let mut placed = Vec::new(self.alloc);
        for number in numbers {
            placed.push(self.places[*number])?;
        }
        Ok(placed)
    }

    /// Adds a line that the literals of the list are not all true, by propagation through clauses of the log.
    fn propagate(&mut self, numbers: Vec<usize>, list: Vec<Lit>) -> Result<Conflict, AllocError>
        ensures propagates { IfOk result (Propagates self.old numbers.items list.items self.new) }
        ensures same { IsSame self.old self.new }
        ensures longer { OnOk result (length self.old.derivation.lines.items < length self.new.derivation.lines.items) }
        ensures closed { self.new.closed.items ≡ self.old.closed.items }
    {
        let conclusion = negations(self.alloc, &list)?;
        let number = self.derivation.propagate(numbers, conclusion)?;
        Ok(Conflict {
            number,
            needed: list,
        })
    }

    /// Adds such a line: propagation through clauses leaves nothing of the last one.
    fn refute_list(&mut self, list: Vec<Lit>, numbers: &[usize]) -> Result<Conflict, AllocError>
        requires { AreWithin (length self.old.places.items) numbers.now }
        ensures refutes { IfOk result (RefutesList self.old list.items numbers.now self.new) }
        ensures same { IsSame self.old self.new }
        ensures longer { OnOk result (length self.old.derivation.lines.items < length self.new.derivation.lines.items) }
        ensures closed { self.new.closed.items ≡ self.old.closed.items }
    {
        let placed = self.placed(numbers)?;
        self.propagate(placed, list)
    }

    /// Adds such a line: nothing is left of the clause of the log of this number, beside what the clauses
    /// give.
    fn refute_list_by(
        &mut self,
        list: Vec<Lit>,
        reasons: &[usize],
        last: usize,
    ) -> Result<Conflict, AllocError>
        requires { AreWithin (length self.old.places.items) reasons.now }
        ensures refutes { IfOk result (RefutesListBy self.old list.items reasons.now last self.new) }
        ensures same { IsSame self.old self.new }
        ensures longer { OnOk result (length self.old.derivation.lines.items < length self.new.derivation.lines.items) }
        ensures closed { self.new.closed.items ≡ self.old.closed.items }
    {
        let mut numbers = self.placed(reasons)?;
        numbers.push(last)?;
        self.propagate(numbers, list)
    }

    /// The literals of the branch that are needed where clauses of these numbers teach one after another, and
    /// then the last one is false, or all of the literals are.
    fn needs(&self, numbers: &[usize], literals: &[Lit]) -> Result<Vec<Lit>, AllocError>
        ensures { IfOk result (λ needed. HasAll (branch_of self.now.trail) needed.items) }
    {
        let branch = self.trail.branch(self.alloc)?;
        needed(self.alloc, &self.clauses, &branch, numbers, literals)
    }

    /// Adds a line that literals of the branch are not all true: propagation through clauses leaves nothing of
    /// the last one. They are those that are needed, where the clauses refute these alone.
    pub(crate) fn refute(&mut self, numbers: &[usize]) -> Result<Conflict, AllocError>
        requires within { AreWithin (length self.old.places.items) numbers.now }
        requires places { length self.old.places.items ≡ length self.old.clauses.items }
        ensures refutes { IfOk result (Refutes self.old numbers.now self.new) }
        ensures same { IsSame self.old self.new }
        ensures longer { OnOk result (length self.old.derivation.lines.items < length self.new.derivation.lines.items) }
        ensures closed { self.new.closed.items ≡ self.old.closed.items }
    {
        let needed = self.needs(numbers, &[])?;
        match close(self.alloc, &self.clauses, &needed)? {
            Closure::Refuted(fewer) => self.refute_list(needed, &fewer),
            Closure::Closed { .. } => {
                let branch = self.trail.branch(self.alloc)?;
                self.refute_list(branch, numbers)
            }
        }
    }

    /// Adds such a line: nothing is left of a clause of the log, of this number, beside what clauses give.
    fn refute_by(
        &mut self,
        reasons: &[usize],
        clause: &[Lit],
        last: usize,
    ) -> Result<Conflict, AllocError>
        requires within { AreWithin (length self.old.places.items) reasons.now }
        requires places { length self.old.places.items ≡ length self.old.clauses.items }
        ensures refutes { IfOk result (RefutesBy self.old reasons.now clause.now last self.new) }
        ensures same { IsSame self.old self.new }
        ensures longer { OnOk result (length self.old.derivation.lines.items < length self.new.derivation.lines.items) }
        ensures closed { self.new.closed.items ≡ self.old.closed.items }
    {
        let needed = self.needs(reasons, clause)?;
        match close(self.alloc, &self.clauses, &needed)? {
            Closure::Refuted(fewer) => self.refute_list(needed, &fewer),
            Closure::Closed {
                known,
                reasons: fewer,
                ..
            } => {
                if known.refutes(clause) {
                    return self.refute_list_by(needed, &fewer, last);
                }
                let branch = self.trail.branch(self.alloc)?;
                self.refute_list_by(branch, reasons, last)
            }
        }
    }

    /// Adds lines that literals of the branch are not all true: facts are not, and the clauses give them.
    pub(crate) fn solve(
        &mut self,
        reasons: &[usize],
        facts: Vec<Lit>,
        combinations: Vec<Combination>,
    ) -> Result<Conflict, AllocError>
        requires within { AreWithin (length self.old.places.items) reasons.now }
        requires places { length self.old.places.items ≡ length self.old.clauses.items }
        ensures solves { IfOk result (Solves self.old reasons.now facts.items combinations.items self.new) }
        ensures same { IsSame self.old self.new }
        ensures longer { OnOk result (length self.old.derivation.lines.items < length self.new.derivation.lines.items) }
        ensures closed { self.new.closed.items ≡ self.old.closed.items }
    {
        let linear = lessened(self.alloc, &self.derivation.nodes, facts, combinations)?;
        let clause = negations(self.alloc, &linear.facts)?;
        let conclusion = negations(self.alloc, &linear.facts)?;
        let number = self.derivation.refute(conclusion, linear.combinations)?;
        self.refute_by(reasons, &clause, number)
    }

    /// Adds lines that literals of the branch are not all true: congruence has it that some literals are not,
    /// and the clauses give them.
    pub(crate) fn contradict(
        &mut self,
        reasons: &[usize],
        reason: Reason,
    ) -> Result<Conflict, AllocError>
        requires within { AreWithin (length self.old.places.items) reasons.now }
        requires places { length self.old.places.items ≡ length self.old.clauses.items }
        ensures contradicts { IfOk result (Contradicts self.old reasons.now reason self.new) }
        ensures same { IsSame self.old self.new }
        ensures longer { OnOk result (length self.old.derivation.lines.items < length self.new.derivation.lines.items) }
        ensures closed { self.new.closed.items ≡ self.old.closed.items }
    {
        let clause = negations(self.alloc, &reason.literals)?;
        let conclusion = negations(self.alloc, &reason.literals)?;
        let number = self.derivation.congruence(conclusion, reason.pairs)?;
        self.refute_by(reasons, &clause, number)
    }
}
