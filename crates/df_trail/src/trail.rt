//! Trails of decisions.

ghost use Rattle.std.specs.Prelude.{◌≡◌, ◌≤◌, ◌++◌, ◌∷◌, [], List, length, IfOk, OnOk, OnErr};
ghost use Rattle.df_logbuild.specs.Front.{IsFront};
ghost use Rattle.df_trail.specs.declared.decision.Decision.{Decision as Decided};
ghost use Rattle.df_trail.specs.Trail.{branch_of, decided, turned, RetreatsFrom, Turns, TellsFresh, TellsBefore};

use crate::decision::{Conflict, Decision};
use crate::join::{holds, join};
use df_form::Lit;
use df_logbuild::Derivation;
use std::alloc::{AllocError, Global};

/// What is left after a branch was closed.
#[derive(Clone, Copy, Debug, PartialEq, Eq)]
pub enum Retreat {
    /// A decision is turned to its other side.
    Turned,
    /// None is left that may be: the log ends with the empty clause.
    Ended,
}

/// Decisions in the order in which they were made.
#[derive(Drop)]
pub struct Trail {
    pub decisions: Vec<Decision>,
}

impl Trail {
    /// No decisions.
    pub fn new(alloc: Global) -> Trail
        ensures { result.decisions.items ≡ [] }
    {
        Trail {
            decisions: Vec::new(alloc),
        }
    }

    /// The literals of the branch.
    pub fn branch(&self, alloc: Global) -> Result<Vec<Lit>, AllocError>
        ensures { IfOk result (λ branch. branch.items ≡ branch_of self.now) }
    {
        let mut branch = Vec::new(alloc);
        for decision in &self.decisions {
            branch.push(decision.literal)?;
        }
        Ok(branch)
    }

    /// Decides a literal. It fails for want of memory, and then changes nothing.
    pub fn decide(&mut self, literal: Lit) -> Result<(), AllocError>
        ensures decides { OnOk result (self.new.decisions.items ≡ self.old.decisions.items ++ decided literal ∷ []) }
        ensures err { OnErr result (self.new.decisions.items ≡ self.old.decisions.items) }
    {
        let decision = Decision {
            literal,
            closed: None,
        };
        self.decisions.push(decision)?;
        Ok(())
    }

    /// Whether there is a last decision, and its other side is open.
    fn is_fresh(&self) -> bool
        ensures { TellsFresh self.now result }
    {
        match self.decisions.last() {
            Some(decision) => decision.closed.is_none(),
            None => false,
        }
    }

    /// The branch without its last decision, where the other side of that is open.
    pub fn before(&self, alloc: Global) -> Result<Option<Vec<Lit>>, AllocError>
        ensures { IfOk result (TellsBefore self.now) }
    {
        if !self.is_fresh() {
            return Ok(None);
        }
        let mut before = self.branch(alloc)?;
        let _last = before.pop();
        Ok(Some(before))
    }

    /// Takes back the last decision. Where there is none, none stays.
    pub fn take_back(&mut self)
        ensures kept { (kept : List Decided) (last : Decided) → self.old.decisions.items ≡ kept ++ last ∷ [] → self.new.decisions.items ≡ kept }
        ensures none { self.old.decisions.items ≡ [] → self.new.decisions.items ≡ [] }
    {
        let _last = self.decisions.pop();
    }

    /// Turns to the other side of a literal that the conflict closes. It fails for want of memory, and then
    /// changes nothing.
    fn turn(&mut self, literal: Lit, conflict: Conflict) -> Result<(), AllocError>
        ensures turns { OnOk result (self.new.decisions.items ≡ self.old.decisions.items ++ turned literal conflict ∷ []) }
        ensures err { OnErr result (self.new.decisions.items ≡ self.old.decisions.items) }
    {
        self.decisions.push(Decision {
            literal: literal.negation(),
            closed: Some(conflict),
        })?;
        Ok(())
    }

    /// Closes the branch by the log's last clause, which says that some of its literals are not all true.
    /// Decisions that the conflict does not need are taken back; where the other side of one that it needs is
    /// closed too, the log says what both sides need; the last one that is needed, and whose other side is
    /// open, is turned. After want of memory the decisions are a front of what they were, and the log begins
    /// with the lines that it had.
    pub fn retreat(
        &mut self,
        alloc: Global,
        derivation: &mut Derivation,
        first: Conflict,
    ) -> Result<Retreat, AllocError>
        ensures retreats { IfOk result (RetreatsFrom derivation.old self.old first derivation.new self.new) }
        ensures turns { IfOk result (Turns self.old self.new) }
        ensures longer { length derivation.old.lines.items ≤ length derivation.new.lines.items }
        ensures nodes { derivation.new.nodes ≡ derivation.old.nodes }
        ensures grows { IsFront derivation.old.lines.items derivation.new.lines.items }
        ensures shorter { OnErr result (IsFront self.new.decisions.items self.old.decisions.items) }
    {
        let mut conflict = first;
        while let Some(decision) = self.decisions.pop() {
            let Decision { literal, closed } = decision;
            if holds(&conflict.needed, literal) {
                let Some(other) = closed else {
                    self.turn(literal, conflict)?;
                    return Ok(Retreat::Turned);
                };
                conflict = join(alloc, derivation, literal, &other, &conflict)?;
            }
        }
        Ok(Retreat::Ended)
    }
}
