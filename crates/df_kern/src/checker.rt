//! Logs, line by line.

ghost use Rattle.std.specs.Prelude.{◌≡◌, ◌+◌, ◌≤◌, OnOk, IfOk, length, map, vec_len};
ghost use Rattle.df_form.specs.Log.{step_of};
ghost use Rattle.df_form.specs.Sequent.{IsValid};
ghost use Rattle.df_form.specs.SequentView.{sequent_of};
ghost use Rattle.df_kern.specs.Accepted.{IsTaken};
ghost use Rattle.df_rules.specs.Derivation.{ends_empty, Derives};
ghost use Rattle.df_kern.specs.Refusal.{refusal, Answers};
ghost use Rattle.df_rules.specs.Propagation.{is_empty};

use crate::accepted::Accepted;
use crate::fault::KernFault;
use crate::line::{add_line, kind_of};
use df_form::{Arena, Lit, NodeTable, Over, Sequent, Step};
use std::alloc::{AllocError, Global};

/// A derivation so far: its sequent, the nodes and the clauses by their numbers, and how many steps it
/// has taken.
#[derive(Drop)]
pub struct Checker<'a> {
    pub sequent: &'a Sequent<'a>,
    pub nodes: Over<'a>,
    pub clauses: Vec<Vec<Lit>>,
    pub taken: u64,
    alloc: Global,
    // Each step makes a node or adds a clause, so the count fits.
    ghost counted: { taken ≤ length nodes + vec_len clauses },
}

/// Whether a clause has no literals.
fn has_none(clause: &[Lit]) -> bool
    ensures { result ≡ is_empty clause.now }
{
    match clause {
        [] => true,
        [_, ..] => false,
    }
}

/// Whether the last clause is empty.
fn ends(clauses: &[Vec<Lit>]) -> bool
    ensures { result ≡ ends_empty (map (λ clause. clause.items) clauses.now) }
{
    match clauses.last() {
        Some(clause) => has_none(clause),
        None => false,
    }
}

impl<'a> Checker<'a> {
    ghost use Rattle.std.specs.Prelude.{IfOk, OnOk};
    ghost use Rattle.df_form.specs.Log.{step_of};
    ghost use Rattle.df_kern.specs.CheckerView.{IsBegun, Takes, Finishes, ProvesGoal};

    /// The sequent's nodes, and no clause.
    pub fn new(alloc: Global, sequent: &'a Sequent<'a>) -> Result<Checker<'a>, AllocError>
        ensures { IfOk result (IsBegun sequent.now) }
    {
        Ok(Checker {
            sequent,
            nodes: sequent.nodes.over(alloc),
            clauses: Vec::new(alloc),
            taken: 0,
            alloc,
        })
    }

    /// Takes one step: what it adds is added. A step that is no line of a derivation from here is
    /// refused, and then, or where memory is refused, the checker stands as before.
    pub fn take(&mut self, step: &Step) -> Result<(), KernFault>
        ensures { Takes self.old self.new result (step_of step.now) }
    {
        let before = self.nodes.len();
        match add_line(
            self.alloc,
            self.sequent,
            &mut self.nodes,
            &mut self.clauses,
            step,
        ) {
            Ok(true) => {
                self.taken += 1;
                Ok(())
            }
            Ok(false) => Err(KernFault::Refused {
                at: self.next(),
                broken: kind_of(step),
            }),
            Err(_) => {
                self.nodes.cut(before);
                Err(KernFault::Memory)
            }
        }
    }

    /// The number of the next step, from 1.
    fn next(&self) -> u64
        ensures { result ≡ self.now.taken + 1 }
    {
        let _nodes = self.nodes.len();
        let _clauses = self.clauses.len();
        self.taken + 1
    }

    /// The log ends here: refused exactly where there is no clause or the last one isn't empty.
    pub fn finish(&self) -> Result<Accepted, KernFault>
        ensures finishes { Finishes self.now result }
        // Where the steps that were taken are a log from the beginning, its sequent is valid.
        ensures valid { OnOk result (ProvesGoal self.now) }
    {
        if ends(&self.clauses) {
            return Ok(Accepted { steps: self.taken });
        }
        Err(KernFault::Refused {
            at: self.next(),
            broken: 0,
        })
    }
}

/// Whether the log derives its sequent: Ok exactly where each step is a line of a derivation and the
/// last clause is empty. What it answers says that this log was taken, and the sequent is then valid.
pub fn check(alloc: Global, sequent: &Sequent, log: &[Step]) -> Result<Accepted, KernFault>
    ensures taken { IfOk result (IsTaken (sequent_of sequent.now) (map step_of log.now)) }
    ensures derives { OnOk result (Derives (sequent_of sequent.now) (map step_of log.now)) }
    ensures valid { OnOk result (IsValid (sequent_of sequent.now)) }
    ensures answers { Answers (refusal (sequent_of sequent.now) (map step_of log.now)) result }
{
    let mut checker = Checker::new(alloc, sequent)?;
    for step in log {
        match checker.take(step) {
            Ok(()) => {}
            Err(fault) => return Err(fault),
        }
    }
    checker.finish()
}
