//! The search: it takes hypotheses in, tries bounds out, decides, learns from conflicts and restarts.

use crate::intake::Intake;
use crate::probing::Reach;
use df_clauses::{GROUND, Literal};
use df_deduce::{Lesson, State};
use df_simplex::Check;
use df_table::Table;
use df_theory::Meaning;
use std::alloc::AllocError;

/// How many products may be made with sums in place of factors.
const PRODUCTS: usize = 64;

/// Wider hypotheses come after all others.
const WIDTH: usize = 8;

/// How many conflicts come before the first restart.
const RESTART: u64 = 100;

/// What comes first where a product is not what its factors make it.
#[derive(Clone, Copy, PartialEq, Eq)]
pub(crate) enum Preference {
    /// Sums in place of factors.
    Sums,
    /// Comparisons with other products, and with numbers that no decision gave.
    Comparisons,
}

/// A search so far.
#[derive(Drop)]
pub(crate) struct Search<'a> {
    pub state: State<'a>,
    /// The formulas of the hypotheses,
    formulas: &'a [usize],
    /// and of the goal.
    conclusion: usize,
    /// Whether it is for a log alone.
    pub is_for_proof: bool,
    pub preference: Preference,
    /// The table of a counterexample.
    pub table: Option<Table>,
    /// The clause of the negated goal.
    pub goal: usize,
    /// The hypotheses.
    pub intake: Intake,
    /// How far the bounds are followed that are tried out next.
    pub reach: Reach,
    /// Bounds are tried out while this much work is left to do.
    pub reserve: u64,
    /// How many products may still be made with sums in place of factors.
    pub products: usize,
    /// How many conflicts there were.
    pub learned: u64,
    restarts: u64,
    /// How many conflicts are left before the next restart.
    conflicts: u64,
}

/// What a turn comes to.
#[derive(Clone, Copy, PartialEq, Eq)]
pub(crate) enum Turn {
    On,
    /// The empty clause has this number.
    Refuted(usize),
    /// Each column is whole. The levels after this one only looked for numbers.
    Whole(usize),
    /// There is a counterexample.
    Complete,
    GaveUp,
}

/// The number of this place in Luby's sequence, from 1.
fn luby(place: u64) -> u64 {
    let mut rest = place;
    for _ in 0..64 {
        let width = u64::BITS.saturating_sub(rest.leading_zeros());
        let full = u64::MAX
            .checked_shr(64u32.saturating_sub(width))
            .unwrap_or(0);
        if rest == full {
            return (full / 2).saturating_add(1);
        }
        rest = rest.saturating_sub(full / 2);
    }
    1
}

impl<'a> Search<'a> {
    /// A search by an engine for a sequent of these hypotheses and this goal, which knows those hypotheses that are taken
    /// in. It is to begin.
    pub fn new(
        state: State<'a>,
        intake: Intake,
        formulas: &'a [usize],
        conclusion: usize,
    ) -> Search<'a> {
        Search {
            state,
            formulas,
            conclusion,
            is_for_proof: false,
            preference: Preference::Sums,
            table: None,
            goal: 0,
            intake,
            reach: Reach::Clauses,
            reserve: 0,
            products: PRODUCTS,
            learned: 0,
            restarts: 1,
            conflicts: RESTART,
        }
    }

    /// Begins: the hypotheses are there to be taken in, and the clause of the negated goal is there.
    pub fn begin(&mut self) -> Result<(), AllocError> {
        self.state.begin()?;
        self.intake.begin(self.formulas.len())?;
        self.goal = self.state.goal_clause(self.conclusion)?;
        Ok(())
    }

    /// Goes on after a conflict, if there is one.
    pub fn after(&mut self, conflict: Option<usize>) -> Result<Turn, AllocError> {
        match conflict {
            Some(clause) => self.learn(clause),
            None => Ok(Turn::On),
        }
    }

    pub fn learn(&mut self, conflict: usize) -> Result<Turn, AllocError> {
        self.learned = self.learned.saturating_add(1);
        self.conflicts = self.conflicts.saturating_sub(1);
        match self.state.learn(conflict)? {
            Lesson::Learned => Ok(Turn::On),
            Lesson::Refuted(clause) => Ok(Turn::Refuted(clause)),
            Lesson::Lost => Ok(Turn::GaveUp),
        }
    }

    /// Propagates, and checks the tableau where the negated goal and some hypotheses are in force. A clause that is false,
    /// if one is.
    fn settle(&mut self) -> Result<Option<usize>, AllocError> {
        let conflict = self.state.propagate()?;
        if conflict.is_some() || self.is_early() || self.state.theory.is_settled() {
            return Ok(conflict);
        }
        match self.state.check_tableau()? {
            Check::Refuted(needs) => self.state.explain_conflict(needs),
            Check::Feasible | Check::GaveUp => Ok(None),
        }
    }

    /// Whether it is too early for the tableau.
    fn is_early(&self) -> bool {
        self.state.solver.trail.level() < GROUND || self.intake.is_at_start()
    }

    /// One step: what follows, and then what a conflict teaches or what comes next.
    pub fn turn(&mut self) -> Result<Turn, AllocError> {
        self.state.spend(1);
        let conflict = self.settle()?;
        if self.state.is_over() {
            return Ok(Turn::GaveUp);
        }
        match conflict {
            Some(clause) => self.learn(clause),
            None => self.advance(),
        }
    }

    fn advance(&mut self) -> Result<Turn, AllocError> {
        let level = self.state.solver.trail.level();
        if level <= GROUND {
            if self.state.has_unseen_operations() {
                return self.ask();
            }
            if level < GROUND {
                return self.stand();
            }
            if self.intake.is_open() || self.intake.widen() {
                return self.assume_chunk();
            }
            if self.reach != Reach::Nowhere {
                return self.probe();
            }
        }
        if self.conflicts == 0 {
            self.restart()?;
        }
        self.decide()
    }

    /// Has the negated goal be in force.
    pub fn stand(&mut self) -> Result<Turn, AllocError> {
        let conflict = self.state.stand(self.goal)?;
        self.after(conflict)
    }

    /// Looks at the operations that were met.
    fn ask(&mut self) -> Result<Turn, AllocError> {
        self.state.cancel(0)?;
        let conflict = self.state.ask_for_operations()?;
        self.after(conflict)
    }

    /// Takes further hypotheses in, from both ends.
    fn assume_chunk(&mut self) -> Result<Turn, AllocError> {
        self.state.cancel(0)?;
        let mut conflict = None;
        for _ in 0..self.intake.next_chunk() {
            if conflict.is_none() {
                conflict = self.assume_first()?;
            }
            if conflict.is_none() {
                conflict = self.assume_last()?;
            }
        }
        self.after(conflict)
    }

    fn assume_first(&mut self) -> Result<Option<usize>, AllocError> {
        match self.intake.next_first() {
            Some(number) => self.assume(number),
            None => Ok(None),
        }
    }

    fn assume_last(&mut self) -> Result<Option<usize>, AllocError> {
        match self.intake.next_last() {
            Some(number) => self.assume(number),
            None => Ok(None),
        }
    }

    /// Takes a hypothesis in, where its turn is now. Its clause, where that is false.
    fn assume(&mut self, number: usize) -> Result<Option<usize>, AllocError> {
        let Some(formula) = self.formulas.get(number).copied() else {
            return Ok(None);
        };
        if self.is_wide(formula) && !self.intake.takes_wide {
            self.intake.defer(number);
            return Ok(None);
        }
        self.intake.take(number);
        self.state.assume(formula, number)
    }

    /// Whether a formula is wide, and not known yet.
    fn is_wide(&self, formula: usize) -> bool {
        self.state.terms.width(formula) > WIDTH && self.state.variables.of_node(formula).is_none()
    }

    fn restart(&mut self) -> Result<(), AllocError> {
        self.restarts = self.restarts.saturating_add(1);
        self.conflicts = luby(self.restarts).saturating_mul(RESTART);
        self.state.cancel(GROUND)
    }

    /// Decides a variable that has no value.
    fn decide(&mut self) -> Result<Turn, AllocError> {
        for _ in 0..usize::MAX {
            let Some(variable) = self.state.solver.order.next() else {
                break;
            };
            if self.state.solver.trail.assignment(variable).is_none() {
                let positive = self.phase(variable);
                self.state.decide(Literal { variable, positive })?;
                return Ok(Turn::On);
            }
        }
        self.divide()
    }

    /// What a variable is decided to be: an atom what it is at the tableau's values.
    fn phase(&self, variable: usize) -> bool {
        match self.state.variables.meaning(variable) {
            Meaning::Atom(atom) => self.state.theory.holds(&atom),
            Meaning::Constant(positive) => positive,
            Meaning::Nothing => self.state.solver.order.phase(variable),
        }
    }
}
