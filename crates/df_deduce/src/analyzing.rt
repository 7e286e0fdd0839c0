//! Conflict analysis: from a false clause back to the first unique implication point, which gives a
//! clause to learn.

use crate::state::State;
use df_clauses::{Analysis, GROUND, Literal, Origin, Reason, with_last};
use std::alloc::AllocError;

/// What a conflict comes to.
#[derive(Clone, Copy)]
pub enum Lesson {
    /// A clause is learned, which gives a literal now.
    Learned,
    /// The empty clause is learned, and has this number.
    Refuted(usize),
    /// The conflict has no explanation.
    Lost,
}

impl<'a> State<'a> {
    /// Learns from a clause that is false.
    pub fn learn(&mut self, conflict: usize) -> Result<Lesson, AllocError> {
        let level = self.solver.level_of(conflict);
        self.cancel(level)?;
        let mut analysis = Analysis::new(self.alloc, level);
        self.learn_by(&mut analysis, conflict)
    }

    /// Learns by an analysis that has met nothing yet.
    fn learn_by(&mut self, analysis: &mut Analysis, conflict: usize) -> Result<Lesson, AllocError> {
        let asserting = self.analyze(analysis, conflict)?;
        self.solver.forget(analysis);
        self.solver.order.decay()?;
        if self.is_lost {
            return Ok(Lesson::Lost);
        }
        match asserting {
            Some(literal) => self.learn_clause(analysis, literal),
            None if analysis.level <= GROUND => self.learn_empty(analysis),
            None => Ok(Lesson::Lost),
        }
    }

    /// Resolves the conflict with the reasons of its level. The negation of the first unique
    /// implication point; none up to the level of the negated goal, where nothing is left.
    fn analyze(
        &mut self,
        analysis: &mut Analysis,
        conflict: usize,
    ) -> Result<Option<Literal>, AllocError> {
        self.resolve(analysis, conflict)?;
        for place in (0..self.solver.trail.len()).rev() {
            if analysis.open == 0 {
                break;
            }
            let Some(literal) = self.solver.trail.literal(place) else {
                break;
            };
            if !self.solver.is_open(analysis, literal) {
                continue;
            }
            if analysis.open == 1 && analysis.level > GROUND {
                return Ok(Some(literal.negation()));
            }
            analysis.open = analysis.open.saturating_sub(1);
            let Some(reason) = self.reason(literal)? else {
                self.is_lost = true;
                break;
            };
            self.resolve(analysis, reason)?;
        }
        Ok(None)
    }

    /// Meets the false literals of a clause.
    fn resolve(&mut self, analysis: &mut Analysis, clause: usize) -> Result<(), AllocError> {
        let width = self.solver.book.width(clause);
        self.spend(width);
        self.solver.resolve(analysis, clause)
    }

    /// The clause that gave a literal its value.
    pub(crate) fn reason(&mut self, literal: Literal) -> Result<Option<usize>, AllocError> {
        let Some(assignment) = self.solver.trail.assignment(literal.variable) else {
            return Ok(None);
        };
        let clause = match assignment.reason {
            Reason::Decision => return Ok(None),
            Reason::Clause(clause) => return Ok(Some(clause)),
            Reason::Bound(bound) => self.explain_bound(literal, bound, assignment.place)?,
            Reason::Constant => self.explain_constant(literal)?,
            Reason::Classes => self.explain_equality(literal)?,
        };
        if let Some(clause) = clause {
            self.solver.trail.explain(literal.variable, clause);
        }
        Ok(clause)
    }

    /// The antecedents of what is learned, in the order in which propagation needs them.
    fn antecedents(&mut self, analysis: &Analysis) -> Result<Vec<usize>, AllocError> {
        let mut antecedents = Vec::new(self.alloc);
        for variable in analysis.roots.iter() {
            match self.unit(*variable)? {
                Some(unit) => antecedents.push(unit)?,
                None => self.is_lost = true,
            }
        }
        for clause in analysis.resolved.iter().rev() {
            antecedents.push(*clause)?;
        }
        Ok(antecedents)
    }

    fn learn_empty(&mut self, analysis: &Analysis) -> Result<Lesson, AllocError> {
        let antecedents = self.antecedents(analysis)?;
        if self.is_lost {
            return Ok(Lesson::Lost);
        }
        let literals = Vec::new(self.alloc);
        let empty = self
            .solver
            .book
            .add(literals, Origin::Learned(antecedents))?;
        Ok(Lesson::Refuted(empty))
    }

    /// Learns that the literal is true where the kept ones are false, and goes back to where only they
    /// are.
    fn learn_clause(
        &mut self,
        analysis: &Analysis,
        asserting: Literal,
    ) -> Result<Lesson, AllocError> {
        let antecedents = self.antecedents(analysis)?;
        if self.is_lost {
            return Ok(Lesson::Lost);
        }
        let level = self.solver.highest_level(&analysis.kept);
        match self.cancel(level) {
            Ok(()) => self.add_learned(&analysis.kept, asserting, antecedents),
            Err(error) => Err(error),
        }
    }

    /// Adds what is learned: the last literal is true where the others are false.
    fn add_learned(
        &mut self,
        kept: &[Literal],
        asserting: Literal,
        antecedents: Vec<usize>,
    ) -> Result<Lesson, AllocError> {
        match with_last(self.alloc, kept, asserting) {
            Ok(literals) => match self.add_clause(literals, Origin::Learned(antecedents))? {
                None => Ok(Lesson::Learned),
                Some(_) => Ok(Lesson::Lost),
            },
            Err(error) => Err(error),
        }
    }
}
