//! What the analysis of a conflict meets on its way back from a false clause.

use crate::literal::Literal;
use crate::watching::Solver;
use std::alloc::{AllocError, Global};

/// An analysis so far.
#[derive(Drop)]
pub struct Analysis {
    /// The decision level of the conflict.
    pub level: usize,
    /// How many literals of that level are met and not resolved.
    pub open: usize,
    /// False literals of lower levels, but for the lowest.
    pub kept: Vec<Literal>,
    /// The clauses that were resolved with, the last one first.
    pub resolved: Vec<usize>,
    /// Variables of the lowest level that were met.
    pub roots: Vec<usize>,
    /// All variables that were met.
    met: Vec<usize>,
}

impl Analysis {
    pub fn new(alloc: Global, level: usize) -> Analysis {
        Analysis {
            level,
            open: 0,
            kept: Vec::new(alloc),
            resolved: Vec::new(alloc),
            roots: Vec::new(alloc),
            met: Vec::new(alloc),
        }
    }
}

impl Solver {
    /// The highest level of a false clause's literals.
    pub fn level_of(&self, clause: usize) -> usize {
        let mut level = 0;
        for place in 0..self.book.width(clause) {
            if let Some(literal) = self.book.literal(clause, place) {
                level = level.max(self.level_at(literal));
            }
        }
        level
    }

    /// The highest level of literals.
    pub fn highest_level(&self, literals: &[Literal]) -> usize {
        let mut level = 0;
        for literal in literals {
            level = level.max(self.level_at(*literal));
        }
        level
    }

    /// The level of a literal's variable; 0 where it has no value.
    fn level_at(&self, literal: Literal) -> usize {
        match self.trail.assignment(literal.variable) {
            Some(assignment) => assignment.level,
            None => 0,
        }
    }

    /// Whether the literal was met and is of the level of the conflict.
    pub fn is_open(&self, analysis: &Analysis, literal: Literal) -> bool {
        match self.trail.assignment(literal.variable) {
            Some(assignment) => {
                assignment.level == analysis.level && self.is_marked(literal.variable)
            }
            None => false,
        }
    }

    fn is_marked(&self, variable: usize) -> bool {
        match self.marks.get(variable) {
            Some(mark) => *mark,
            None => true,
        }
    }

    fn mark(&mut self, variable: usize, is_met: bool) {
        if let Some(mark) = self.marks.get_mut(variable) {
            *mark = is_met;
        }
    }

    /// No variable is met any more.
    pub fn forget(&mut self, analysis: &Analysis) {
        for variable in analysis.met.iter() {
            self.mark(*variable, false);
        }
    }

    /// Meets the false literals of a clause.
    pub fn resolve(&mut self, analysis: &mut Analysis, clause: usize) -> Result<(), AllocError> {
        analysis.resolved.push(clause)?;
        for place in 0..self.book.width(clause) {
            if let Some(literal) = self.book.literal(clause, place) {
                self.meet(analysis, literal)?;
            }
        }
        Ok(())
    }

    fn meet(&mut self, analysis: &mut Analysis, literal: Literal) -> Result<(), AllocError> {
        let variable = literal.variable;
        let Some(assignment) = self.trail.assignment(variable) else {
            return Ok(());
        };
        if assignment.positive == literal.positive || self.is_marked(variable) {
            return Ok(());
        }
        self.mark(variable, true);
        analysis.met.push(variable)?;
        self.order.bump(variable);
        if assignment.level == analysis.level {
            analysis.open = analysis.open.saturating_add(1);
        } else if assignment.level == 0 {
            analysis.roots.push(variable)?;
        } else {
            analysis.kept.push(literal)?;
        }
        Ok(())
    }
}
