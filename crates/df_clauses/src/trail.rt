//! The trail: literals in the order in which they became true.

use crate::literal::Literal;
use std::alloc::{AllocError, Global};

/// The decision level of the negated goal: what is true below it follows from hypotheses alone.
pub const GROUND: usize = 1;

/// Why a literal is true.
#[derive(Clone, Copy)]
pub enum Reason {
    Decision,
    /// All other literals of the clause are false.
    Clause(usize),
    /// The bound of this number.
    Bound(usize),
    /// It compares constants.
    Constant,
    /// It is an equality whose sides are in one class.
    Classes,
}

/// The value of a variable.
#[derive(Clone, Copy)]
pub struct Assignment {
    pub positive: bool,
    /// The decision level.
    pub level: usize,
    /// Its place on the trail.
    pub place: usize,
    pub reason: Reason,
}

/// Literals in the order in which they became true.
#[derive(Drop)]
pub struct Trail {
    /// By variable.
    assignments: Vec<Option<Assignment>>,
    literals: Vec<Literal>,
    /// How many literals there were where each decision level began.
    starts: Vec<usize>,
    /// How many of them are propagated.
    propagated: usize,
}

impl Trail {
    pub fn new(alloc: Global) -> Trail {
        Trail {
            assignments: Vec::new(alloc),
            literals: Vec::new(alloc),
            starts: Vec::new(alloc),
            propagated: 0,
        }
    }

    /// One more variable.
    pub fn add_variable(&mut self) -> Result<(), AllocError> {
        self.assignments.push(None)?;
        Ok(())
    }

    /// The decision level.
    pub fn level(&self) -> usize {
        self.starts.len()
    }

    pub fn len(&self) -> usize {
        self.literals.len()
    }

    /// The literal at a place.
    pub fn literal(&self, place: usize) -> Option<Literal> {
        self.literals.get(place).copied()
    }

    pub fn assignment(&self, variable: usize) -> Option<Assignment> {
        match self.assignments.get(variable) {
            Some(assignment) => *assignment,
            None => None,
        }
    }

    /// Whether the literal is true, where its variable has a value.
    pub fn value(&self, literal: Literal) -> Option<bool> {
        let assignment = self.assignment(literal.variable)?;
        Some(assignment.positive == literal.positive)
    }

    pub fn is_true(&self, literal: Literal) -> bool {
        self.value(literal) == Some(true)
    }

    pub fn is_false(&self, literal: Literal) -> bool {
        self.value(literal) == Some(false)
    }

    /// The level at which a literal got its value; past all levels where it has none or is true.
    pub fn false_level(&self, literal: Literal) -> usize {
        match self.assignment(literal.variable) {
            Some(assignment) if assignment.positive != literal.positive => assignment.level,
            _ => usize::MAX,
        }
    }

    fn set(&mut self, variable: usize, assignment: Option<Assignment>) {
        if let Some(slot) = self.assignments.get_mut(variable) {
            *slot = assignment;
        }
    }

    /// Makes a literal true whose variable has no value.
    pub fn assign(&mut self, literal: Literal, reason: Reason) -> Result<(), AllocError> {
        let assignment = Assignment {
            positive: literal.positive,
            level: self.level(),
            place: self.literals.len(),
            reason,
        };
        self.literals.push(literal)?;
        self.set(literal.variable, Some(assignment));
        Ok(())
    }

    /// Gives a literal that has a value another reason.
    pub fn explain(&mut self, variable: usize, clause: usize) {
        if let Some(assignment) = self.assignment(variable) {
            self.set(
                variable,
                Some(Assignment {
                    positive: assignment.positive,
                    level: assignment.level,
                    place: assignment.place,
                    reason: Reason::Clause(clause),
                }),
            );
        }
    }

    /// The next literal to propagate.
    pub fn next(&mut self) -> Option<Literal> {
        let literal = self.literal(self.propagated)?;
        self.propagated = self.propagated.saturating_add(1);
        Some(literal)
    }

    /// A decision level begins.
    pub fn open(&mut self) -> Result<(), AllocError> {
        self.starts.push(self.literals.len())?;
        Ok(())
    }

    /// How many literals the levels up to this one have.
    pub fn end_of(&self, level: usize) -> usize {
        match self.starts.get(level) {
            Some(start) => *start,
            None => self.literals.len(),
        }
    }

    /// Takes the last literal back.
    pub fn retract(&mut self) -> Option<Literal> {
        let literal = self.literals.pop()?;
        self.set(literal.variable, None);
        Some(literal)
    }

    /// The levels after this one end, whose literals are taken back.
    pub fn close(&mut self, level: usize) {
        self.starts.truncate(level);
        self.propagated = self.propagated.min(self.literals.len());
    }
}
