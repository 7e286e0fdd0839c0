//! Units: clauses that say what variables of the lowest level are.

use crate::state::State;
use df_clauses::{Literal, Origin};
use std::alloc::AllocError;

impl<'a> State<'a> {
    /// The clause that says what a variable of the lowest level is.
    pub(crate) fn unit(&mut self, variable: usize) -> Result<Option<usize>, AllocError> {
        let mut waiting = vec![in self.alloc; variable]?;
        for _ in 0..usize::MAX {
            let Some(top) = waiting.last().copied() else {
                break;
            };
            self.spend(1);
            if self.is_over() {
                return Ok(None);
            }
            if self.variables.unit(top).is_some() {
                let _ = waiting.pop();
            } else if !self.prepare_unit(top, &mut waiting)? {
                return Ok(None);
            }
        }
        Ok(self.variables.unit(variable))
    }

    /// Derives the unit of a variable, or has those that it needs derived before. Whether it could.
    fn prepare_unit(
        &mut self,
        variable: usize,
        waiting: &mut Vec<usize>,
    ) -> Result<bool, AllocError> {
        let Some(assignment) = self.solver.trail.assignment(variable) else {
            return Ok(false);
        };
        let literal = Literal {
            variable,
            positive: assignment.positive,
        };
        let Some(reason) = self.reason(literal)? else {
            return Ok(false);
        };
        let missing = self.missing_units(variable, reason, waiting)?;
        if !missing {
            self.derive_unit(literal, reason)?;
        }
        Ok(true)
    }

    /// Has the units of a clause's other literals wait. Whether there are any that do.
    fn missing_units(
        &self,
        variable: usize,
        clause: usize,
        waiting: &mut Vec<usize>,
    ) -> Result<bool, AllocError> {
        let before = waiting.len();
        for place in 0..self.solver.book.width(clause) {
            if let Some(literal) = self.solver.book.literal(clause, place) {
                if literal.variable != variable && self.variables.unit(literal.variable).is_none() {
                    waiting.push(literal.variable)?;
                }
            }
        }
        Ok(before < waiting.len())
    }

    /// Derives the unit of a literal, whose reason's other literals have theirs.
    fn derive_unit(&mut self, literal: Literal, reason: usize) -> Result<(), AllocError> {
        let width = self.solver.book.width(reason);
        let unit = if width == 1 {
            reason
        } else {
            let antecedents = self.units_of(literal.variable, reason)?;
            let literals = vec![in self.alloc; literal]?;
            self.solver
                .book
                .add(literals, Origin::Learned(antecedents))?
        };
        self.variables.set_unit(literal.variable, unit);
        Ok(())
    }

    fn units_of(&self, variable: usize, clause: usize) -> Result<Vec<usize>, AllocError> {
        let mut units = Vec::new(self.alloc);
        for place in 0..self.solver.book.width(clause) {
            if let Some(literal) = self.solver.book.literal(clause, place) {
                if literal.variable != variable {
                    if let Some(unit) = self.variables.unit(literal.variable) {
                        units.push(unit)?;
                    }
                }
            }
        }
        units.push(clause)?;
        Ok(units)
    }
}
