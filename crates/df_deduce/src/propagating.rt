//! Propagation: through clauses that watch literals, and through rows from bound to bound.

use crate::state::State;
use df_clauses::Literal;
use df_simplex::{Cause, Given, Propagation};
use df_theory::Meaning;
use std::alloc::AllocError;

impl<'a> State<'a> {
    /// Propagates all that is true. A clause that is false, if one is.
    pub fn propagate(&mut self) -> Result<Option<usize>, AllocError> {
        let mut visits = self.theory.rows.len().saturating_mul(8).saturating_add(64);
        for _ in 0..usize::MAX {
            if self.is_over() {
                break;
            }
            let conflict = if let Some(literal) = self.solver.trail.next() {
                self.propagate_literal(literal)?
            } else if self.has_classes && !self.graph.is_quiet() {
                self.propagate_classes()?
            } else if visits == 0 {
                self.theory.rows.rest();
                break;
            } else if let Some(row) = self.theory.rows.next() {
                visits = visits.saturating_sub(1);
                self.propagate_row(row)?
            } else {
                break;
            };
            if conflict.is_some() {
                return Ok(conflict);
            }
        }
        Ok(None)
    }

    /// Propagates through clauses alone. A clause that is false, if one is.
    pub fn propagate_literals(&mut self) -> Result<Option<usize>, AllocError> {
        for _ in 0..usize::MAX {
            if self.is_over() {
                break;
            }
            let Some(literal) = self.solver.trail.next() else {
                break;
            };
            let conflict = self.propagate_literal(literal)?;
            if conflict.is_some() {
                return Ok(conflict);
            }
        }
        Ok(None)
    }

    fn propagate_literal(&mut self, literal: Literal) -> Result<Option<usize>, AllocError> {
        let falsified = literal.negation();
        let count = self.solver.book.watcher_count(falsified);
        self.spend(count.saturating_add(1));
        let conflict = self.solver.visit_watchers(falsified)?;
        if conflict.is_some() {
            return Ok(conflict);
        }
        let conflict = self.assert_literal(literal)?;
        if conflict.is_some() {
            return Ok(conflict);
        }
        self.define(literal)
    }

    /// Has arithmetic know the literal. A clause that is false, if one is.
    fn assert_literal(&mut self, literal: Literal) -> Result<Option<usize>, AllocError> {
        match self.variables.meaning(literal.variable) {
            Meaning::Nothing => self.assert_equality(literal),
            Meaning::Constant(positive) if positive == literal.positive => Ok(None),
            Meaning::Constant(_) => self.explain_constant(literal.negation()),
            Meaning::Atom(atom) => {
                let (side, constant) = atom.bound(literal.positive);
                self.tighten(atom.column, side, constant, Cause::Literal(literal))
            }
        }
    }

    /// Propagates bounds through a row. A clause that is false, if one is.
    fn propagate_row(&mut self, row: usize) -> Result<Option<usize>, AllocError> {
        let width = self.theory.rows.width(row);
        self.spend(width);
        match self.theory.rows.propagate(&self.theory.bounds, row)? {
            Propagation::Given(all) => self.take_all(row, &all),
            Propagation::Refuted(needs) => self.explain_conflict(needs),
        }
    }

    fn take_all(&mut self, row: usize, all: &[Given]) -> Result<Option<usize>, AllocError> {
        for given in all {
            let bounds = &self.theory.bounds;
            if !bounds.is_worthwhile(given.column, given.side, given.constant) {
                continue;
            }
            let conflict = self.tighten(given.column, given.side, given.constant, Cause::Row(row))?;
            if conflict.is_some() {
                return Ok(conflict);
            }
        }
        Ok(None)
    }
}
