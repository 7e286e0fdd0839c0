//! Where each variable has a value: whole numbers for all columns, or a split.

use crate::searching::{Search, Turn};
use df_clauses::Origin;
use df_simplex::{Cause, Check, Entry, Side};
use df_theory::Column;
use std::alloc::AllocError;

/// Half the sum of the coefficients' magnitudes, rounded up: by how much a form may change where its
/// columns are rounded.
fn radius(entries: &[Entry]) -> Option<i128> {
    let mut sum = 1i128;
    for entry in entries {
        sum = sum.checked_add(entry.coefficient.checked_abs()?)?;
    }
    sum.checked_div_euclid(2)
}

impl<'a> Search<'a> {
    /// Has all columns be whole, or learns or splits where one is not.
    pub fn complete(&mut self) -> Result<Turn, AllocError> {
        if !self.state.theory.is_settled() || self.state.theory.tableau.is_broken {
            return Ok(Turn::GaveUp);
        }
        let size = self.state.theory.tableau.size();
        self.state.spend(size);
        let level = self.state.solver.trail.level();
        let Some((node, bound)) = self.fractional() else {
            return Ok(Turn::Whole(level));
        };
        let work = self.state.theory.dividing_work();
        self.state.spend(work);
        if let Some(derivations) = self.state.theory.indivisible()? {
            let conflict = self.state.explain_conflicts(&derivations)?;
            return self.after(conflict);
        }
        if self.is_rounded()? {
            return Ok(Turn::Whole(level));
        }
        self.split(node, bound)
    }

    /// A number that is not whole, and the whole one below it.
    fn fractional(&self) -> Option<(usize, i128)> {
        let theory = &self.state.theory;
        for column in 0..theory.forms.len() {
            if let Some(Column::Node(node)) = theory.forms.column(column) {
                let value = theory.tableau.fraction(column);
                if value.numerator.checked_rem(value.denominator) != Some(0) {
                    let below = value.numerator.checked_div_euclid(value.denominator)?;
                    return Some((node, below));
                }
            }
        }
        None
    }

    /// Looks for a point from which rounding leads past no bound. Whether the tableau has one then.
    fn is_rounded(&mut self) -> Result<bool, AllocError> {
        let level = self.state.solver.trail.level();
        self.state.open()?;
        if self.shrink_all()? {
            if let Check::Feasible = self.state.check_tableau()? {
                return Ok(true);
            }
        }
        self.state.cancel(level)?;
        Ok(false)
    }

    /// Tightens the bounds of all forms, by as much as rounding may change them. Whether it could.
    fn shrink_all(&mut self) -> Result<bool, AllocError> {
        for column in 0..self.state.theory.forms.len() {
            let radius = match self.state.theory.forms.entries(column) {
                Some(entries) => radius(entries),
                None => continue,
            };
            let Some(radius) = radius else {
                return Ok(false);
            };
            if !self.shrink(column, radius)? {
                return Ok(false);
            }
        }
        Ok(true)
    }

    /// Tightens the bounds of a column. Whether they allow it.
    fn shrink(&mut self, column: usize, radius: i128) -> Result<bool, AllocError> {
        let bounds = &mut self.state.theory.bounds;
        for side in [Side::Lower, Side::Upper] {
            let Some(constant) = bounds.constant(column, side) else {
                continue;
            };
            let Some(constant) = constant.checked_sub(radius) else {
                return Ok(false);
            };
            bounds.push(column, side, constant, Cause::Row(0))?;
            match bounds.constant(column, side.opposite()) {
                Some(other) if constant.saturating_add(other) < 0 => return Ok(false),
                _ => {}
            }
        }
        Ok(true)
    }

    /// Adds the clause that a number is at most a bound, or at least the next number, and decides the side of 0.
    pub fn split(&mut self, node: usize, bound: i128) -> Result<Turn, AllocError> {
        let Some(next) = bound.checked_add(1) else {
            return Ok(Turn::GaveUp);
        };
        self.state.spend(64);
        let low = self.state.terms.at_most(node, bound)?;
        let high = self.state.terms.at_least(next, node)?;
        let low = self.state.literal(low, true)?;
        let high = self.state.literal(high, true)?;
        let literals = vec![in self.state.alloc; low, high]?;
        let conflict = self
            .state
            .add_clause(literals, Origin::Split { node, bound })?;
        let side = if bound < 0 { high } else { low };
        if conflict.is_none() && self.state.solver.trail.value(side).is_none() {
            self.state.decide(side)?;
        }
        self.after(conflict)
    }
}
