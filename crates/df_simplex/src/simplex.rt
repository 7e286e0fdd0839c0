//! The simplex method: pivots bring the basic variables within their bounds, or show that none can.

use crate::bounds::{Bounds, Side};
use crate::rows::Need;
use crate::tableau::{ROOM, Tableau, is_past, value_at};
use crate::tableau_row::{Row, eliminated, solved_for};
use std::alloc::AllocError;

/// A basic variable past a bound.
#[derive(Clone, Copy)]
struct Violation {
    row: usize,
    column: usize,
    side: Side,
    /// The value at the bound.
    target: i128,
}

/// What a check comes to.
#[derive(Drop)]
pub enum Check {
    /// All variables are within their bounds.
    Feasible,
    /// These bounds refute a row.
    Refuted(Vec<Need>),
    /// A number is past 128 bits, or too many pivots would be needed.
    GaveUp,
}

/// The side of the bound of a nonbasic variable that keeps a basic one past its bound on a side.
fn blocking(side: Side, coefficient: i128) -> Side {
    if coefficient < 0 {
        side
    } else {
        side.opposite()
    }
}

impl Tableau {
    /// How a row's basic variable violates its bounds.
    fn violation_of(&self, bounds: &Bounds, number: usize, row: &Row) -> Option<Violation> {
        for side in [Side::Lower, Side::Upper] {
            let Some(constant) = bounds.constant(row.basic, side) else {
                continue;
            };
            let is_violated = match row.factor.checked_mul(constant) {
                Some(scaled) => is_past(side, scaled, row.sum).unwrap_or(false),
                None => false,
            };
            if is_violated {
                return Some(Violation {
                    row: number,
                    column: row.basic,
                    side,
                    target: value_at(side, constant)?,
                });
            }
        }
        None
    }

    /// The violation of the least basic variable.
    fn violation(&self, bounds: &Bounds) -> Option<Violation> {
        let mut least: Option<Violation> = None;
        for (number, row) in self.rows.iter().enumerate() {
            let limit = match least {
                Some(violation) => violation.column,
                None => usize::MAX,
            };
            if row.basic < limit {
                if let Some(violation) = self.violation_of(bounds, number, row) {
                    least = Some(violation);
                }
            }
        }
        least
    }

    /// Whether a nonbasic variable can move away from the bound on the side.
    fn can_leave(&self, bounds: &Bounds, column: usize, side: Side) -> bool {
        let Some(constant) = bounds.constant(column, side) else {
            return true;
        };
        match value_at(side, constant) {
            Some(value) => value != self.value(column),
            None => true,
        }
    }

    /// The least nonbasic variable that can bring a basic one back to its bound.
    fn entering(&self, bounds: &Bounds, violation: &Violation) -> Option<usize> {
        let row = self.rows.get(violation.row)?;
        for entry in row.entries.iter() {
            let side = blocking(violation.side, entry.coefficient);
            if self.can_leave(bounds, entry.column, side) {
                return Some(entry.column);
            }
        }
        None
    }

    /// The bounds that refute a row.
    fn refutation(&self, violation: &Violation) -> Result<Vec<Need>, AllocError> {
        let mut needs = Vec::new(self.alloc);
        let Some(row) = self.rows.get(violation.row) else {
            return Ok(needs);
        };
        needs.push(Need {
            factor: row.factor,
            column: row.basic,
            side: violation.side,
        })?;
        for entry in row.entries.iter() {
            needs.push(Need {
                factor: entry.coefficient.checked_abs().unwrap_or(0),
                column: entry.column,
                side: blocking(violation.side, entry.coefficient),
            })?;
        }
        Ok(needs)
    }

    /// Solves the violated row for the column, and has its basic variable at its bound. Whether it
    /// could.
    fn pivot(&mut self, violation: &Violation, column: usize) -> Result<bool, AllocError> {
        let solved = match self.rows.get(violation.row) {
            Some(row) => solved_for(self.alloc, row, column)?,
            None => None,
        };
        let Some(source) = solved else {
            return Ok(false);
        };
        self.set_value(violation.column, violation.target);
        for number in 0..self.rows.len() {
            if number != violation.row && !self.substitute(number, column, &source)? {
                return Ok(false);
            }
        }
        self.exchange(violation, column, source);
        self.refresh(violation.row);
        Ok(!self.is_broken && self.size() <= ROOM)
    }

    /// Puts what a variable is in its place in a row that holds it, and computes its sum. Whether it could.
    fn substitute(
        &mut self,
        number: usize,
        column: usize,
        source: &Row,
    ) -> Result<bool, AllocError> {
        if !self.holds(number, column) {
            return Ok(true);
        }
        let next = match self.rows.get(number) {
            Some(row) => eliminated(self.alloc, row, column, source)?,
            None => None,
        };
        match (next, self.rows.get_mut(number)) {
            (Some(next), Some(row)) => {
                *row = next;
                self.refresh(number);
                Ok(true)
            }
            _ => Ok(false),
        }
    }

    fn exchange(&mut self, violation: &Violation, column: usize, source: Row) {
        if let Some(row) = self.rows.get_mut(violation.row) {
            *row = source;
        }
        if let Some(slot) = self.row_of.get_mut(column) {
            *slot = Some(violation.row);
        }
        if let Some(slot) = self.row_of.get_mut(violation.column) {
            *slot = None;
        }
    }

    /// How much work a pivot is.
    fn pivot_work(&self) -> usize {
        let rows = self.rows.len().saturating_mul(4);
        self.size().saturating_mul(4).saturating_add(rows)
    }

    /// Brings all variables within their bounds, by at most so many pivots. What it comes to, and how
    /// many numbers it has gone through.
    pub fn check(
        &mut self,
        bounds: &mut Bounds,
        pivots: usize,
    ) -> Result<(Check, usize), AllocError> {
        self.is_settled = false;
        self.clamp_all(bounds)?;
        let mut work = self.size();
        for _ in 0..pivots {
            if self.is_broken {
                break;
            }
            let Some(violation) = self.violation(bounds) else {
                self.is_settled = true;
                return Ok((Check::Feasible, work));
            };
            let Some(column) = self.entering(bounds, &violation) else {
                return Ok((Check::Refuted(self.refutation(&violation)?), work));
            };
            self.is_broken = !self.pivot(&violation, column)?;
            work = work.saturating_add(self.pivot_work());
        }
        Ok((Check::GaveUp, work))
    }
}
