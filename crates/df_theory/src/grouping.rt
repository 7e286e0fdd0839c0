//! Rows of the tableau that are looked at together, and solved.

use crate::theory::Theory;
use df_linear::Column;
use df_simplex::{Entry, coefficient_at, combine, content, divided, is_fixed};
use std::alloc::AllocError;

/// How many rows are looked at.
const ROWS: usize = 32;

/// How often rows are looked for that share a column with those so far.
const PASSES: usize = 4;

/// Rows of the tableau that are looked at together.
#[derive(Drop)]
pub(crate) struct Group {
    pub rows: Vec<Vec<Entry>>,
    /// By row of the tableau, whether it is among them.
    is_taken: Vec<bool>,
    /// By column, whether one of them holds it.
    is_held: Vec<bool>,
}

impl Group {
    fn has(&self, row: usize) -> bool {
        self.is_taken.get(row).copied().unwrap_or(true)
    }

    fn holds(&self, column: usize) -> bool {
        self.is_held.get(column).copied().unwrap_or(false)
    }

    fn holds_some(&self, entries: &[Entry]) -> bool {
        for entry in entries {
            if self.holds(entry.column) {
                return true;
            }
        }
        false
    }
}

impl Theory {
    /// How much work it is to look for a cut.
    pub fn cutting_work(&self) -> usize {
        let size = self.tableau.size().saturating_add(self.forms.len());
        size.saturating_mul(PASSES).saturating_add(ROWS * ROWS * 16)
    }

    /// The rows whose basic columns are not whole, and some that share columns with them.
    pub(crate) fn group(&self) -> Result<Group, AllocError> {
        let mut group = Group {
            rows: Vec::new(self.alloc),
            is_taken: vec![in self.alloc; false; self.tableau.row_count()]?,
            is_held: vec![in self.alloc; false; self.forms.len()]?,
        };
        for pass in 0..PASSES {
            self.extend(&mut group, pass == 0)?;
        }
        Ok(group)
    }

    fn extend(&self, group: &mut Group, is_first: bool) -> Result<(), AllocError> {
        for row in 0..self.tableau.row_count() {
            if group.rows.len() < ROWS && self.is_wanted(&*group, row, is_first) {
                self.take(group, row)?;
            }
        }
        Ok(())
    }

    fn is_wanted(&self, group: &Group, row: usize, is_first: bool) -> bool {
        if group.has(row) || !self.is_telling(row) {
            false
        } else if is_first {
            self.tableau.is_fractional(row)
        } else {
            self.is_near(group, row)
        }
    }

    /// Whether a row says more than what its basic column is.
    fn is_telling(&self, row: usize) -> bool {
        let Some(basic) = self.tableau.basic(row) else {
            return false;
        };
        let is_node = matches!(self.forms.column(basic.column), Some(Column::Node(_)));
        self.bounds.width(basic.column).is_some() || (is_node && basic.coefficient != 1)
    }

    /// Whether a row shares a column with the group.
    fn is_near(&self, group: &Group, row: usize) -> bool {
        if let Some(basic) = self.tableau.basic(row) {
            if group.holds(basic.column) {
                return true;
            }
        }
        match self.tableau.others(row) {
            Some(others) => group.holds_some(others),
            None => false,
        }
    }

    fn take(&self, group: &mut Group, row: usize) -> Result<(), AllocError> {
        let members = self.tableau.members(row)?;
        for entry in members.iter() {
            if !is_fixed(&self.bounds, entry.column) {
                if let Some(is_held) = group.is_held.get_mut(entry.column) {
                    *is_held = true;
                }
            }
        }
        if let Some(is_taken) = group.is_taken.get_mut(row) {
            *is_taken = true;
        }
        group.rows.push(members)?;
        Ok(())
    }

    /// Solves each row for its widest column, which no other row has then.
    pub(crate) fn solve(&self, rows: &mut Vec<Vec<Entry>>) -> Result<(), AllocError> {
        for place in 0..rows.len() {
            let Some(row) = rows.get(place) else {
                break;
            };
            if let Some(pivot) = self.widest(row) {
                let source = Vec::from_slice(self.alloc, row.as_slice())?;
                self.eliminate(rows, place, &source, pivot)?;
            }
        }
        Ok(())
    }

    /// The member whose bounds are farthest apart, with the least coefficient; none that is fixed.
    fn widest(&self, row: &[Entry]) -> Option<Entry> {
        let mut best: Option<Entry> = None;
        for entry in row {
            let is_best = match best {
                Some(known) => self.is_before(entry, &known),
                None => true,
            };
            if is_best && !is_fixed(&self.bounds, entry.column) {
                best = Some(*entry);
            }
        }
        best
    }

    fn is_before(&self, entry: &Entry, other: &Entry) -> bool {
        let (own, known) = (self.width(entry.column), self.width(other.column));
        let is_less = entry.coefficient.unsigned_abs() < other.coefficient.unsigned_abs();
        known < own || (known == own && is_less)
    }

    /// Has a column fall out of all rows but the one at this place.
    fn eliminate(
        &self,
        rows: &mut Vec<Vec<Entry>>,
        place: usize,
        source: &[Entry],
        pivot: Entry,
    ) -> Result<(), AllocError> {
        for number in 0..rows.len() {
            let next = match rows.get(number) {
                Some(row) if number != place => self.without(row, source, pivot)?,
                _ => None,
            };
            if let (Some(next), Some(row)) = (next, rows.get_mut(number)) {
                *row = next;
            }
        }
        Ok(())
    }

    /// A row without a column, by another one that has it, where it has it and the numbers fit.
    fn without(
        &self,
        row: &[Entry],
        source: &[Entry],
        pivot: Entry,
    ) -> Result<Option<Vec<Entry>>, AllocError> {
        let coefficient = coefficient_at(row, pivot.column);
        let Some(opposite) = coefficient.checked_neg() else {
            return Ok(None);
        };
        if coefficient == 0 {
            return Ok(None);
        }
        match combine(self.alloc, pivot.coefficient, row, opposite, source)? {
            Some(sum) => self.reduced(&sum),
            None => Ok(None),
        }
    }

    /// A row divided by what divides all its coefficients.
    fn reduced(&self, row: &[Entry]) -> Result<Option<Vec<Entry>>, AllocError> {
        match content(0, row) {
            Some(divisor) => divided(self.alloc, row, divisor),
            None => Ok(None),
        }
    }
}
