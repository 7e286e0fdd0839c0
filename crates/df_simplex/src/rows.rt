//! The rows of forms, by which bounds are propagated: each says that a form less its members is 0.

use crate::bounds::{Bounds, Side};
use crate::linear::{Entry, coefficient_at};
use std::alloc::{AllocError, Global};
use std::collections::VecDeque;

/// A bound of a column on one side, so many times.
#[derive(Clone, Copy)]
pub struct Need {
    pub factor: i128,
    pub column: usize,
    pub side: Side,
}

impl Need {
    /// Both bounds of a column, each once.
    pub fn of_both(alloc: Global, column: usize) -> Result<Vec<Need>, AllocError> {
        let lower = Need {
            factor: 1,
            column,
            side: Side::Lower,
        };
        let upper = Need {
            factor: 1,
            column,
            side: Side::Upper,
        };
        Ok(vec![in alloc; lower, upper]?)
    }
}

/// A bound that a row gives.
#[derive(Clone, Copy)]
pub struct Given {
    pub column: usize,
    pub side: Side,
    pub constant: i128,
}

/// A sum of bounds of a row's members, and the column that has none, if one lacks it.
#[derive(Clone, Copy)]
struct Total {
    sum: i128,
    open: Option<usize>,
}

/// Rows by their numbers, and those that wait.
#[derive(Drop)]
pub struct Rows {
    alloc: Global,
    rows: Vec<Vec<Entry>>,
    /// By column, the rows that hold it.
    holders: Vec<Vec<usize>>,
    waiting: VecDeque<usize>,
    /// By row.
    is_waiting: Vec<bool>,
}

/// The side of a member's bound in a sum that is least where `least` is so, and else greatest.
fn side_in(coefficient: i128, least: bool) -> Side {
    if (coefficient < 0) == least {
        Side::Upper
    } else {
        Side::Lower
    }
}

/// So many times the constant more.
fn with_multiple(sum: i128, coefficient: i128, constant: i128) -> Option<i128> {
    sum.checked_add(coefficient.checked_abs()?.checked_mul(constant)?)
}

/// The sum of the bounds' rows, where at most one member has none.
fn sum_of_bounds(bounds: &Bounds, row: &[Entry], least: bool) -> Option<Total> {
    let mut sum = 0i128;
    let mut open = None;
    for entry in row {
        match bounds.constant(entry.column, side_in(entry.coefficient, least)) {
            Some(constant) => sum = with_multiple(sum, entry.coefficient, constant)?,
            None if open.is_none() => open = Some(entry.column),
            None => return None,
        }
    }
    Some(Total { sum, open })
}

/// The bound that the others give a member.
fn bound_from(bounds: &Bounds, entry: &Entry, total: Total, least: bool) -> Option<Given> {
    let side = side_in(entry.coefficient, least);
    let magnitude = entry.coefficient.checked_abs()?;
    let rest = match total.open {
        Some(column) if column == entry.column => total.sum,
        Some(_) => return None,
        None => {
            let own = magnitude.checked_mul(bounds.constant(entry.column, side)?)?;
            total.sum.checked_sub(own)?
        }
    };
    Some(Given {
        column: entry.column,
        side: side.opposite(),
        constant: rest.checked_div_euclid(magnitude)?,
    })
}

/// What a row comes to beside bounds.
#[derive(Drop)]
pub enum Propagation {
    /// Bounds that are tighter than those so far.
    Given(Vec<Given>),
    /// The bounds on one side each refute the row.
    Refuted(Vec<Need>),
}

impl Rows {
    pub fn new(alloc: Global) -> Rows {
        Rows {
            alloc,
            rows: Vec::new(alloc),
            holders: Vec::new(alloc),
            waiting: VecDeque::new(alloc),
            is_waiting: Vec::new(alloc),
        }
    }

    /// One more column.
    pub fn add_column(&mut self) -> Result<(), AllocError> {
        self.holders.push(Vec::new(self.alloc))?;
        Ok(())
    }

    /// Adds a row, which waits then.
    pub fn add(&mut self, row: Vec<Entry>) -> Result<(), AllocError> {
        let number = self.rows.len();
        for entry in row.iter() {
            if let Some(holders) = self.holders.get_mut(entry.column) {
                holders.push(number)?;
            }
        }
        self.rows.push(row)?;
        self.is_waiting.push(false)?;
        self.put(number)
    }

    pub fn row(&self, number: usize) -> Option<&[Entry]> {
        match self.rows.get(number) {
            Some(row) => Some(row.as_slice()),
            None => None,
        }
    }

    pub fn len(&self) -> usize {
        self.rows.len()
    }

    /// How many members a row has.
    pub fn width(&self, number: usize) -> usize {
        match self.rows.get(number) {
            Some(row) => row.len(),
            None => 0,
        }
    }

    /// The row waits.
    pub fn put(&mut self, row: usize) -> Result<(), AllocError> {
        if let Some(is_waiting) = self.is_waiting.get_mut(row) {
            if !*is_waiting {
                *is_waiting = true;
                self.waiting.push_back(row)?;
            }
        }
        Ok(())
    }

    fn holder(&self, column: usize, place: usize) -> Option<usize> {
        self.holders.get(column)?.get(place).copied()
    }

    fn holder_count(&self, column: usize) -> usize {
        match self.holders.get(column) {
            Some(holders) => holders.len(),
            None => 0,
        }
    }

    /// The rows that hold the column wait.
    pub fn wake(&mut self, column: usize) -> Result<(), AllocError> {
        for place in 0..self.holder_count(column) {
            if let Some(row) = self.holder(column, place) {
                self.put(row)?;
            }
        }
        Ok(())
    }

    /// The row that waits longest.
    pub fn next(&mut self) -> Option<usize> {
        let row = self.waiting.pop_front()?;
        if let Some(is_waiting) = self.is_waiting.get_mut(row) {
            *is_waiting = false;
        }
        Some(row)
    }

    /// No row waits.
    pub fn rest(&mut self) {
        for _ in 0..self.rows.len() {
            if self.next().is_none() {
                break;
            }
        }
    }

    /// The bounds of all members on one side each.
    fn needs(&self, row: &[Entry], least: bool) -> Result<Vec<Need>, AllocError> {
        let mut needs = Vec::with_capacity(self.alloc, row.len())?;
        for entry in row {
            needs.push(Need {
                factor: entry.coefficient.checked_abs().unwrap_or(0),
                column: entry.column,
                side: side_in(entry.coefficient, least),
            })?;
        }
        Ok(needs)
    }

    /// Adds the tighter bounds that the row gives.
    fn give(
        &self,
        bounds: &Bounds,
        row: &[Entry],
        total: Total,
        least: bool,
        found: &mut Vec<Given>,
    ) -> Result<(), AllocError> {
        for entry in row {
            if let Some(given) = bound_from(bounds, entry, total, least) {
                if bounds.is_tighter(given.column, given.side, given.constant) {
                    found.push(given)?;
                }
            }
        }
        Ok(())
    }

    /// What the row comes to.
    pub fn propagate(&self, bounds: &Bounds, number: usize) -> Result<Propagation, AllocError> {
        let mut found = Vec::new(self.alloc);
        let Some(row) = self.row(number) else {
            return Ok(Propagation::Given(found));
        };
        for least in [true, false] {
            let Some(total) = sum_of_bounds(bounds, row, least) else {
                continue;
            };
            if total.open.is_none() && total.sum < 0 {
                return Ok(Propagation::Refuted(self.needs(row, least)?));
            }
            self.give(bounds, row, total, least, &mut found)?;
        }
        Ok(Propagation::Given(found))
    }

    /// The bounds by which the row of this number gives a member a bound.
    pub fn needs_of(
        &self,
        number: usize,
        column: usize,
        side: Side,
    ) -> Result<Option<Derivation>, AllocError> {
        let Some(row) = self.row(number) else {
            return Ok(None);
        };
        let own = coefficient_at(row, column);
        let least = side_in(own, true) == side.opposite();
        let mut needs = self.needs(row, least)?;
        needs.retain(|need| need.column != column);
        match own.checked_abs() {
            Some(divisor) if divisor > 0 => Ok(Some(Derivation { divisor, needs })),
            _ => Ok(None),
        }
    }
}

/// A bound as a sum of others, divided.
#[derive(Drop)]
pub struct Derivation {
    pub divisor: i128,
    pub needs: Vec<Need>,
}
