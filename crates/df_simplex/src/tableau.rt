//! The simplex tableau. Each row says what a basic variable is by nonbasic ones, all of them columns:
//! so many times the basic one is a sum of multiples of the others. The value of a nonbasic variable is
//! whole and within its bounds; that of a basic one is a fraction, and may violate them.

use crate::bounds::{Bounds, Side};
use crate::linear::{Entry, coefficient_at};
use crate::tableau_row::{Row, eliminated};
use std::alloc::{AllocError, Global};

/// A fraction.
#[derive(Clone, Copy)]
pub struct Fraction {
    pub numerator: i128,
    /// At least 1.
    pub denominator: i128,
}

impl Fraction {
    /// The sum with another one, so many times.
    pub(crate) fn plus(self, times: i128, other: Fraction) -> Option<Fraction> {
        let own = self.numerator.checked_mul(other.denominator)?;
        let more = times
            .checked_mul(other.numerator)?
            .checked_mul(self.denominator)?;
        Some(Fraction {
            numerator: own.checked_add(more)?,
            denominator: self.denominator.checked_mul(other.denominator)?,
        })
    }

    /// Whether it is a whole number.
    pub fn is_whole(self) -> bool {
        self.numerator.checked_rem(self.denominator) == Some(0)
    }

    /// The greatest whole number that is not above it.
    pub fn floor(self) -> Option<i128> {
        self.numerator.checked_div_euclid(self.denominator)
    }
}

/// The tableau.
#[derive(Drop)]
pub struct Tableau {
    pub(crate) alloc: Global,
    pub(crate) rows: Vec<Row>,
    /// By column, the row of which it is the basic variable.
    pub(crate) row_of: Vec<Option<usize>>,
    /// By column, the value of a nonbasic variable.
    values: Vec<i128>,
    /// A number was past 128 bits, or the rows had too many.
    pub is_broken: bool,
    /// The last check found all variables within their bounds.
    pub is_settled: bool,
    /// How many more numbers new rows may have.
    room: usize,
}

/// The most numbers that all rows may have.
pub(crate) const ROOM: usize = 1_000_000;

/// Where no more columns than this change, the rows that hold them are looked for one by one.
const FEW: usize = 4;

/// Whether a value is past a bound of this constant.
pub(crate) fn is_past(side: Side, constant: i128, value: i128) -> Option<bool> {
    match side {
        Side::Lower => Some(value.checked_add(constant)? < 0),
        Side::Upper => Some(value > constant),
    }
}

/// The value at a bound of this constant.
pub(crate) fn value_at(side: Side, constant: i128) -> Option<i128> {
    match side {
        Side::Lower => constant.checked_neg(),
        Side::Upper => Some(constant),
    }
}

impl Tableau {
    pub fn new(alloc: Global) -> Tableau {
        Tableau {
            alloc,
            rows: Vec::new(alloc),
            row_of: Vec::new(alloc),
            values: Vec::new(alloc),
            is_broken: false,
            is_settled: true,
            room: ROOM,
        }
    }

    /// One more column, whose value is 0.
    pub fn add_column(&mut self) -> Result<(), AllocError> {
        self.row_of.push(None)?;
        self.values.push(0)?;
        Ok(())
    }

    /// How many numbers the rows have.
    pub fn size(&self) -> usize {
        let mut size = self.rows.len();
        for row in self.rows.iter() {
            size = size.saturating_add(row.entries.len());
        }
        size
    }

    pub(crate) fn value(&self, column: usize) -> i128 {
        match self.values.get(column) {
            Some(value) => *value,
            None => 0,
        }
    }

    fn basic_row(&self, column: usize) -> Option<&Row> {
        match self.row_of.get(column) {
            Some(Some(row)) => self.rows.get(*row),
            _ => None,
        }
    }

    /// The value of a column.
    pub fn fraction(&self, column: usize) -> Fraction {
        match self.basic_row(column) {
            Some(row) => Fraction {
                numerator: row.sum,
                denominator: row.factor,
            },
            None => Fraction {
                numerator: self.value(column),
                denominator: 1,
            },
        }
    }

    /// An entry whose variable is basic.
    fn basic_entry(&self, row: &Row) -> Option<usize> {
        for entry in row.entries.iter() {
            if self.basic_row(entry.column).is_some() {
                return Some(entry.column);
            }
        }
        None
    }

    /// The sum of entries at the values of their variables.
    fn sum_of(&self, entries: &[Entry]) -> Option<i128> {
        let mut sum = 0i128;
        for entry in entries {
            sum = sum.checked_add(entry.coefficient.checked_mul(self.value(entry.column))?)?;
        }
        Some(sum)
    }

    /// The row without basic variables on its right.
    fn without_basics(&self, first: Row) -> Result<Option<Row>, AllocError> {
        let mut row = first;
        for _ in 0..self.rows.len() {
            let Some(column) = self.basic_entry(&row) else {
                break;
            };
            let Some(source) = self.basic_row(column) else {
                break;
            };
            match eliminated(self.alloc, &row, column, source)? {
                Some(next) => row = next,
                None => return Ok(None),
            }
        }
        Ok(Some(row))
    }

    /// The column, which is in no row, is the sum of the entries.
    pub fn add_row(&mut self, column: usize, entries: Vec<Entry>) -> Result<(), AllocError> {
        if self.is_broken {
            return Ok(());
        }
        let first = Row {
            basic: column,
            factor: 1,
            entries,
            sum: 0,
        };
        match self.without_basics(first)? {
            Some(row) => self.put_row(row),
            None => {
                self.is_broken = true;
                Ok(())
            }
        }
    }

    fn put_row(&mut self, row: Row) -> Result<(), AllocError> {
        let Some(room) = self.room.checked_sub(row.entries.len()) else {
            self.is_broken = true;
            return Ok(());
        };
        self.room = room;
        let number = self.rows.len();
        let column = row.basic;
        self.rows.push(row)?;
        if let Some(slot) = self.row_of.get_mut(column) {
            *slot = Some(number);
        }
        self.refresh(number);
        Ok(())
    }

    /// Computes the sum of a row.
    pub(crate) fn refresh(&mut self, number: usize) {
        let sum = match self.rows.get(number) {
            Some(row) => self.sum_of(&row.entries),
            None => return,
        };
        match (sum, self.rows.get_mut(number)) {
            (Some(sum), Some(row)) => row.sum = sum,
            _ => self.is_broken = true,
        }
    }

    fn refresh_all(&mut self) {
        for number in 0..self.rows.len() {
            self.refresh(number);
        }
    }

    /// Computes the sums of the rows that hold the column.
    fn refresh_holders(&mut self, column: usize) {
        for number in 0..self.rows.len() {
            if self.holds(number, column) {
                self.refresh(number);
            }
        }
    }

    /// Whether a row has the column among its entries.
    pub(crate) fn holds(&self, number: usize, column: usize) -> bool {
        match self.rows.get(number) {
            Some(row) => coefficient_at(&row.entries, column) != 0,
            None => false,
        }
    }

    pub(crate) fn set_value(&mut self, column: usize, value: i128) {
        if let Some(slot) = self.values.get_mut(column) {
            *slot = value;
        }
    }

    /// Brings the value of a nonbasic variable within its bounds. Whether it changed.
    fn clamp(&mut self, bounds: &Bounds, column: usize) -> bool {
        if self.basic_row(column).is_some() {
            return false;
        }
        for side in [Side::Lower, Side::Upper] {
            let Some(constant) = bounds.constant(column, side) else {
                continue;
            };
            match is_past(side, constant, self.value(column)) {
                Some(false) => {}
                Some(true) => return self.move_to(column, value_at(side, constant)),
                None => self.is_broken = true,
            }
        }
        false
    }

    fn move_to(&mut self, column: usize, value: Option<i128>) -> bool {
        match value {
            Some(value) => self.set_value(column, value),
            None => self.is_broken = true,
        }
        true
    }

    /// Brings all nonbasic variables with new bounds within them.
    pub(crate) fn clamp_all(&mut self, bounds: &mut Bounds) -> Result<(), AllocError> {
        let mut changed = Vec::new(self.alloc);
        for _ in 0..usize::MAX {
            let Some(column) = bounds.next_touched() else {
                break;
            };
            if self.clamp(bounds, column) {
                changed.push(column)?;
            }
        }
        if !self.is_broken {
            self.refresh_for(&changed);
        }
        Ok(())
    }

    /// Computes the sums of the rows that hold columns whose values changed.
    fn refresh_for(&mut self, changed: &[usize]) {
        if changed.len() > FEW {
            self.refresh_all();
            return;
        }
        for column in changed {
            self.refresh_holders(*column);
        }
    }
}
