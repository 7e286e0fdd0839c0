//! Bounds of columns, in the order in which they were found.

use df_clauses::{GROUND, Literal};
use std::alloc::{AllocError, Global};

/// Which way a bound limits its column.
#[derive(Clone, Copy, PartialEq, Eq)]
pub enum Side {
    Lower,
    Upper,
}

impl Side {
    pub fn opposite(self) -> Side {
        match self {
            Side::Lower => Side::Upper,
            Side::Upper => Side::Lower,
        }
    }
}

/// Why a column has a bound.
#[derive(Clone, Copy)]
pub enum Cause {
    Literal(Literal),
    /// The other bounds of a row.
    Row(usize),
}

/// A bound is the row 0 <= column + constant where it is a lower one, and 0 <= constant - column where
/// it is an upper one. So the lower the constant, the tighter it is.
#[derive(Clone, Copy)]
pub struct Bound {
    pub column: usize,
    pub side: Side,
    pub constant: i128,
    pub cause: Cause,
    /// The decision level at which it was found.
    pub level: usize,
    /// The bound of this column on this side before.
    pub previous: Option<usize>,
}

/// So many bounds of a column rows may give one after another, however little tighter they are.
const RUN: usize = 4;

/// The tightest bounds of a column.
#[derive(Clone, Copy)]
struct Ends {
    lower: Option<usize>,
    upper: Option<usize>,
}

/// The bounds so far, by their numbers.
#[derive(Drop)]
pub struct Bounds {
    all: Vec<Bound>,
    ends: Vec<Ends>,
    /// How many there were where each decision level began.
    starts: Vec<usize>,
    /// The columns with bounds that the tableau has not seen.
    touched: Vec<usize>,
    /// By column, whether it is among them.
    is_touched: Vec<bool>,
}

impl Bounds {
    pub fn new(alloc: Global) -> Bounds {
        Bounds {
            all: Vec::new(alloc),
            ends: Vec::new(alloc),
            starts: Vec::new(alloc),
            touched: Vec::new(alloc),
            is_touched: Vec::new(alloc),
        }
    }

    /// One more column.
    pub fn add_column(&mut self) -> Result<(), AllocError> {
        self.ends.push(Ends {
            lower: None,
            upper: None,
        })?;
        self.is_touched.push(false)?;
        Ok(())
    }

    /// The tableau is to see the column.
    fn touch(&mut self, column: usize) -> Result<(), AllocError> {
        if let Some(is_touched) = self.is_touched.get_mut(column) {
            if !*is_touched {
                *is_touched = true;
                self.touched.push(column)?;
            }
        }
        Ok(())
    }

    pub fn columns(&self) -> usize {
        self.ends.len()
    }

    pub fn get(&self, number: usize) -> Option<Bound> {
        self.all.get(number).copied()
    }

    /// The number of the tightest bound.
    pub fn current(&self, column: usize, side: Side) -> Option<usize> {
        let ends = self.ends.get(column)?;
        match side {
            Side::Lower => ends.lower,
            Side::Upper => ends.upper,
        }
    }

    /// The constant of the tightest bound.
    pub fn constant(&self, column: usize, side: Side) -> Option<i128> {
        let bound = self.get(self.current(column, side)?)?;
        Some(bound.constant)
    }

    /// How far apart the bounds of a column are, where it has both.
    pub fn width(&self, column: usize) -> Option<i128> {
        let lower = self.constant(column, Side::Lower)?;
        lower.checked_add(self.constant(column, Side::Upper)?)
    }

    /// The constant of the tightest bound that there is before all decisions.
    pub fn settled(&self, column: usize, side: Side) -> Option<i128> {
        let end = match self.starts.get(GROUND) {
            Some(start) => *start,
            None => self.all.len(),
        };
        let bound = self.get(self.before(column, side, end)?)?;
        Some(bound.constant)
    }

    /// Whether a bound of this constant would be tighter than those so far.
    pub fn is_tighter(&self, column: usize, side: Side, constant: i128) -> bool {
        match self.constant(column, side) {
            Some(known) => constant < known,
            None => true,
        }
    }

    /// How many of the latest bounds rows gave at the present level, up to some.
    fn run_of_rows(&self, column: usize, side: Side) -> usize {
        let mut number = self.current(column, side);
        for count in 0..RUN {
            match self.latest_of_row(number) {
                Some(bound) => number = bound.previous,
                None => return count,
            }
        }
        RUN
    }

    /// The bound of this number, if a row gave it at the present level.
    fn latest_of_row(&self, number: Option<usize>) -> Option<Bound> {
        let bound = self.get(number?)?;
        match bound.cause {
            Cause::Row(_) if bound.level == self.starts.len() => Some(bound),
            Cause::Row(_) | Cause::Literal(_) => None,
        }
    }

    /// Whether a row's bound, which is tighter, is to be taken: after some one after another only where it is so by
    /// much of what is left, and never where the column has no bound on the other side, since such bounds have no end.
    pub fn is_worthwhile(&self, column: usize, side: Side, constant: i128) -> bool {
        let Some(known) = self.constant(column, side) else {
            return true;
        };
        if self.run_of_rows(column, side) < RUN {
            return true;
        }
        match self.constant(column, side.opposite()) {
            Some(other) => known.saturating_add(other) / 4 <= known.saturating_sub(constant),
            None => false,
        }
    }

    /// The number of the tightest bound before a number.
    pub fn before(&self, column: usize, side: Side, limit: usize) -> Option<usize> {
        let mut number = self.current(column, side)?;
        for _ in 0..self.all.len() {
            if number < limit {
                break;
            }
            number = self.get(number)?.previous?;
        }
        Some(number)
    }

    /// The earliest bound that suffices, on the column and the side of one that does.
    pub fn earliest(&self, number: usize, wanted: i128) -> usize {
        let mut found = number;
        for _ in 0..self.all.len() {
            match self.previous_within(found, wanted) {
                Some(previous) => found = previous,
                None => break,
            }
        }
        found
    }

    /// The bound before, where it suffices.
    fn previous_within(&self, number: usize, wanted: i128) -> Option<usize> {
        let previous = self.get(number)?.previous?;
        if self.get(previous)?.constant <= wanted {
            Some(previous)
        } else {
            None
        }
    }

    fn set_end(&mut self, column: usize, side: Side, number: Option<usize>) {
        if let Some(ends) = self.ends.get_mut(column) {
            match side {
                Side::Lower => ends.lower = number,
                Side::Upper => ends.upper = number,
            }
        }
    }

    /// Adds a bound, and gives its number.
    pub fn push(
        &mut self,
        column: usize,
        side: Side,
        constant: i128,
        cause: Cause,
    ) -> Result<usize, AllocError> {
        let number = self.all.len();
        let previous = self.current(column, side);
        let level = self.starts.len();
        self.all.push(Bound {
            column,
            side,
            constant,
            cause,
            level,
            previous,
        })?;
        self.set_end(column, side, Some(number));
        self.touch(column)?;
        Ok(number)
    }

    /// A column that the tableau has not seen since it got a bound.
    pub fn next_touched(&mut self) -> Option<usize> {
        let column = self.touched.pop()?;
        if let Some(is_touched) = self.is_touched.get_mut(column) {
            *is_touched = false;
        }
        Some(column)
    }

    /// Whether the tableau has seen all bounds.
    pub fn is_seen(&self) -> bool {
        self.touched.is_empty()
    }

    /// A decision level begins.
    pub fn open(&mut self) -> Result<(), AllocError> {
        self.starts.push(self.all.len())?;
        Ok(())
    }

    /// Takes the bounds of the levels after this one back.
    pub fn cancel(&mut self, level: usize) {
        let Some(start) = self.starts.get(level).copied() else {
            return;
        };
        self.starts.truncate(level);
        for _ in start..self.all.len() {
            self.retract();
        }
    }

    /// Takes the last bound back.
    fn retract(&mut self) {
        if let Some(bound) = self.all.pop() {
            self.set_end(bound.column, bound.side, bound.previous);
        }
    }
}
