//! Linear arithmetic over whole numbers: the columns, their bounds, the rows and the tableau.

use crate::cutting::Placed;
use df_linear::{Atom, Forms, Meaning, Terms};
use df_simplex::{Bounds, Entry, Fraction, Rows, Side, Tableau};
use std::alloc::{AllocError, Global};

/// The nearest whole number.
fn rounded(value: Fraction) -> Option<i128> {
    let below = value.numerator.checked_div_euclid(value.denominator)?;
    let rest = value.numerator.checked_rem_euclid(value.denominator)?;
    if rest < value.denominator.checked_sub(rest)? {
        Some(below)
    } else {
        below.checked_add(1)
    }
}

/// The state of arithmetic.
#[derive(Drop)]
pub struct Theory {
    pub(crate) alloc: Global,
    pub forms: Forms,
    pub bounds: Bounds,
    pub rows: Rows,
    pub tableau: Tableau,
    /// By column, the variables that speak of it.
    speakers: Vec<Vec<usize>>,
    pub(crate) cuts: Vec<Placed>,
}

impl Theory {
    pub fn new(alloc: Global) -> Theory {
        Theory {
            alloc,
            forms: Forms::new(alloc),
            bounds: Bounds::new(alloc),
            rows: Rows::new(alloc),
            tableau: Tableau::new(alloc),
            speakers: Vec::new(alloc),
            cuts: Vec::new(alloc),
        }
    }

    /// What `a <= b` says.
    pub fn comparison(&mut self, terms: &Terms, a: usize, b: usize) -> Result<Meaning, AllocError> {
        let meaning = self.forms.comparison(terms, a, b)?;
        self.add_columns()?;
        Ok(meaning)
    }

    /// Has the linear form of a number known.
    pub fn expand(&mut self, terms: &Terms, node: usize) -> Result<(), AllocError> {
        self.forms.expand(terms, node)?;
        self.add_columns()
    }

    /// The columns of forms that are new.
    pub(crate) fn add_columns(&mut self) -> Result<(), AllocError> {
        for column in self.bounds.columns()..self.forms.len() {
            self.add_column(column)?;
        }
        Ok(())
    }

    /// The number of a column at the tableau's values: the nearest whole one.
    pub fn column_value(&self, column: usize) -> Option<i128> {
        rounded(self.tableau.fraction(column))
    }

    /// The number of a node at the tableau's values, where its linear form is known.
    pub fn value(&self, node: usize) -> Option<i128> {
        let linear = self.forms.linear(node)?;
        let mut sum = linear.constant;
        for entry in linear.entries.iter() {
            let value = self.column_value(entry.column)?;
            sum = sum.checked_add(entry.coefficient.checked_mul(value)?)?;
        }
        Some(sum)
    }

    /// The bound of a number on a side, where it is a column that has one: the present one, or that of the lowest
    /// level.
    pub fn end(&self, node: usize, side: Side, is_settled: bool) -> Option<i128> {
        let linear = self.forms.linear(node)?;
        let [entry] = linear.entries.as_slice() else {
            return None;
        };
        if entry.coefficient != 1 || linear.constant != 0 {
            return None;
        }
        let constant = if is_settled {
            self.bounds.settled(entry.column, side)?
        } else {
            self.bounds.constant(entry.column, side)?
        };
        match side {
            Side::Lower => constant.checked_neg(),
            Side::Upper => Some(constant),
        }
    }

    fn add_column(&mut self, column: usize) -> Result<(), AllocError> {
        self.bounds.add_column()?;
        self.rows.add_column()?;
        self.tableau.add_column()?;
        self.speakers.push(Vec::new(self.alloc))?;
        let Some(entries) = self.forms.members(column) else {
            return Ok(());
        };
        let members = Vec::from_slice(self.alloc, entries)?;
        let mut row = Vec::from_slice(self.alloc, entries)?;
        row.push(Entry {
            column,
            coefficient: -1,
        })?;
        self.rows.add(row)?;
        self.tableau.add_row(column, members)
    }

    /// The variable speaks of the column.
    pub fn hear(&mut self, column: usize, variable: usize) -> Result<(), AllocError> {
        if let Some(speakers) = self.speakers.get_mut(column) {
            speakers.push(variable)?;
        }
        Ok(())
    }

    /// How many variables speak of the column.
    pub fn speaker_count(&self, column: usize) -> usize {
        match self.speakers.get(column) {
            Some(speakers) => speakers.len(),
            None => 0,
        }
    }

    /// A variable that speaks of the column.
    pub fn speaker(&self, column: usize, place: usize) -> Option<usize> {
        self.speakers.get(column)?.get(place).copied()
    }

    /// Whether bounds make the atom true or false, and the number of the one that does.
    pub fn implied(&self, atom: &Atom) -> Option<(bool, usize)> {
        if let Some(bound) = self.sufficient(atom.column, atom.side, atom.if_true) {
            return Some((true, bound));
        }
        let bound = self.sufficient(atom.column, atom.side.opposite(), atom.if_false)?;
        Some((false, bound))
    }

    /// The number of the tightest bound, where it suffices.
    fn sufficient(&self, column: usize, side: Side, wanted: i128) -> Option<usize> {
        let number = self.bounds.current(column, side)?;
        if self.bounds.get(number)?.constant <= wanted {
            Some(number)
        } else {
            None
        }
    }

    /// Whether the tableau's values are within all bounds, or it can look for no others.
    pub fn is_settled(&self) -> bool {
        self.tableau.is_broken || (self.tableau.is_settled && self.bounds.is_seen())
    }

    /// Whether the atom holds at the tableau's values.
    pub fn holds(&self, atom: &Atom) -> bool {
        let value = self.tableau.fraction(atom.column);
        let Some(limit) = atom.if_true.checked_mul(value.denominator) else {
            return false;
        };
        match atom.side {
            Side::Lower => limit.saturating_add(value.numerator) >= 0,
            Side::Upper => value.numerator <= limit,
        }
    }
}
