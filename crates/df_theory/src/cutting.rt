//! Cuts: what the columns of a row without narrow bounds are together is a multiple of what divides their coefficients.
//! So many times a new column it is, whose bounds those of the others give, rounded.

use crate::theory::Theory;
use df_linear::Maker;
use df_simplex::{Entry, combine, content, divided, residues, room_of};
use std::alloc::AllocError;

/// How many cuts there may be.
const CUTS: usize = 64;

/// A new column so many times, with a rest whose members have bounds: their sum is 0.
#[derive(Drop)]
pub struct Cut {
    times: i128,
    /// What the column is a sum of.
    entries: Vec<Entry>,
    rest: Vec<Entry>,
}

/// A cut that stands: its column and its row.
#[derive(Clone, Copy)]
pub(crate) struct Placed {
    column: usize,
    row: usize,
}

impl Theory {
    /// How far apart the bounds of a column are.
    pub(crate) fn width(&self, column: usize) -> i128 {
        self.bounds.width(column).unwrap_or(i128::MAX)
    }

    /// A cut that the tableau's values do not meet, if there may be one more.
    pub fn cut(&self) -> Result<Option<Cut>, AllocError> {
        if self.cuts.len() >= CUTS {
            return Ok(None);
        }
        let mut group = self.group()?;
        self.solve(&mut group.rows)?;
        for row in group.rows.iter() {
            let found = self.cut_of(row)?;
            if found.is_some() {
                return Ok(found);
            }
        }
        Ok(None)
    }

    /// A cut by a row.
    fn cut_of(&self, row: &[Entry]) -> Result<Option<Cut>, AllocError> {
        for entry in row {
            let divisor = self.divisor_from(row, entry.column)?;
            if divisor > 1 {
                let found = self.cut_by(row, divisor)?;
                if found.is_some() {
                    return Ok(found);
                }
            }
        }
        Ok(None)
    }

    /// What divides the coefficients of the members that are as wide as this one; 1 for one that is fixed.
    fn divisor_from(&self, row: &[Entry], column: usize) -> Result<i128, AllocError> {
        let least = self.width(column);
        let mut wide = Vec::new(self.alloc);
        for entry in row {
            if least > 0 && least <= self.width(entry.column) {
                wide.push(*entry)?;
            }
        }
        Ok(content(0, &wide).unwrap_or(1))
    }

    /// A cut by a row and a divisor.
    fn cut_by(&self, row: &[Entry], divisor: i128) -> Result<Option<Cut>, AllocError> {
        let parts = self.parts(row)?;
        let narrow = residues(self.alloc, &parts.open, divisor)?;
        let Some(rest) = combine(self.alloc, 1, &narrow, 1, &parts.fixed)? else {
            return Ok(None);
        };
        let Some(room) = room_of(&self.bounds, &rest, divisor) else {
            return Ok(None);
        };
        let Some(multiple) = combine(self.alloc, 1, &parts.open, -1, &narrow)? else {
            return Ok(None);
        };
        match self.over_nodes(&multiple)? {
            Some(sum) => self.cut_with(&sum, rest, room),
            None => Ok(None),
        }
    }

    /// A sum with what they are in place of forms.
    fn over_nodes(&self, sum: &[Entry]) -> Result<Option<Vec<Entry>>, AllocError> {
        let mut expanded = Vec::new(self.alloc);
        for entry in sum {
            let own = [Entry {
                column: entry.column,
                coefficient: 1,
            }];
            let members = match self.forms.members(entry.column) {
                Some(members) => members,
                None => own.as_slice(),
            };
            match combine(self.alloc, 1, &expanded, entry.coefficient, members)? {
                Some(next) => expanded = next,
                None => return Ok(None),
            }
        }
        Ok(Some(expanded))
    }

    /// The cut of a sum with a rest, where its column has bounds that are farther apart and no whole value.
    fn cut_with(
        &self,
        sum: &[Entry],
        rest: Vec<Entry>,
        room: i128,
    ) -> Result<Option<Cut>, AllocError> {
        let (Some(first), Some(divisor)) = (sum.first(), content(0, sum)) else {
            return Ok(None);
        };
        let times = if first.coefficient < 0 {
            divisor.checked_neg().unwrap_or(1)
        } else {
            divisor
        };
        match divided(self.alloc, sum, times)? {
            Some(entries) if self.is_new(&entries, room)? => Ok(Some(Cut {
                times,
                entries,
                rest,
            })),
            _ => Ok(None),
        }
    }

    /// Whether a sum has no whole value, and is no column whose bounds are as near to each other.
    fn is_new(&self, entries: &[Entry], room: i128) -> Result<bool, AllocError> {
        match self.tableau.fraction_of(entries) {
            Some(value) if !value.is_whole() => {}
            _ => return Ok(false),
        }
        match self.forms.find(entries)? {
            Some(known) => {
                let is_nearer = room < self.width(known.column);
                Ok(is_nearer && !self.is_placed(known.column))
            }
            None => Ok(true),
        }
    }

    fn is_placed(&self, column: usize) -> bool {
        for cut in self.cuts.iter() {
            if cut.column == column {
                return true;
            }
        }
        false
    }

    /// Adds a cut.
    pub fn add_cut(&mut self, cut: Cut) -> Result<(), AllocError> {
        let Cut {
            times,
            entries,
            rest,
        } = cut;
        let column = self.forms.column_of_entries(entries, Maker::Cut)?;
        self.add_columns()?;
        let own = [Entry {
            column,
            coefficient: times,
        }];
        if let Some(members) = combine(self.alloc, 1, &rest, 1, &own)? {
            let row = self.rows.len();
            self.cuts.push(Placed { column, row })?;
            self.rows.add(members)?;
        }
        Ok(())
    }

    /// Has the rows of all cuts wait. Whether there are any.
    pub fn wake_cuts(&mut self) -> Result<bool, AllocError> {
        for place in 0..self.cuts.len() {
            if let Some(cut) = self.cuts.get(place).copied() {
                self.rows.put(cut.row)?;
            }
        }
        Ok(!self.cuts.is_empty())
    }

    /// The column without a whole value whose bounds are nearest to each other, if they are nearer than those of the first
    /// node without a whole value, and not farther apart than this.
    pub fn narrowest(&self, most: i128) -> Option<usize> {
        let mut best = None;
        let mut least = most.checked_add(1)?;
        let mut first = None;
        for column in 0..self.forms.len() {
            if !self.tableau.fraction(column).is_whole() {
                if first.is_none() && self.forms.node(column).is_some() {
                    first = Some(self.width(column));
                }
                if self.width(column) < least {
                    least = self.width(column);
                    best = Some(column);
                }
            }
        }
        if least < first? { best } else { None }
    }
}
