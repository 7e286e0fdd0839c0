//! Division of rows: where what a number does not divide of a row lies strictly between two of its multiples,
//! no whole values are left.

use crate::theory::Theory;
use df_simplex::{
    Derivation, Entry, coefficient_at, combine, exclusion, is_fixed, is_indivisible, residues,
};
use std::alloc::AllocError;

/// How many divisors of a row are tried.
const DIVISORS: usize = 4;

/// How many sums of two rows.
const SUMS: usize = 64;

/// A sum: what is fixed of it, and what is not.
#[derive(Drop)]
pub(crate) struct Parts {
    pub fixed: Vec<Entry>,
    pub open: Vec<Entry>,
}

impl Theory {
    /// How much work it is to look for combinations that exclude each other.
    pub fn dividing_work(&self) -> usize {
        let sums = self.tableau.row_count().saturating_add(SUMS);
        let each = self.forms.len().saturating_add(16);
        sums.saturating_mul(DIVISORS).saturating_mul(each)
    }

    /// Combinations that exclude each other, by a row, or a sum of two, that no whole values meet.
    pub fn indivisible(&self) -> Result<Option<Vec<Derivation>>, AllocError> {
        let mut rows = Vec::new(self.alloc);
        for row in 0..self.tableau.row_count() {
            let members = self.tableau.members(row)?;
            let found = self.undivided(&members)?;
            if found.is_some() {
                return Ok(found);
            }
            rows.push(members)?;
        }
        self.indivisible_sum(&rows)
    }

    /// Combinations that exclude each other, by a sum of two rows that no whole values meet.
    fn indivisible_sum(&self, rows: &[Vec<Entry>]) -> Result<Option<Vec<Derivation>>, AllocError> {
        let mut tries = SUMS;
        for place in 0..rows.len() {
            for earlier in 0..place {
                let (Some(row), Some(other)) = (rows.get(place), rows.get(earlier)) else {
                    break;
                };
                let found = self.without_shared(row, other, &mut tries)?;
                if found.is_some() {
                    return Ok(found);
                }
            }
        }
        Ok(None)
    }

    /// Combinations that exclude each other, by a row.
    fn undivided(&self, members: &[Entry]) -> Result<Option<Vec<Derivation>>, AllocError> {
        let divisors = self.divisors(members)?;
        for divisor in divisors.iter() {
            let found = self.excluded(members, *divisor)?;
            if found.is_some() {
                return Ok(found);
            }
        }
        Ok(None)
    }

    /// Combinations that exclude each other, by a sum of two rows in which a column falls out.
    fn without_shared(
        &self,
        row: &[Entry],
        other: &[Entry],
        tries: &mut usize,
    ) -> Result<Option<Vec<Derivation>>, AllocError> {
        for entry in row {
            let coefficient = coefficient_at(other, entry.column);
            if *tries == 0 || coefficient == 0 || is_fixed(&self.bounds, entry.column) {
                continue;
            }
            *tries = tries.saturating_sub(1);
            let Some(opposite) = entry.coefficient.checked_neg() else {
                continue;
            };
            if let Some(sum) = combine(self.alloc, coefficient, row, opposite, other)? {
                let found = self.undivided(&sum)?;
                if found.is_some() {
                    return Ok(found);
                }
            }
        }
        Ok(None)
    }

    /// The coefficients of a row by which it may be divided.
    fn divisors(&self, members: &[Entry]) -> Result<Vec<i128>, AllocError> {
        let mut divisors = Vec::new(self.alloc);
        for entry in members {
            let divisor = entry.coefficient.checked_abs().unwrap_or(0);
            if divisor > 1 && divisors.len() < DIVISORS && !divisors.contains(&divisor) {
                divisors.push(divisor)?;
            }
        }
        Ok(divisors)
    }

    /// Combinations that exclude each other, by a row and a divisor.
    fn excluded(
        &self,
        members: &[Entry],
        divisor: i128,
    ) -> Result<Option<Vec<Derivation>>, AllocError> {
        let rest = residues(self.alloc, members, divisor)?;
        if is_indivisible(&self.bounds, &rest, divisor) {
            return exclusion(self.alloc, &rest, divisor).map(Some);
        }
        let parts = self.parts(&rest)?;
        if let Some(found) = self.gathered(&parts, None, divisor)? {
            return Ok(Some(found));
        }
        for column in 0..self.forms.len() {
            if let Some(difference) = self.fixed_difference(column) {
                let found = self.gathered(&parts, Some(difference), divisor)?;
                if found.is_some() {
                    return Ok(found);
                }
            }
        }
        Ok(None)
    }

    /// What is fixed of a sum, and what is not.
    pub(crate) fn parts(&self, rest: &[Entry]) -> Result<Parts, AllocError> {
        let mut parts = Parts {
            fixed: Vec::new(self.alloc),
            open: Vec::new(self.alloc),
        };
        for entry in rest {
            if is_fixed(&self.bounds, entry.column) {
                parts.fixed.push(*entry)?;
            } else {
                parts.open.push(*entry)?;
            }
        }
        Ok(parts)
    }

    /// A form of two columns that has one value.
    fn fixed_difference(&self, column: usize) -> Option<usize> {
        let [_, _] = self.forms.members(column)? else {
            return None;
        };
        if is_fixed(&self.bounds, column) {
            Some(column)
        } else {
            None
        }
    }

    /// The combinations that exclude each other where what is not fixed of a sum is one column, once a column is
    /// put in it by a fixed form.
    fn gathered(
        &self,
        parts: &Parts,
        difference: Option<usize>,
        divisor: i128,
    ) -> Result<Option<Vec<Derivation>>, AllocError> {
        let mut fixed = Vec::from_slice(self.alloc, parts.fixed.as_slice())?;
        match difference {
            None => self.gathered_with(&mut fixed, &parts.open, divisor),
            Some(form) => match self.replaced(&parts.open, form, &mut fixed)? {
                Some(open) => self.gathered_with(&mut fixed, &open, divisor),
                None => Ok(None),
            },
        }
    }

    /// The combinations that exclude each other where what is not fixed of a sum is one column.
    fn gathered_with(
        &self,
        fixed: &mut Vec<Entry>,
        open: &[Entry],
        divisor: i128,
    ) -> Result<Option<Vec<Derivation>>, AllocError> {
        let Some(entry) = self.forms.find(open)? else {
            return Ok(None);
        };
        fixed.push(entry)?;
        let sum = fixed.as_slice();
        if is_indivisible(&self.bounds, sum, divisor) {
            exclusion(self.alloc, sum, divisor).map(Some)
        } else {
            Ok(None)
        }
    }

    /// The sum, where a column of it is written by a form of two columns and the other one; the form goes to the
    /// fixed ones.
    fn replaced(
        &self,
        open: &[Entry],
        form: usize,
        fixed: &mut Vec<Entry>,
    ) -> Result<Option<Vec<Entry>>, AllocError> {
        let Some(entries) = self.forms.members(form) else {
            return Ok(None);
        };
        for member in entries {
            for entry in open {
                if entry.column != member.column || member.coefficient.checked_abs() != Some(1) {
                    continue;
                }
                let Some(times) = entry.coefficient.checked_mul(member.coefficient) else {
                    continue;
                };
                fixed.push(Entry {
                    column: form,
                    coefficient: times,
                })?;
                let Some(opposite) = times.checked_neg() else {
                    return Ok(None);
                };
                return combine(self.alloc, 1, open, opposite, entries);
            }
        }
        Ok(None)
    }
}
