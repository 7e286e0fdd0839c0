//! Division of the tableau's rows: where the part of a row that a number does not divide lies strictly
//! between two of its multiples, no whole values are left.

use crate::bounds::{Bounds, Side};
use crate::linear::{Entry, combine};
use crate::rows::{Derivation, Need};
use crate::tableau::{Fraction, Tableau};
use std::alloc::{AllocError, Global};

/// A sum of multiples of columns: the sums of the constants of their bounds from above and from below.
#[derive(Clone, Copy)]
struct Span {
    above: i128,
    below: i128,
}

/// The side of a member's bound from above.
fn side_above(coefficient: i128) -> Side {
    if coefficient < 0 {
        Side::Lower
    } else {
        Side::Upper
    }
}

/// The span with one more member.
fn widened(bounds: &Bounds, span: Span, entry: &Entry) -> Option<Span> {
    let side = side_above(entry.coefficient);
    let magnitude = entry.coefficient.checked_abs()?;
    let above = magnitude.checked_mul(bounds.constant(entry.column, side)?)?;
    let below = magnitude.checked_mul(bounds.constant(entry.column, side.opposite())?)?;
    Some(Span {
        above: span.above.checked_add(above)?,
        below: span.below.checked_add(below)?,
    })
}

/// Whether a column has one value.
pub fn is_fixed(bounds: &Bounds, column: usize) -> bool {
    match (
        bounds.constant(column, Side::Lower),
        bounds.constant(column, Side::Upper),
    ) {
        (Some(lower), Some(upper)) => lower.checked_add(upper) == Some(0),
        _ => false,
    }
}

/// What is left of a coefficient by a divisor above 1, of the least magnitude.
fn residue(coefficient: i128, divisor: i128) -> Option<i128> {
    let rest = coefficient.checked_rem_euclid(divisor)?;
    if rest > divisor / 2 {
        rest.checked_sub(divisor)
    } else {
        Some(rest)
    }
}

/// What is left of a sum of members without multiples of a divisor above 1.
pub fn residues(alloc: Global, members: &[Entry], divisor: i128) -> Result<Vec<Entry>, AllocError> {
    let mut rest = Vec::new(alloc);
    for entry in members {
        let coefficient = residue(entry.coefficient, divisor).unwrap_or(0);
        if coefficient != 0 {
            rest.push(Entry {
                column: entry.column,
                coefficient,
            })?;
        }
    }
    Ok(rest)
}

fn span_of(bounds: &Bounds, rest: &[Entry]) -> Option<Span> {
    let mut span = Span { above: 0, below: 0 };
    for entry in rest {
        span = widened(bounds, span, entry)?;
    }
    Some(span)
}

/// How far apart the first and the last multiple of the divisor are that a sum may be, as so many times the divisor,
/// where its members have both bounds; below 0 where it may be none.
pub fn room_of(bounds: &Bounds, rest: &[Entry], divisor: i128) -> Option<i128> {
    let span = span_of(bounds, rest)?;
    let above = span.above.checked_div_euclid(divisor)?;
    above.checked_add(span.below.checked_div_euclid(divisor)?)
}

/// Whether a sum, which is a multiple of the divisor, lies strictly between two of its multiples.
pub fn is_indivisible(bounds: &Bounds, rest: &[Entry], divisor: i128) -> bool {
    divisor > 1 && room_of(bounds, rest, divisor).unwrap_or(0) < 0
}

/// The bounds of a sum from above or from below.
fn derivation_of(
    alloc: Global,
    rest: &[Entry],
    divisor: i128,
    from_above: bool,
) -> Result<Derivation, AllocError> {
    let mut needs = Vec::new(alloc);
    for entry in rest {
        let side = side_above(entry.coefficient);
        needs.push(Need {
            factor: entry.coefficient.checked_abs().unwrap_or(0),
            column: entry.column,
            side: if from_above { side } else { side.opposite() },
        })?;
    }
    Ok(Derivation { divisor, needs })
}

/// Combinations that exclude each other, of a sum that is a multiple of the divisor and lies strictly
/// between two of its multiples.
pub fn exclusion(
    alloc: Global,
    rest: &[Entry],
    divisor: i128,
) -> Result<Vec<Derivation>, AllocError> {
    let above = derivation_of(alloc, rest, divisor, true)?;
    let below = derivation_of(alloc, rest, divisor, false)?;
    Ok(vec![in alloc; above, below]?)
}

impl Tableau {
    pub fn row_count(&self) -> usize {
        self.rows.len()
    }

    /// The basic column of a row, so many times as its factor says.
    pub fn basic(&self, row: usize) -> Option<Entry> {
        let row = self.rows.get(row)?;
        Some(Entry {
            column: row.basic,
            coefficient: row.factor,
        })
    }

    /// The other members of a row: their sum is that of its basic column, so many times.
    pub fn others(&self, row: usize) -> Option<&[Entry]> {
        match self.rows.get(row) {
            Some(row) => Some(row.entries.as_slice()),
            None => None,
        }
    }

    /// Whether the value of a row's basic column is not whole.
    pub fn is_fractional(&self, row: usize) -> bool {
        match self.basic(row) {
            Some(basic) => !self.fraction(basic.column).is_whole(),
            None => false,
        }
    }

    /// Whether the value of some column is not whole.
    pub fn has_fraction(&self) -> bool {
        for row in 0..self.rows.len() {
            if self.is_fractional(row) {
                return true;
            }
        }
        false
    }

    /// The value of a sum of columns.
    pub fn fraction_of(&self, entries: &[Entry]) -> Option<Fraction> {
        let mut sum = Fraction {
            numerator: 0,
            denominator: 1,
        };
        for entry in entries {
            sum = sum.plus(entry.coefficient, self.fraction(entry.column))?;
        }
        Some(sum)
    }

    /// The members of a row in the order of columns: their sum is 0.
    pub fn members(&self, row: usize) -> Result<Vec<Entry>, AllocError> {
        let Some(row) = self.rows.get(row) else {
            return Ok(Vec::new(self.alloc));
        };
        let basic = [Entry {
            column: row.basic,
            coefficient: row.factor.checked_neg().unwrap_or(0),
        }];
        match combine(self.alloc, 1, &row.entries, 1, &basic)? {
            Some(members) => Ok(members),
            None => Ok(Vec::new(self.alloc)),
        }
    }
}
