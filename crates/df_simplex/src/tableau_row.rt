//! The rows of a simplex tableau.

use crate::linear::{Entry, coefficient_at, combine, content, divided};
use std::alloc::{AllocError, Global};

/// `factor` times the basic variable is the sum of the entries.
#[derive(Drop)]
pub(crate) struct Row {
    pub basic: usize,
    pub factor: i128,
    pub entries: Vec<Entry>,
    /// The sum of the entries at the values of their variables.
    pub sum: i128,
}

/// The row in which a variable's own row stands in its place; without its value.
pub(crate) fn eliminated(
    alloc: Global,
    row: &Row,
    column: usize,
    source: &Row,
) -> Result<Option<Row>, AllocError> {
    let coefficient = coefficient_at(&row.entries, column);
    let own = Entry {
        column,
        coefficient: source.factor,
    };
    let Some(common) = content(coefficient, &[own]) else {
        return Ok(None);
    };
    let (Some(f), Some(g)) = (
        source.factor.checked_div(common),
        coefficient.checked_div(common),
    ) else {
        return Ok(None);
    };
    let mut rest = Vec::from_slice(alloc, row.entries.as_slice())?;
    rest.retain(|entry| entry.column != column);
    let Some(factor) = row.factor.checked_mul(f) else {
        return Ok(None);
    };
    match combine(alloc, f, &rest, g, &source.entries)? {
        Some(entries) => reduced(alloc, row.basic, factor, entries),
        None => Ok(None),
    }
}

/// The row, divided by what divides all its numbers.
fn reduced(
    alloc: Global,
    basic: usize,
    factor: i128,
    entries: Vec<Entry>,
) -> Result<Option<Row>, AllocError> {
    let Some(common) = content(factor, &entries) else {
        return Ok(None);
    };
    let (Some(factor), Some(entries)) = (
        factor.checked_div(common),
        divided(alloc, &entries, common)?,
    ) else {
        return Ok(None);
    };
    Ok(Some(Row {
        basic,
        factor,
        entries,
        sum: 0,
    }))
}

/// The row, solved for another variable.
pub(crate) fn solved_for(
    alloc: Global,
    row: &Row,
    column: usize,
) -> Result<Option<Row>, AllocError> {
    let coefficient = coefficient_at(&row.entries, column);
    let (Some(factor), Some(negated)) = (coefficient.checked_abs(), row.factor.checked_neg()) else {
        return Ok(None);
    };
    let sign = if coefficient < 0 { 1 } else { -1 };
    let own = if coefficient < 0 { negated } else { row.factor };
    let mut rest = Vec::from_slice(alloc, row.entries.as_slice())?;
    rest.retain(|entry| entry.column != column);
    let basic = [Entry {
        column: row.basic,
        coefficient: own,
    }];
    match combine(alloc, sign, &rest, 1, &basic)? {
        Some(entries) => reduced(alloc, column, factor, entries),
        None => Ok(None),
    }
}
