//! Sums of multiples of columns: number nodes, and sums of them.

use std::alloc::{AllocError, Global};

/// A column so many times.
#[derive(Clone, Copy, PartialEq, Eq, Hash)]
pub struct Entry {
    pub column: usize,
    pub coefficient: i128,
}

/// Multiples of columns, which ascend, and a constant.
#[derive(Drop)]
pub struct Linear {
    pub entries: Vec<Entry>,
    pub constant: i128,
}

/// The next column of two sums, and its coefficients there.
#[derive(Clone, Copy)]
struct Next {
    column: usize,
    left: Option<i128>,
    right: Option<i128>,
}

fn next_of(left: Option<&Entry>, right: Option<&Entry>) -> Option<Next> {
    let (column, has_left, has_right) = match (left, right) {
        (None, None) => return None,
        (Some(a), None) => (a.column, true, false),
        (None, Some(b)) => (b.column, false, true),
        (Some(a), Some(b)) => (
            a.column.min(b.column),
            a.column <= b.column,
            b.column <= a.column,
        ),
    };
    Some(Next {
        column,
        left: coefficient_if(has_left, left),
        right: coefficient_if(has_right, right),
    })
}

fn coefficient_if(here: bool, entry: Option<&Entry>) -> Option<i128> {
    match entry {
        Some(entry) if here => Some(entry.coefficient),
        _ => None,
    }
}

/// f times a and g times b.
pub fn weighted(f: i128, a: i128, g: i128, b: i128) -> Option<i128> {
    f.checked_mul(a)?.checked_add(g.checked_mul(b)?)
}

/// f times the left entries and g times the right ones, where the numbers fit.
pub fn combine(
    alloc: Global,
    f: i128,
    left: &[Entry],
    g: i128,
    right: &[Entry],
) -> Result<Option<Vec<Entry>>, AllocError> {
    let mut sum = Vec::new(alloc);
    let mut i = 0usize;
    let mut j = 0usize;
    for _ in 0..left.len().saturating_add(right.len()) {
        let Some(next) = next_of(left.get(i), right.get(j)) else {
            break;
        };
        let a = next.left.unwrap_or(0);
        let b = next.right.unwrap_or(0);
        let Some(coefficient) = weighted(f, a, g, b) else {
            return Ok(None);
        };
        push_entry(&mut sum, next.column, coefficient)?;
        i = advanced(i, next.left);
        j = advanced(j, next.right);
    }
    Ok(Some(sum))
}

fn push_entry(
    entries: &mut Vec<Entry>,
    column: usize,
    coefficient: i128,
) -> Result<(), AllocError> {
    if coefficient != 0 {
        entries.push(Entry {
            column,
            coefficient,
        })?;
    }
    Ok(())
}

fn advanced(place: usize, taken: Option<i128>) -> usize {
    match taken {
        Some(_) => place.saturating_add(1),
        None => place,
    }
}

/// The greatest common divisor.
pub(crate) fn gcd(a: u128, b: u128) -> u128 {
    let mut x = a;
    let mut y = b;
    for _ in 0..200 {
        if x == 1 || y == 0 {
            break;
        }
        let rest = x % y;
        x = y;
        y = rest;
    }
    x
}

/// The greatest common divisor of a number and the coefficients.
fn content_with(first: u128, entries: &[Entry]) -> u128 {
    let mut divisor = first;
    for entry in entries {
        if divisor == 1 {
            break;
        }
        divisor = gcd(divisor, entry.coefficient.unsigned_abs());
    }
    divisor
}

/// The greatest common divisor of the coefficients and a number, where it fits and is above 0.
pub fn content(first: i128, entries: &[Entry]) -> Option<i128> {
    let divisor = i128::try_from(content_with(first.unsigned_abs(), entries)).ok()?;
    if divisor > 0 { Some(divisor) } else { None }
}

/// The entries divided by a number that divides them.
pub fn divided(
    alloc: Global,
    entries: &[Entry],
    divisor: i128,
) -> Result<Option<Vec<Entry>>, AllocError> {
    let mut quotients = Vec::with_capacity(alloc, entries.len())?;
    for entry in entries {
        let Some(coefficient) = entry.coefficient.checked_div(divisor) else {
            return Ok(None);
        };
        quotients.push(Entry {
            column: entry.column,
            coefficient,
        })?;
    }
    Ok(Some(quotients))
}

/// The coefficient of a column.
pub fn coefficient_at(entries: &[Entry], column: usize) -> i128 {
    match entries.binary_search_by_key(&column, |entry| entry.column) {
        Ok(place) => match entries.get(place) {
            Some(entry) => entry.coefficient,
            None => 0,
        },
        Err(_) => 0,
    }
}
