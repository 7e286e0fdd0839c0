//! Levels of rows: each is the one before it with a variable eliminated.

ghost use Rattle.std.specs.Prelude.{◌≡◌, ◌/◌, ◌<◌, ◌≤◌, ◌<ℤ◌, pos, [], map, length, OnOk, IfOk};
ghost use Rattle.df_level.specs.Row.{function_row};
ghost use Rattle.std.specs.Bool.{Decides};
ghost use Rattle.df_form.specs.Log.{combination_of};
ghost use Rattle.df_level.specs.Levels.{HasFalse, row_limit, rows_of, level_rows, level_ways, AddsWay, GivesAdded, AreWays, GivesCancelled, GivesDivided, GivesFactor, GivesFirst, GivesLevel, GivesMade, GivesOneSum, GivesSumBy, GivesSums, KeepsAll, KeepsOne, KeepsTwo, TellsFalse};

use crate::division::gcd;
use crate::fault::{LevelFault, RowFault};
use crate::row::Row;
use crate::way::{way_of_one, way_of_two};
use df_form::{Combination, Multiple};
use indexmap::IndexSet;
use std::alloc::Global;

/// A level is given up as soon as it has so many rows.
pub const ROW_LIMIT: usize = 50_000;

/// The number, where it has 128 bits.
fn signed(number: u128) -> Result<i128, RowFault>
    ensures { GivesFactor number result }
{
    match i128::try_from(number) {
        Ok(signed) => Ok(signed),
        Err(_) => Err(RowFault::Wide),
    }
}

/// The quotient, as a factor.
fn factor_of(number: u128, divisor: u128) -> Result<i128, RowFault>
    requires { 1 ≤ divisor }
    ensures { GivesFactor (number / divisor) result }
{
    signed(number / divisor)
}

/// A sum of two rows by factors, divided.
#[derive(Drop)]
struct Sum {
    row: Row,
    factor: i128,
    other_factor: i128,
    divisor: i128,
}

/// The sum of two rows by these factors, divided.
fn divided_sum(
    alloc: Global,
    first: &Row,
    factor: i128,
    second: &Row,
    other_factor: i128,
) -> Result<Sum, RowFault>
    ensures { GivesSumBy factor (function_row first.now) other_factor (function_row second.now) result }
{
    if !first.has_multiple(factor) {
        return Err(RowFault::Wide);
    }
    if !second.has_multiple(other_factor) {
        return Err(RowFault::Wide);
    }
    let sum = first.combine(alloc, factor, second, other_factor)?;
    let content = sum.divisor();
    let divisor = signed(content)?;
    let row = sum.quotient(alloc, content)?;
    Ok(Sum {
        row,
        factor,
        other_factor,
        divisor,
    })
}

/// The sum of two rows that cancels the node by least factors, divided. It is `Wide` only where a number
/// on the way is past 128 bits.
fn cancelled(alloc: Global, first: &Row, second: &Row, node: usize) -> Result<Sum, RowFault>
    requires positive { pos 0 <ℤ (function_row first.now).coefficient node }
    requires negative { (function_row second.now).coefficient node <ℤ pos 0 }
    ensures { GivesCancelled node (function_row first.now) (function_row second.now) result }
{
    let own = first.coefficient(node).unsigned_abs();
    let others = second.coefficient(node).unsigned_abs();
    let divisor = gcd(own, others);
    let factor = factor_of(others, divisor)?;
    let other_factor = factor_of(own, divisor)?;
    divided_sum(alloc, first, factor, second, other_factor)
}

/// The rows of a level, in the order in which they were found. No two are equal. There are never more than the limit.
#[derive(Drop)]
pub struct Level {
    rows: IndexSet<Row>,
    /// How each row comes of those of the level before, or at the first level of the given ones.
    ways: Vec<Combination>,
}

impl Level {
    fn new(alloc: Global) -> Level
        ensures rows { level_rows result ≡ [] }
        ensures ways { level_ways result ≡ [] }
    {
        Level {
            rows: IndexSet::new(alloc),
            ways: Vec::new(alloc),
        }
    }

    /// Adds a row, unless an equal one is there. It is `Many` where the level then has the limit of rows.
    fn add(&mut self, row: Row, way: Combination) -> Result<(), LevelFault>
        requires { length (level_rows self.old) < row_limit }
        ensures row { GivesAdded (function_row row) (level_rows self.old) (level_rows self.new) result }
        ensures way { OnOk result (AddsWay (combination_of way) (function_row row) self.old self.new) }
    {
        let (_, is_new) = self.rows.insert_full(row)?;
        if !is_new {
            return Ok(());
        }
        self.ways.push(way)?;
        if self.rows.len() >= ROW_LIMIT {
            return Err(LevelFault::Many);
        }
        Ok(())
    }

    /// Adds the sum of two rows, each with its number, where it cancels the node.
    fn add_sum(
        &mut self,
        alloc: Global,
        number: usize,
        first: &Row,
        other: usize,
        second: &Row,
        node: usize,
    ) -> Result<(), LevelFault>
        requires positive { pos 0 <ℤ (function_row first.now).coefficient node }
        requires few { length (level_rows self.old) < row_limit }
        ensures row { GivesOneSum node (function_row first.now) (function_row second.now) (level_rows self.old) (level_rows self.new) result }
        ensures way { OnOk result (KeepsTwo (function_row first.now) number (function_row second.now) other self.old self.new) }
    {
        if second.coefficient(node) >= 0 {
            return Ok(());
        }
        let sum = cancelled(alloc, first, second, node)?;
        let own = Multiple {
            factor: sum.factor,
            row: number,
        };
        let others = Multiple {
            factor: sum.other_factor,
            row: other,
        };
        let way = way_of_two(alloc, sum.divisor, own, others)?;
        self.add(sum.row, way)
    }

    /// Adds the sums of the row and each of the rows that cancel the node.
    fn add_sums(
        &mut self,
        alloc: Global,
        number: usize,
        first: &Row,
        rows: &[Row],
        node: usize,
    ) -> Result<(), LevelFault>
        requires positive { pos 0 <ℤ (function_row first.now).coefficient node }
        requires few { length (level_rows self.old) < row_limit }
        ensures row { GivesSums node (function_row first.now) (rows_of rows.now) (level_rows self.old) (level_rows self.new) result }
        ensures way { OnOk result (KeepsAll (rows_of rows.now) (function_row first.now) number self.old self.new) }
    {
        for (other, second) in rows.iter().enumerate() {
            self.add_sum(alloc, number, first, other, second, node)?;
        }
        Ok(())
    }

    /// Adds the row where it has no coefficient for the node, else its sums with the rows that cancel it.
    fn add_made(
        &mut self,
        alloc: Global,
        number: usize,
        first: &Row,
        rows: &[Row],
        node: usize,
    ) -> Result<(), LevelFault>
        requires { length (level_rows self.old) < row_limit }
        ensures row { GivesMade node (function_row first.now) (rows_of rows.now) (level_rows self.old) (level_rows self.new) result }
        ensures way { OnOk result (KeepsAll (rows_of rows.now) (function_row first.now) number self.old self.new) }
    {
        let coefficient = first.coefficient(node);
        if coefficient < 0 {
            return Ok(());
        }
        if coefficient > 0 {
            return self.add_sums(alloc, number, first, rows, node);
        }
        let copy = first.copy(alloc)?;
        let way = way_of_one(alloc, 1, number)?;
        self.add(copy, way)
    }

    /// Adds the row divided by the greatest common divisor of its coefficients.
    fn add_divided(&mut self, alloc: Global, number: usize, row: &Row) -> Result<(), LevelFault>
        requires { length (level_rows self.old) < row_limit }
        ensures row { GivesDivided (function_row row.now) (level_rows self.old) (level_rows self.new) result }
        ensures way { OnOk result (KeepsOne (function_row row.now) number self.old self.new) }
    {
        let content = row.divisor();
        let divisor = signed(content)?;
        let quotient = row.quotient(alloc, content)?;
        let way = way_of_one(alloc, divisor, number)?;
        self.add(quotient, way)
    }

    /// The first level: each row divided by the greatest common divisor of its coefficients, its constant
    /// rounded down; equal ones once. It is `Wide` where such a divisor is past 128 bits, and `Many` where
    /// the level comes to the limit of rows, whichever comes first in the order of the rows.
    pub fn first(alloc: Global, rows: &[Row]) -> Result<Level, LevelFault>
        ensures rows { GivesFirst (rows_of rows.now) result }
        ensures ways { IfOk result (λ level. AreWays (rows_of rows.now) level) }
    {
        let mut level = Level::new(alloc);
        for (number, row) in rows.iter().enumerate() {
            level.add_divided(alloc, number, row)?;
        }
        Ok(level)
    }

    /// How each row comes of those of the level before, or at the first level of the given ones.
    pub fn ways(&self) -> &[Combination]
        ensures { map combination_of result.now ≡ level_ways self.now }
    {
        self.ways.as_slice()
    }

    pub fn rows(&self) -> &[Row]
        ensures { rows_of result.now ≡ level_rows self.now }
    {
        self.rows.as_slice()
    }

    /// Whether a row is 0 <= c for a c below 0.
    pub fn has_false(&self) -> bool
        ensures { Decides result (HasFalse (level_rows self.now)) }
    {
        self.false_row().is_some()
    }

    /// The number of a row that is 0 <= c for a c below 0.
    pub fn false_row(&self) -> Option<usize>
        ensures { TellsFalse (level_rows self.now) result }
    {
        false_among(self.rows())
    }

    /// The next level, from which the node is eliminated: the rows without the node, and all sums of two
    /// rows that cancel it by least factors, divided; equal ones once. It is `Wide` where a number on the way
    /// to such a sum is past 128 bits, and `Many` where the level comes to the limit of rows, whichever comes
    /// first: the rows are gone over in order, and with each one the rows that are added to it.
    pub fn next(&self, alloc: Global, node: usize) -> Result<Level, LevelFault>
        ensures rows { GivesLevel node (level_rows self.now) result }
        ensures ways { IfOk result (λ level. AreWays (level_rows self.now) level) }
    {
        eliminated(alloc, self.rows(), node)
    }
}

fn false_among(rows: &[Row]) -> Option<usize>
    ensures { TellsFalse (rows_of rows.now) result }
{
    for (number, row) in rows.iter().enumerate() {
        if row.is_false() {
            return Some(number);
        }
    }
    None
}

/// The level after these rows.
fn eliminated(alloc: Global, rows: &[Row], node: usize) -> Result<Level, LevelFault>
    ensures rows { GivesLevel node (rows_of rows.now) result }
    ensures ways { IfOk result (λ level. AreWays (rows_of rows.now) level) }
{
    let mut level = Level::new(alloc);
    for (number, row) in rows.iter().enumerate() {
        level.add_made(alloc, number, row, rows, node)?;
    }
    Ok(level)
}
