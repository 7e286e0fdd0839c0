//! Ranges of the numbers that rows allow a node.

ghost use Rattle.std.specs.Prelude.{◌≡◌, ℕ, neg_ℤ, pos, Some};
ghost use Rattle.df_row.specs.RowView.{narrow, IsWithin};
ghost use Rattle.df_level.specs.Row.{function_row};
ghost use Rattle.df_level.specs.Levels.{rows_of};
ghost use Rattle.df_back.specs.Ranges.{AreInside, IsGreater, IsLesser, TellsChoice, TellsLast, TellsNarrowed, TellsNearest, TellsRange, TellsRowBound};

use crate::valuation::Valuation;
use crate::values::value_at;
use df_level::Row;

/// Bounds of a node.
#[derive(Clone, Copy)]
struct Range {
    low: Option<i128>,
    high: Option<i128>,
}

/// A number for a node.
#[derive(Clone, Copy)]
pub enum Choice {
    /// The number nearest 0 that is allowed.
    Value(i128),
    /// Only what lies strictly between the bound and the next number is allowed.
    Between(i128),
    /// A number on the way is past 128 bits.
    Wide,
}

/// The number with the other sign, where it has 128 bits.
fn negated(number: i128) -> Option<i128>
    ensures { result ≡ narrow (neg_ℤ number) }
{
    number.checked_neg()
}

/// The last number for which the rest and so many times the number are at least 0: the least one for a
/// coefficient above 0, else the greatest one. It is `None` only where that is past 128 bits.
fn last(coefficient: i128, rest: i128) -> Option<i128>
    requires { coefficient ≡ pos 0 → ⊥ }
    ensures { TellsLast coefficient rest result }
{
    if coefficient == -1 {
        return Some(rest);
    }
    negated(rest.div_euclid(coefficient))
}

/// The least number that the row allows the node, which has 0, or the greatest one. It is `None` only where
/// a number on the way is past 128 bits.
fn bound<V: Valuation>(row: &Row, node: usize, valuation: &V) -> Option<i128>
    requires { (function_row row.now).coefficient node ≡ pos 0 → ⊥ }
    ensures { (count : ℕ) → IsWithin count (function_row row.now) → V.numbers valuation.now node ≡ pos 0 → TellsRowBound count (V.numbers valuation.now) node (function_row row.now) result }
{
    let rest = value_at(row, valuation)?;
    last(row.coefficient(node), rest)
}

fn greater(low: Option<i128>, bound: i128) -> i128
    ensures { IsGreater low bound result }
{
    match low {
        Some(low) => low.max(bound),
        None => bound,
    }
}

fn lesser(high: Option<i128>, bound: i128) -> i128
    ensures { IsLesser high bound result }
{
    match high {
        Some(high) => high.min(bound),
        None => bound,
    }
}

/// The range with the row's bound.
fn narrowed<V: Valuation>(range: Range, row: &Row, node: usize, valuation: &V) -> Option<Range>
    ensures { (count : ℕ) → IsWithin count (function_row row.now) → V.numbers valuation.now node ≡ pos 0 → TellsNarrowed count (V.numbers valuation.now) node (function_row row.now) range result }
{
    let coefficient = row.coefficient(node);
    if coefficient == 0 {
        return Some(range);
    }
    let bound = bound(row, node, valuation)?;
    if coefficient > 0 {
        Some(Range {
            low: Some(greater(range.low, bound)),
            high: range.high,
        })
    } else {
        Some(Range {
            low: range.low,
            high: Some(lesser(range.high, bound)),
        })
    }
}

/// The range that the rows allow the node.
fn range_of<V: Valuation>(rows: &[Row], node: usize, valuation: &V) -> Option<Range>
    ensures { (count : ℕ) → AreInside count (rows_of rows.now) → V.numbers valuation.now node ≡ pos 0 → TellsRange count (V.numbers valuation.now) node (rows_of rows.now) result }
{
    let mut range = Range {
        low: None,
        high: None,
    };
    for row in rows {
        let next = narrowed(range, row, node, valuation)?;
        range = next;
    }
    Some(range)
}

/// The number from the low one to the high one that is nearest 0.
fn nearest_between(low: i128, high: i128) -> Choice
    ensures { TellsNearest (record { low = Some low; high = Some high }) result }
{
    if high < low {
        return Choice::Between(high);
    }
    Choice::Value(low.max(high.min(0)))
}

/// The number of the range that is nearest 0.
fn nearest(range: Range) -> Choice
    ensures { TellsNearest range result }
{
    match (range.low, range.high) {
        (None, None) => Choice::Value(0),
        (Some(low), None) => Choice::Value(low.max(0)),
        (None, Some(high)) => Choice::Value(high.min(0)),
        (Some(low), Some(high)) => nearest_between(low, high),
    }
}

/// The number nearest 0 that the rows allow the node, which has 0.
pub fn choose<V: Valuation>(rows: &[Row], node: usize, valuation: &V) -> Choice
    ensures { (count : ℕ) → AreInside count (rows_of rows.now) → V.numbers valuation.now node ≡ pos 0 → TellsChoice count (rows_of rows.now) (V.numbers valuation.now) node result }
{
    match range_of(rows, node, valuation) {
        Some(range) => nearest(range),
        None => Choice::Wide,
    }
}
