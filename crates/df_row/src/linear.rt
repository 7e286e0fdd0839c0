//! Linear arithmetic: clauses whose negation combinations of rows refute.

ghost use Rattle.std.specs.Prelude.{◌≡◌, ◌<◌, ℕ, ◌++◌, ◌∷◌, [], map, length, slice_get, IfOk};
ghost use Rattle.std.specs.Option.{is_some, option_map};
ghost use Rattle.df_form.specs.Log.{combination_of};
ghost use Rattle.df_form.specs.Clause.{negation};
ghost use Rattle.df_row.specs.Row.{difference};
ghost use Rattle.df_row.specs.RowView.{row_of, Finds};
ghost use Rattle.df_row.specs.Linear.{rows_of, combined, refutes as refutes_by, linear_line};
ghost use Rattle.df_row.specs.LinearView.{comparison_of, rows_of_comparison, IsComparisonBelow, AreWithin, Tells, are_refuted};

use crate::row::{Row, RowFault, are_table};
use df_form::{Combination, Lit, NodeTable, Op, Over, Sort};
use std::alloc::{AllocError, Global};

/// What a literal says of two numbers.
#[derive(Clone, Copy, PartialEq, Eq)]
enum Comparison {
    AtMost(usize, usize),
    /// The first is above the second.
    Above(usize, usize),
    Equal(usize, usize),
    /// Nothing that a row could say.
    Other,
}

fn comparison_at(nodes: &Over, positive: bool, node: usize) -> Comparison
    ensures { result ≡ comparison_of nodes.now positive (slice_get nodes.now node) }
{
    let Some(found) = nodes.get(node) else {
        return Comparison::Other;
    };
    let [a, b] = found.parts.as_slice() else {
        return Comparison::Other;
    };
    match (nodes.sort(*a), positive, found.op) {
        (Sort::Number, true, Op::AtMost) => Comparison::AtMost(*a, *b),
        (Sort::Number, false, Op::AtMost) => Comparison::Above(*a, *b),
        (Sort::Number, true, Op::Equal) => Comparison::Equal(*a, *b),
        _ => Comparison::Other,
    }
}

/// Adds the row of 0 <= b - a + k.
fn push_difference(
    alloc: Global,
    nodes: &Over,
    a: usize,
    b: usize,
    k: i128,
    rows: &mut Vec<Row>,
) -> Result<(), RowFault>
    requires a_in { a < length nodes.now }
    requires b_in { b < length nodes.now }
    ensures { Finds (λ _. map row_of rows.new.items) result (option_map (λ r. map row_of rows.old.items ++ r ∷ []) (difference nodes.now (length nodes.now) a b k)) }
{
    rows.push(Row::difference(alloc, nodes, a, b, k)?)?;
    Ok(())
}

/// Adds the rows of a comparison.
fn push_rows(
    alloc: Global,
    nodes: &Over,
    comparison: Comparison,
    rows: &mut Vec<Row>,
) -> Result<(), RowFault>
    requires { IsComparisonBelow (length nodes.now) comparison }
    ensures { Finds (λ _. map row_of rows.new.items) result (option_map (λ more. map row_of rows.old.items ++ more) (rows_of_comparison nodes.now (length nodes.now) comparison)) }
{
    match comparison {
        Comparison::AtMost(a, b) => push_difference(alloc, nodes, a, b, 0, rows),
        Comparison::Above(a, b) => push_difference(alloc, nodes, b, a, -1, rows),
        Comparison::Equal(a, b) => {
            push_difference(alloc, nodes, a, b, 0, rows)?;
            push_difference(alloc, nodes, b, a, 0, rows)
        }
        Comparison::Other => Ok(()),
    }
}

/// The rows of the literals, in order: a <= b is 0 <= b - a, its negation is 0 <= a - b - 1, and an
/// equality of numbers is both ways of <=. Other literals have none. It is `Refused` exactly where a
/// number of a row is past 128 bits.
pub fn rows_of_literals(alloc: Global, nodes: &Over, literals: &[Lit]) -> Result<Vec<Row>, RowFault>
    ensures { Finds (λ rows. map row_of rows.items) result (rows_of nodes.now literals.now) }
{
    are_table(nodes);
    let mut rows = Vec::new(alloc);
    for literal in literals {
        let comparison = comparison_at(nodes, literal.positive, literal.node);
        push_rows(alloc, nodes, comparison, &mut rows)?;
    }
    Ok(rows)
}

/// The negations of the literals, in order.
fn negations(alloc: Global, literals: &[Lit]) -> Result<Vec<Lit>, AllocError>
    ensures { IfOk result (λ negated. negated.items ≡ map negation literals.now) }
{
    let mut negated = Vec::new(alloc);
    for literal in literals {
        negated.push(literal.negation())?;
    }
    Ok(negated)
}

/// The rows of the negated literals, in order.
fn rows_of_negations(alloc: Global, nodes: &Over, conclusion: &[Lit]) -> Result<Vec<Row>, RowFault>
    ensures { Finds (λ rows. map row_of rows.items) result (rows_of nodes.now (map negation conclusion.now)) }
{
    let negated = negations(alloc, conclusion)?;
    rows_of_literals(alloc, nodes, &negated)
}

/// The row that a combination of rows gives.
fn combine(alloc: Global, rows: &[Row], combination: &Combination) -> Result<Row, RowFault>
    ensures { (count : ℕ) → AreWithin count (map row_of rows.now) → Finds row_of result (combined count (map row_of rows.now) (combination_of combination.now)) }
{
    let mut sum = Row::of_constant(alloc, 0);
    for multiple in &combination.members {
        let Some(row) = rows.get(multiple.row) else {
            return Err(RowFault::Refused);
        };
        sum.add_multiple(multiple.factor, row)?;
    }
    sum.divided(alloc, combination.divisor)
}

/// Whether the last of the combinations is false, where each gives one more row.
fn refutes(
    alloc: Global,
    mut rows: Vec<Row>,
    combinations: &[Combination],
) -> Result<bool, RowFault>
    ensures { (count : ℕ) → AreWithin count (map row_of rows.items) → Tells result (refutes_by count (map row_of rows.items) (map combination_of combinations.now)) }
{
    let mut is_false = false;
    for combination in combinations {
        let row = combine(alloc, &rows, combination)?;
        is_false = row.is_false();
        rows.push(row)?;
    }
    Ok(is_false)
}

fn is_refuted(
    alloc: Global,
    nodes: &Over,
    conclusion: &[Lit],
    combinations: &[Combination],
) -> Result<bool, RowFault>
    ensures { Tells result (are_refuted nodes.now conclusion.now (map combination_of combinations.now)) }
{
    are_table(nodes);
    let rows = rows_of_negations(alloc, nodes, conclusion)?;
    refutes(alloc, rows, combinations)
}

/// Whether the line is one: combinations refute the rows of the negated literals of the conclusion.
pub fn is_linear(
    alloc: Global,
    nodes: &Over,
    conclusion: &[Lit],
    combinations: &[Combination],
) -> Result<bool, AllocError>
    ensures { IfOk result (λ yes. yes ≡ is_some (linear_line nodes.now conclusion.now (map combination_of combinations.now))) }
{
    if !nodes.are_literals(conclusion) {
        return Ok(false);
    }
    match is_refuted(alloc, nodes, conclusion, combinations) {
        Ok(yes) => Ok(yes),
        Err(RowFault::Refused) => Ok(false),
        Err(RowFault::Memory) => Err(AllocError),
    }
}
