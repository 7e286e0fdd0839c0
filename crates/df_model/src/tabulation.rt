//! Tables from a point of rows, the labels of equal nodes and known literals.

ghost use Rattle.std.specs.Prelude.{◌≡◌, ℤ, List, IfOk};
ghost use Rattle.df_cong.specs.Congruence.{label_at};
ghost use Rattle.df_table.specs.Disagreement.{Disagree};
ghost use Rattle.df_model.specs.TableNumbers.{basis_of};
ghost use Rattle.df_model.specs.Tabulation.{IsApart, TellsTable, unlike, TellsTabulation};

use crate::entry::{label_at, next_number};
use df_form::{Lit, NodeTable, Over, Pair};
use df_table::{Table, disagreement};
use std::alloc::{AllocError, Global};

/// What a table comes to.
#[derive(Drop)]
pub enum Tabulation {
    /// Nodes of one operation whose arguments have equal numbers have equal numbers.
    Table(Table),
    /// The number of a sum or a constant multiple is past 128 bits.
    Wide,
    /// Two nodes of one operation have arguments of equal numbers, and other numbers. These are two
    /// arguments of theirs at one place that are not known to be equal; or, where all arguments are, the
    /// two nodes.
    Apart { left: usize, right: usize },
}

/// The numbers of all nodes; `None` where one is past 128 bits.
fn numbers_of_nodes(
    alloc: Global,
    nodes: &Over,
    numbers: &[i128],
    labels: &[usize],
    facts: &[Lit],
) -> Result<Option<Vec<i128>>, AllocError>
    ensures { IfOk result (TellsTable (basis_of numbers.now labels.now facts.now) nodes.now) }
{
    let mut table = Vec::with_capacity(alloc, nodes.len())?;
    while let Some(node) = nodes.get(table.len()) {
        match next_number(nodes, numbers, labels, facts, &table, node) {
            Some(number) => table.push(number)?,
            None => return Ok(None),
        }
    }
    Ok(Some(table))
}

/// The first two elements at one place that have two labels.
fn unlike(labels: &[usize], first: &[usize], second: &[usize]) -> Option<Pair>
    ensures { result ≡ unlike (label_at labels.now) first.now second.now }
{
    for (place, left) in first.iter().enumerate() {
        let Some(right) = second.get(place) else {
            return None;
        };
        if label_at(labels, *left) != label_at(labels, *right) {
            return Some(Pair {
                left: *left,
                right: *right,
            });
        }
    }
    None
}

/// The terms that are apart where two nodes disagree.
fn apart(nodes: &Over, labels: &[usize], pair: Pair) -> Pair
    ensures { (table : List ℤ) → Disagree nodes.now table pair.left pair.right → IsApart nodes.now (label_at labels.now) table result.left result.right }
{
    match (nodes.get(pair.left), nodes.get(pair.right)) {
        (Some(first), Some(second)) => {
            unlike(labels, first.parts.as_slice(), second.parts.as_slice()).unwrap_or(pair)
        }
        (None, _) | (Some(_), None) => pair,
    }
}

/// The numbers of all nodes, if nodes of one operation with arguments of equal numbers have equal ones. A
/// free number, a product without a literal first factor, a quotient, a remainder and a character's code
/// have the number that is given, or 0 past the end; a character has the label of its node; a free formula
/// and a test of a type are true where a formula of the node's label is among the facts. A formula counts
/// as 1 where it is true, and else as 0.
pub fn tabulate(
    alloc: Global,
    nodes: &Over,
    numbers: &[i128],
    labels: &[usize],
    facts: &[Lit],
) -> Result<Tabulation, AllocError>
    ensures { IfOk result (TellsTabulation (basis_of numbers.now labels.now facts.now) nodes.now) }
{
    let Some(table) = numbers_of_nodes(alloc, nodes, numbers, labels, facts)? else {
        return Ok(Tabulation::Wide);
    };
    let table = Table::new(table);
    match disagreement(nodes, &table) {
        None => Ok(Tabulation::Table(table)),
        Some(pair) => {
            let Pair { left, right } = apart(nodes, labels, pair);
            Ok(Tabulation::Apart { left, right })
        }
    }
}
