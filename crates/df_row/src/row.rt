//! Rows of linear arithmetic.

ghost use Rattle.std.specs.Prelude.{◌≡◌, ◌+ℤ◌, ◌*ℤ◌, ◌≤ℤ◌, ◌<◌, ℕ, length, pos, Some};
ghost use Rattle.df_row.specs.Row.{constant_row, difference as difference_of};
ghost use Rattle.df_row.specs.RowView.{row_of, coefficient_at, fitting_more, fitting_constant, Finds, narrow, IsNarrow, IsWithin, exact};
ghost use Rattle.df_row.specs.Linear.{with_multiple, divided as divided_row, is_false as is_false_row};
ghost use Rattle.df_form.specs.Sorting.{IsTable};
ghost use Rattle.std.specs.Ordering.{int_eq, nat_cmp};
ghost use Rattle.std.specs.List.{list_all};
ghost use Rattle.std.specs.BTreeMap.{values, IsOrdered};

use crate::expansion::Expansion;
use df_form::{NodeTable, Over};
use std::alloc::{AllocError, AllocFailed, Global};
use std::collections::BTreeMap;

/// Why there is no row.
#[derive(Clone, Copy, PartialEq, Eq)]
pub enum RowFault {
    /// A number of a row is past 128 bits, or one on the way of a combination; or what was asked for is no
    /// row.
    Refused,
    Memory,
}

impl From<AllocError> for RowFault {
    ghost use Rattle.std.specs.Prelude.{◌≡◌};
    ghost use Rattle.df_row.specs.declared.row.RowFault.TheVariants.{Memory as out_of_memory};

    ghost from_gives = { λ _ fault. fault ≡ out_of_memory };

    fn from(_error: AllocError) -> RowFault {
        RowFault::Memory
    }
}

impl<T: Drop> From<AllocFailed<T>> for RowFault {
    ghost use Rattle.std.specs.Prelude.{◌≡◌};
    ghost use Rattle.df_row.specs.declared.row.RowFault.TheVariants.{Memory as out_of_memory};

    ghost from_gives = { λ _ fault. fault ≡ out_of_memory };

    fn from(_error: AllocFailed<T>) -> RowFault {
        RowFault::Memory
    }
}

/// The nodes are a table.
pub(crate) fn are_table(nodes: &Over)
    ensures { IsTable nodes.now }
{
    let _ = nodes.len();
}

fn sum(a: i128, b: i128) -> Result<i128, RowFault>
    ensures { Finds (λ z. z) result (narrow (a +ℤ b)) }
{
    a.checked_add(b).ok_or(RowFault::Refused)
}

fn product(a: i128, b: i128) -> Result<i128, RowFault>
    ensures { Finds (λ z. z) result (narrow (a *ℤ b)) }
{
    a.checked_mul(b).ok_or(RowFault::Refused)
}

/// The quotient, where the divisor divides the number.
fn exact_quotient(number: i128, divisor: i128) -> Result<i128, RowFault>
    requires { pos 1 ≤ℤ divisor }
    ensures { Finds (λ z. z) result (exact number divisor) }
{
    if number.rem_euclid(divisor) == 0 {
        Ok(number.div_euclid(divisor))
    } else {
        Err(RowFault::Refused)
    }
}

/// A row: 0 is at most the sum of the coefficients times their nodes, and the constant.
#[derive(Drop)]
pub struct Row {
    coefficients: BTreeMap<usize, i128>,
    constant: i128,
}

impl Row {
    pub(crate) fn new(coefficients: BTreeMap<usize, i128>, constant: i128) -> Row
        ensures { row_of result ≡ record { coefficient = coefficient_at coefficients.entries; constant = constant } }
    {
        Row {
            coefficients,
            constant,
        }
    }

    /// 0 <= 0, with another constant.
    pub(crate) fn of_constant(alloc: Global, constant: i128) -> Row
        ensures { row_of result ≡ constant_row constant }
    {
        Row {
            coefficients: BTreeMap::new(alloc),
            constant,
        }
    }

    /// The coefficient of each node that has an entry, in order of nodes. It may be 0, as it is for each
    /// other node.
    pub fn coefficients(&self) -> &BTreeMap<usize, i128>
        ensures { coefficient_at result.now.entries ≡ (row_of self.now).coefficient }
    {
        &self.coefficients
    }

    pub fn constant(&self) -> i128
        ensures { result ≡ (row_of self.now).constant }
    {
        self.constant
    }

    fn coefficient(&self, node: usize) -> i128
        ensures { result ≡ (row_of self.now).coefficient node }
    {
        self.coefficients.get(&node).copied().unwrap_or(0)
    }

    /// So many times the node more.
    fn add(&mut self, node: usize, coefficient: i128) -> Result<(), RowFault>
        ensures { Finds (λ _. row_of self.new) result (fitting_more node coefficient (row_of self.old)) }
    {
        let sum = sum(self.coefficient(node), coefficient)?;
        self.coefficients.insert(node, sum)?;
        Ok(())
    }

    /// And so many more.
    fn add_constant(&mut self, more: i128) -> Result<(), RowFault>
        ensures { Finds (λ _. row_of self.new) result (fitting_constant more (row_of self.old)) }
    {
        self.constant = sum(self.constant, more)?;
        Ok(())
    }

    /// 0 <= b - a + k.
    pub(crate) fn difference(
        alloc: Global,
        nodes: &Over,
        a: usize,
        b: usize,
        k: i128,
    ) -> Result<Row, RowFault>
        requires a_in { a < length nodes.now }
        requires b_in { b < length nodes.now }
        ensures { Finds row_of result (difference_of nodes.now (length nodes.now) a b k) }
    {
        are_table(nodes);
        let sum = Expansion::difference(alloc, nodes, a, b, k)?;
        sum.narrowed(alloc)
    }

    /// Adds another row so many times.
    pub(crate) fn add_multiple(&mut self, factor: i128, other: &Row) -> Result<(), RowFault>
        ensures { (count : ℕ) → IsNarrow (row_of self.old) → IsWithin count (row_of other.now) → Finds (λ _. row_of self.new) result (with_multiple count (row_of self.old) factor (Some (row_of other.now))) }
    {
        if factor < 0 {
            return Err(RowFault::Refused);
        }
        for (node, coefficient) in &other.coefficients {
            let more = product(factor, *coefficient)?;
            self.add(*node, more)?;
        }
        let more = product(factor, other.constant)?;
        self.add_constant(more)
    }

    /// The row divided, its constant rounded down; the divisor is to divide each coefficient.
    pub(crate) fn divided(&self, alloc: Global, divisor: i128) -> Result<Row, RowFault>
        ensures { (count : ℕ) → IsWithin count (row_of self.now) → Finds row_of result (divided_row count divisor (row_of self.now)) }
    {
        if divisor < 1 {
            return Err(RowFault::Refused);
        }
        let mut quotients = BTreeMap::new(alloc);
        for (node, coefficient) in &self.coefficients {
            let quotient = exact_quotient(*coefficient, divisor)?;
            quotients.insert(*node, quotient)?;
        }
        Ok(Row {
            coefficients: quotients,
            constant: self.constant.div_euclid(divisor),
        })
    }

    fn has_only_zeros(&self) -> bool
        ensures zeros { result ≡ list_all (λ v. int_eq v (pos 0)) (values self.now.coefficients) }
        ensures ordered { IsOrdered nat_cmp self.now.coefficients }
    {
        self.coefficients
            .values()
            .all(|coefficient| *coefficient == 0)
    }

    /// Whether the row is 0 <= c for a c below 0.
    pub(crate) fn is_false(&self) -> bool
        ensures { (count : ℕ) → IsWithin count (row_of self.now) → result ≡ is_false_row count (row_of self.now) }
    {
        self.has_only_zeros() && self.constant < 0
    }
}
