//! Points: a whole number for each node.

ghost use Rattle.std.specs.Prelude.{◌≡◌, pos, OnOk};
ghost use Rattle.df_row.specs.RowView.{coefficient_at};
ghost use Rattle.df_back.specs.BackSubstitution.{with_number};
ghost use Rattle.df_lin.specs.Point.{numbers_of};

use df_back::Valuation;
use std::alloc::{AllocError, Global};
use std::collections::BTreeMap;

/// A valuation: the numbers of some nodes, and 0 for each other one.
#[derive(Drop)]
pub struct Point {
    numbers: BTreeMap<usize, i128>,
}

impl Point {
    /// Each node has 0.
    pub(crate) fn zero(alloc: Global) -> Point
        ensures { numbers_of result ≡ (λ _. pos 0) }
    {
        Point {
            numbers: BTreeMap::new(alloc),
        }
    }

    /// The numbers of some nodes, in order of nodes; each other node has 0.
    pub fn numbers(&self) -> &BTreeMap<usize, i128>
        ensures { coefficient_at result.now.entries ≡ numbers_of self.now }
    {
        &self.numbers
    }

    /// Gives the node another number.
    pub(crate) fn set(&mut self, node: usize, number: i128) -> Result<(), AllocError>
        ensures { OnOk result (numbers_of self.new ≡ with_number (numbers_of self.old) node number) }
    {
        self.numbers.insert(node, number)?;
        Ok(())
    }
}

impl Valuation for Point {
    ghost use Rattle.df_lin.specs.Point as point;

    ghost numbers = { point.numbers_of };

    fn number(&self, node: usize) -> i128 {
        self.numbers.get(&node).copied().unwrap_or(0)
    }
}
