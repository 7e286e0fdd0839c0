//! Tables of numbers.

ghost use Rattle.std.specs.Prelude.{◌≡◌, length};
ghost use Rattle.df_table.specs.TableModel.{number_at, is_true};

use std::marker::Model;

/// A whole number for each node. Contracts see the list of them.
#[derive(Drop)]
pub struct Table {
    numbers: Vec<i128>,
}

impl Model for Table {
    ghost use Rattle.std.specs.Prelude.{List, ℤ};

    ghost Value = { List ℤ };

    ghost view = { λ t. t.numbers.items };

    ghost invariant = { λ t. Unit {0} };
}

impl Table {
    /// The numbers of the nodes in order.
    pub fn new(numbers: Vec<i128>) -> Table
        ensures { result ≡ numbers.items }
    {
        Table { numbers }
    }

    /// How many there are.
    pub fn len(&self) -> usize
        ensures { result ≡ length self.now }
    {
        self.numbers.len()
    }

    /// The number of a node; 0 where there is none.
    pub fn number(&self, node: usize) -> i128
        ensures { result ≡ number_at self.now node }
    {
        match self.numbers.get(node) {
            Some(number) => *number,
            None => 0,
        }
    }

    /// Whether a formula is true: its number is at least 1.
    pub fn is_true(&self, formula: usize) -> bool
        ensures { result ≡ is_true self.now formula }
    {
        1 <= self.number(formula)
    }
}
