//! Sparse rows of linear arithmetic.

ghost use Rattle.std.specs.Prelude.{◌≡◌, true};
ghost use Rattle.df_row.specs.Row.{fits};
ghost use Rattle.df_level.specs.Entries.{ascends, coefficient_of, AreNarrow};

use crate::division::{content, floor_quotient, quotients};
use crate::entries::{
    are_in_order, coefficient_at, have_multiples, nonzero_entries, weighted_entries,
};
use crate::exact::{has_product, weighted_sum};
use crate::fault::RowFault;
use std::alloc::{AllocError, Global};

/// A row: 0 is at most the sum of the coefficients times their nodes, and the constant.
#[derive(Drop, PartialEq, Eq, Hash)]
pub struct Row {
    /// Each node that has a coefficient, in order of nodes.
    coefficients: Vec<(usize, i128)>,
    constant: i128,
    ghost ordered: { ascends 0 coefficients.items ≡ true },
    ghost narrow: { AreNarrow coefficients.items },
    ghost fitting: { fits constant ≡ true },
}

impl Row {
    ghost use Rattle.std.specs.Prelude.{IfOk, IfSome};
    ghost use Rattle.std.specs.Option.{is_some};
    ghost use Rattle.std.specs.Bool.{Decides};
    ghost use Rattle.df_level.specs.Row.{IsFalse, function_row, entries_row, weighted_row, GivesRow};
    ghost use Rattle.std.specs.Bool.{MatchBool};
    ghost use Rattle.df_row.specs.RowView.{row_of, IsNarrow};
    ghost use Rattle.df_level.specs.Row.{IsWide};
    ghost use Rattle.df_level.specs.Way.{multiple_row};
    ghost use Rattle.df_level.specs.Division.{IsDivided, IsDivisor, quotient_row};

    /// The row of these coefficients, each with its node, and of the constant. It is `None` exactly where
    /// the nodes don't ascend, or a coefficient is 0.
    pub fn new(coefficients: Vec<(usize, i128)>, constant: i128) -> Option<Row>
        ensures row { IfSome result (λ row. function_row row ≡ entries_row coefficients.items constant) }
        ensures some { is_some result ≡ ascends 0 coefficients.items }
    {
        if are_in_order(&coefficients) {
            Some(Row {
                coefficients,
                constant,
            })
        } else {
            None
        }
    }

    /// The kernel's row, without its entries of coefficient 0.
    pub fn of(alloc: Global, row: &df_row::Row) -> Result<Row, AllocError>
        ensures { IfOk result (λ found. function_row found ≡ row_of row.now) }
    {
        let coefficients = nonzero_entries(alloc, row.coefficients())?;
        Ok(Row {
            coefficients,
            constant: row.constant(),
        })
    }

    /// The coefficient of a node, 0 where it has none.
    pub fn coefficient(&self, node: usize) -> i128
        ensures { result ≡ (function_row self.now).coefficient node }
    {
        coefficient_at(&self.coefficients, node)
    }

    /// Each node that has a coefficient, with it, in order of nodes.
    pub fn entries(&self) -> &[(usize, i128)]
        ensures coefficients { coefficient_of result.now ≡ (function_row self.now).coefficient }
        ensures ordered { ascends 0 result.now ≡ true }
    {
        &self.coefficients
    }

    pub fn constant(&self) -> i128
        ensures { result ≡ (function_row self.now).constant }
    {
        self.constant
    }

    /// Whether the row is 0 <= c for a c below 0.
    pub fn is_false(&self) -> bool
        ensures { Decides result (IsFalse (function_row self.now)) }
    {
        if !self.coefficients.is_empty() {
            return false;
        }
        self.constant < 0
    }

    /// The same row once more.
    pub fn copy(&self, alloc: Global) -> Result<Row, AllocError>
        ensures { IfOk result (λ row. function_row row ≡ function_row self.now) }
    {
        let coefficients = Vec::from_slice(alloc, &self.coefficients)?;
        Ok(Row {
            coefficients,
            constant: self.constant,
        })
    }

    /// The sum of the rows by factors. It is `Wide` exactly where a coefficient or the constant of the
    /// sum is past 128 bits, however large the products are on the way.
    pub fn combine(
        &self,
        alloc: Global,
        factor: i128,
        other: &Row,
        other_factor: i128,
    ) -> Result<Row, RowFault>
        ensures { GivesRow result (weighted_row factor (function_row self.now) other_factor (function_row other.now)) }
    {
        let Some(constant) = weighted_sum(factor, self.constant, other_factor, other.constant)
        else {
            return Err(RowFault::Wide);
        };
        let coefficients = weighted_entries(
            alloc,
            factor,
            &self.coefficients,
            other_factor,
            &other.coefficients,
        )?;
        Ok(Row {
            coefficients,
            constant,
        })
    }

    /// Whether so many times each number of the row has 128 bits.
    pub(crate) fn has_multiple(&self, factor: i128) -> bool
        ensures { MatchBool result (IsNarrow (multiple_row factor (function_row self.now))) (IsWide (multiple_row factor (function_row self.now))) }
    {
        if !has_product(factor, self.constant) {
            return false;
        }
        have_multiples(&self.coefficients, factor)
    }

    /// The row divided by the greatest common divisor of its coefficients, its constant rounded down. A
    /// row without coefficients stays as it is.
    pub fn divided(&self, alloc: Global) -> Result<Row, AllocError>
        ensures { IfOk result (λ row. IsDivided (function_row self.now) (function_row row)) }
    {
        self.quotient(alloc, self.divisor())
    }

    /// The greatest common divisor of the coefficients, 1 where there are none.
    pub(crate) fn divisor(&self) -> u128
        ensures { IsDivisor (function_row self.now) result }
    {
        content(&self.coefficients).max(1)
    }

    /// The row divided by that, its constant rounded down.
    pub(crate) fn quotient(&self, alloc: Global, divisor: u128) -> Result<Row, AllocError>
        requires { IsDivisor (function_row self.now) divisor }
        ensures { IfOk result (λ row. function_row row ≡ quotient_row divisor (function_row self.now)) }
    {
        let coefficients = quotients(alloc, &self.coefficients, divisor)?;
        let constant = floor_quotient(self.constant, divisor);
        Ok(Row {
            coefficients,
            constant,
        })
    }
}
