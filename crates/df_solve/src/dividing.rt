//! Where a column is not whole: cuts, and a split of a column that has near bounds.

use crate::searching::{Search, Turn};
use df_form::Op;
use df_simplex::Entry;
use std::alloc::AllocError;

/// How far apart the bounds may be of a column that is split before others.
const NARROW: i128 = 1_000;

impl<'a> Search<'a> {
    /// Adds a cut where the tableau has a column that is not whole, or splits one that has near bounds. Where it does
    /// neither, all columns are to be whole.
    pub fn divide(&mut self) -> Result<Turn, AllocError> {
        if !self.has_fraction() {
            return self.complete();
        }
        if self.state.theory.wake_cuts()? {
            let conflict = self.state.propagate()?;
            if conflict.is_some() || !self.state.theory.is_settled() {
                return self.after(conflict);
            }
        }
        let work = self.state.theory.cutting_work();
        self.state.spend(work);
        match self.state.theory.cut()? {
            Some(cut) => {
                self.state.theory.add_cut(cut)?;
                Ok(Turn::On)
            }
            None => self.divide_narrow(),
        }
    }

    /// Whether a column is not whole at the tableau's values, where these are within all bounds.
    fn has_fraction(&self) -> bool {
        let theory = &self.state.theory;
        !theory.tableau.is_broken && theory.is_settled() && theory.tableau.has_fraction()
    }

    /// Splits a column that has near bounds, unless a row refutes them.
    fn divide_narrow(&mut self) -> Result<Turn, AllocError> {
        let Some(column) = self.state.theory.narrowest(NARROW) else {
            return self.complete();
        };
        let work = self.state.theory.dividing_work();
        self.state.spend(work);
        match self.state.theory.indivisible()? {
            Some(derivations) => {
                let conflict = self.state.explain_conflicts(&derivations)?;
                self.after(conflict)
            }
            None => self.split_column(column),
        }
    }

    /// Splits a column at its value.
    fn split_column(&mut self, column: usize) -> Result<Turn, AllocError> {
        let below = self.state.theory.tableau.fraction(column).floor();
        match (self.node_of(column)?, below) {
            (Some(node), Some(bound)) => self.split(node, bound),
            _ => self.complete(),
        }
    }

    /// The node of a column, which is made where it is a form.
    fn node_of(&mut self, column: usize) -> Result<Option<usize>, AllocError> {
        if let Some(node) = self.state.theory.forms.node(column) {
            return Ok(Some(node));
        }
        let entries = match self.state.theory.forms.members(column) {
            Some(entries) => Vec::from_slice(self.state.alloc, entries)?,
            None => return Ok(None),
        };
        let mut sum = None;
        for entry in entries.iter() {
            sum = self.with_multiple(sum, *entry)?;
        }
        Ok(sum)
    }

    /// The node of a sum and a column so many times.
    fn with_multiple(
        &mut self,
        sum: Option<usize>,
        entry: Entry,
    ) -> Result<Option<usize>, AllocError> {
        let Some(node) = self.state.theory.forms.node(entry.column) else {
            return Ok(None);
        };
        let multiple = if entry.coefficient == 1 {
            node
        } else {
            let factor = self.state.terms.add_number(entry.coefficient)?;
            self.state.two(Op::Times, factor, node)?
        };
        match sum {
            Some(sum) => self.state.two(Op::Plus, sum, multiple).map(Some),
            None => Ok(Some(multiple)),
        }
    }
}
