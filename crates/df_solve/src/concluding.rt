//! Where all columns are whole: a counterexample, or what the numbers of operations break.

use crate::candidate::candidate_of;
use crate::searching::{Search, Turn};
use df_form::{Op, Pair, Sequent};
use df_modelling::{Comparison, Tabled};
use std::alloc::AllocError;

impl<'a> Search<'a> {
    /// Has a counterexample of the sequent, or learns of operations. The levels after this one only looked for numbers.
    pub fn conclude(&mut self, sequent: &Sequent, level: usize) -> Result<Turn, AllocError> {
        if self.is_for_proof {
            return Ok(Turn::GaveUp);
        }
        self.table = candidate_of(&self.state).counterexample(sequent)?;
        if self.table.is_some() {
            return Ok(Turn::Complete);
        }
        if !self.state.has_classes {
            return Ok(Turn::GaveUp);
        }
        match self.break_numbers(level)? {
            Some(turn) => Ok(turn),
            None => self.tabulate(sequent, level),
        }
    }

    /// Learns of operations whose numbers are not what their parts make them; nothing, where all that is said of them
    /// is known.
    fn break_numbers(&mut self, level: usize) -> Result<Option<Turn>, AllocError> {
        if self.state.has_unseen_operations() {
            self.state.cancel(0)?;
            return Ok(Some(Turn::On));
        }
        let cost = self.state.terms.len().saturating_mul(4);
        self.state.spend(cost);
        if let Some(pair) = candidate_of(&self.state).unequal_operations()? {
            if self.equate(level, pair)? {
                return Ok(Some(Turn::On));
            }
        }
        self.break_products()
    }

    /// Learns of products whose numbers are not what their factors make them.
    fn break_products(&mut self) -> Result<Option<Turn>, AllocError> {
        let turn = self.refine_signs()?;
        if turn.is_some() {
            return Ok(turn);
        }
        let turn = self.multiply_sums()?;
        if turn.is_some() {
            return Ok(turn);
        }
        self.refine_numbers()
    }

    fn refine_signs(&mut self) -> Result<Option<Turn>, AllocError> {
        let comparisons = self.comparisons_of_signs()?;
        self.refine(&comparisons)
    }

    fn multiply_sums(&mut self) -> Result<Option<Turn>, AllocError> {
        let substitutions = self.substitutions()?;
        self.multiply_all(&substitutions)
    }

    fn refine_numbers(&mut self) -> Result<Option<Turn>, AllocError> {
        let comparisons = self.comparisons()?;
        self.refine(&comparisons)
    }

    /// Has products with sums in place of factors be known, if they may be.
    fn multiply_all(&mut self, pairs: &[Pair]) -> Result<Option<Turn>, AllocError> {
        let mut is_new = false;
        for pair in pairs {
            if self.may_multiply(*pair) {
                self.products = self.products.saturating_sub(1);
                if !is_new {
                    self.state.cancel(0)?;
                    is_new = true;
                }
                self.multiply(*pair)?;
            }
        }
        if !is_new {
            return Ok(None);
        }
        let conflict = self.state.ask_for_operations()?;
        self.after(conflict).map(Some)
    }

    /// Has comparisons of products be known, if there are any.
    fn refine(&mut self, comparisons: &[Comparison]) -> Result<Option<Turn>, AllocError> {
        if comparisons.is_empty() {
            return Ok(None);
        }
        self.state.cancel(0)?;
        let mut is_new = false;
        for comparison in comparisons {
            if self.compare(*comparison)? {
                is_new = true;
            }
        }
        let conflict = self.state.ask_for_operations()?;
        if conflict.is_none() && !is_new {
            return Ok(Some(Turn::GaveUp));
        }
        self.after(conflict).map(Some)
    }

    /// Decides that two numbers are equal. Whether that was open.
    fn equate(&mut self, level: usize, pair: Pair) -> Result<bool, AllocError> {
        self.state.cancel(level)?;
        let node = self.state.terms.add_two(Op::Equal, pair.left, pair.right)?;
        let literal = self.state.literal(node, true)?;
        self.state.define_both(literal)?;
        if self.state.solver.trail.value(literal).is_some() {
            return Ok(self.state.instances.conflict.is_some());
        }
        self.state.decide(literal)?;
        Ok(true)
    }

    /// Has a table of what operations are, or decides an equality.
    fn tabulate(&mut self, sequent: &Sequent, level: usize) -> Result<Turn, AllocError> {
        match candidate_of(&self.state).tabled(sequent)? {
            Tabled::Table(table) => {
                self.table = Some(table);
                Ok(Turn::Complete)
            }
            Tabled::Apart(pair) => {
                if self.equate(level, pair)? {
                    Ok(Turn::On)
                } else {
                    Ok(Turn::GaveUp)
                }
            }
            Tabled::Nothing => Ok(Turn::GaveUp),
        }
    }
}
