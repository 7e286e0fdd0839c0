//! Clauses that arithmetic shows come into the book.

use crate::state::State;
use df_clauses::{Literal, Origin};
use df_simplex::{Derivation, Need};
use df_theory::{Explained, Facts};
use std::alloc::AllocError;

/// What is true, as explanations see it.
fn facts_of<'a>(state: &'a State<'a>) -> Facts<'a> {
    Facts {
        alloc: state.alloc,
        terms: &state.terms,
        variables: &state.variables,
        theory: &state.theory,
        trail: &state.solver.trail,
        book: &state.solver.book,
    }
}

impl<'a> State<'a> {
    /// Adds a clause that arithmetic shows. Its number.
    fn add_explained(&mut self, explained: Option<Explained>) -> Result<Option<usize>, AllocError> {
        match explained {
            Some(
                Explained {
                    literals,
                    combinations,
                },
            ) => {
                self.spend(literals.len());
                self.spend(combinations.len().saturating_mul(8));
                let origin = Origin::Linear(combinations);
                self.solver.book.add(literals, origin).map(Some)
            }
            None => {
                self.is_lost = true;
                Ok(None)
            }
        }
    }

    /// The clause that is false where bounds refute a row.
    pub fn explain_conflict(&mut self, needs: Vec<Need>) -> Result<Option<usize>, AllocError> {
        let derivation = Derivation { divisor: 1, needs };
        let derivations = vec![in self.alloc; derivation]?;
        self.explain_conflicts(&derivations)
    }

    /// The clause that is false where combinations of bounds have a sum below 0.
    pub fn explain_conflicts(
        &mut self,
        derivations: &[Derivation],
    ) -> Result<Option<usize>, AllocError> {
        let explained = facts_of(&*self).conflict(derivations)?;
        self.add_explained(explained)
    }

    /// The clause by which a bound implies a literal.
    pub(crate) fn explain_bound(
        &mut self,
        literal: Literal,
        number: usize,
        place: usize,
    ) -> Result<Option<usize>, AllocError> {
        let explained = facts_of(&*self).implication(literal, number, place)?;
        self.add_explained(explained)
    }

    /// The clause that says that a literal that compares constants is true.
    pub(crate) fn explain_constant(
        &mut self,
        literal: Literal,
    ) -> Result<Option<usize>, AllocError> {
        let origin = Origin::of_first_row(self.alloc)?;
        match vec![in self.alloc; literal] {
            Ok(literals) => self.solver.book.add(literals, origin).map(Some),
            Err(_) => Err(AllocError),
        }
    }
}
