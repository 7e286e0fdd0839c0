//! Explanations: the literals by which terms are equal, and the pairs of congruent terms that are needed.

use crate::forest::{Cause, Merge};
use crate::graph::Graph;
use df_clauses::Literal;
use df_form::Pair;
use std::alloc::{AllocError, Global};
use std::collections::BTreeSet;

/// Why terms are equal.
#[derive(Drop)]
pub struct Explanation {
    /// True literals, equalities all of them.
    pub literals: Vec<Literal>,
    /// Terms of one operation, on parts that are equal by the literals and the pairs before.
    pub pairs: Vec<Pair>,
}

impl Graph {
    /// Why the terms of each pair are equal.
    pub fn explain(&self, alloc: Global, equal: &[Pair]) -> Result<Explanation, AllocError> {
        let mut wanted = Vec::from_slice(alloc, equal)?;
        let mut merges = BTreeSet::new(alloc);
        for _ in 0..usize::MAX {
            let Some(pair) = wanted.pop() else {
                break;
            };
            for number in self.forest.path(pair.left, pair.right)?.iter() {
                if merges.insert(*number)? {
                    self.want_parts(*number, &mut wanted)?;
                }
            }
        }
        self.explanation(alloc, &merges)
    }

    /// Wants the parts of congruent terms to be equal.
    fn want_parts(&self, number: usize, wanted: &mut Vec<Pair>) -> Result<(), AllocError> {
        let Some(
            Merge {
                left,
                right,
                cause: Cause::Congruence,
            },
        ) = self.forest.merge(number)
        else {
            return Ok(());
        };
        let (Some(one), Some(other)) = (self.application(left), self.application(right)) else {
            return Ok(());
        };
        wanted.push(Pair {
            left: one.left,
            right: other.left,
        })?;
        if let (Some(left), Some(right)) = (one.right, other.right) {
            wanted.push(Pair { left, right })?;
        }
        Ok(())
    }

    fn explanation(
        &self,
        alloc: Global,
        merges: &BTreeSet<usize>,
    ) -> Result<Explanation, AllocError> {
        let mut literals = Vec::new(alloc);
        let mut pairs = Vec::new(alloc);
        for number in merges.iter() {
            match self.forest.merge(*number) {
                Some(
                    Merge {
                        cause: Cause::Literal(literal),
                        ..
                    },
                ) => literals.push(literal)?,
                Some(
                    Merge {
                        left,
                        right,
                        cause: Cause::Congruence,
                    },
                ) => { pairs.push(Pair { left, right })? }
                None => {}
            }
        }
        Ok(Explanation { literals, pairs })
    }
}
