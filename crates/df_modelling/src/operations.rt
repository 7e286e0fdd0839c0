//! Operations on numbers by their parts, and those on equal numbers that have different results.

use crate::candidate::Candidate;
use df_form::{Op, Pair, Symbol};
use std::alloc::AllocError;
use std::collections::BTreeMap;

/// An operation, and the numbers of its parts.
#[derive(Clone, Copy, PartialEq, Eq, PartialOrd, Ord)]
pub(crate) struct Key {
    pub op: u8,
    pub first: i128,
    pub second: i128,
}

/// An operation on numbers by a number of its own.
pub(crate) fn number_of(op: Op) -> Option<u8> {
    match op {
        Op::Times => Some(0),
        Op::Of(Symbol::Div, _) => Some(1),
        Op::Of(Symbol::Mod, _) => Some(2),
        Op::Of(Symbol::Chr, _) => Some(3),
        _ => None,
    }
}

impl<'a> Candidate<'a> {
    /// An operation of the engine's, and the numbers of its parts.
    pub(crate) fn key(&self, node: usize) -> Option<Key> {
        let op = number_of(self.terms.op(node)?)?;
        let first = self.theory.value(self.terms.part(node, 0)?)?;
        let second = match self.terms.part(node, 1) {
            Some(part) => self.theory.value(part)?,
            None => 0,
        };
        Some(Key { op, first, second })
    }

    /// Numbers that are equal and may be unequal, of two operations with different results.
    pub fn unequal_operations(&self) -> Result<Option<Pair>, AllocError> {
        let mut found: BTreeMap<Key, usize> = BTreeMap::new(self.alloc);
        for &node in self.operations.iter() {
            let Some(key) = self.key(node) else {
                continue;
            };
            match found.get(&key).copied() {
                Some(other) if self.are_different(node, other) => {
                    if let Some(pair) = self.unequal_parts(node, other) {
                        return Ok(Some(pair));
                    }
                }
                Some(_) => {}
                None => {
                    found.insert(key, node)?;
                }
            }
        }
        Ok(None)
    }

    /// Whether two operations have different results.
    fn are_different(&self, one: usize, other: usize) -> bool {
        if self.terms.is_number(one) {
            self.theory.value(one) != self.theory.value(other)
        } else {
            !self.graph.are_equal(one, other)
        }
    }

    /// The first parts of two operations that are not known to be equal.
    fn unequal_parts(&self, one: usize, other: usize) -> Option<Pair> {
        for place in [0, 1] {
            let left = self.terms.part(one, place)?;
            let right = self.terms.part(other, place)?;
            if !self.graph.are_equal(left, right) {
                return Some(Pair { left, right });
            }
        }
        None
    }
}
