//! Defining clauses: those of a formula come into the book once it has a value.

use crate::state::State;
use df_clauses::{Literal, Origin};
use df_theory::{Ends, Shape, definition, definitions};
use std::alloc::AllocError;

impl<'a> State<'a> {
    /// Adds the clauses on what it means that the literal is true. A clause that is false, if one is.
    pub fn define(&mut self, literal: Literal) -> Result<Option<usize>, AllocError> {
        if self.variables.define(literal.variable, literal.positive) {
            return Ok(None);
        }
        let Some(node) = self.variables.node(literal.variable) else {
            return Ok(None);
        };
        let shape = self.terms.shape(node);
        let clauses = definitions(shape, self.terms.part_count(node), literal.positive);
        let mut conflict = None;
        for clause in clauses.first..clauses.end {
            let found = self.add_definition(node, shape, clause)?;
            if conflict.is_none() {
                conflict = found;
            }
        }
        Ok(conflict)
    }

    /// Adds a defining clause. Its number, where it is false.
    fn add_definition(
        &mut self,
        node: usize,
        shape: Shape,
        clause: usize,
    ) -> Result<Option<usize>, AllocError> {
        match shape {
            Shape::Is { ends, part } => self.add_type(node, ends, part, clause),
            Shape::And => self.add_and(node, clause),
            Shape::Or => self.add_or(node, clause),
            Shape::Equal(a, b) => self.add_equality(node, a, b, clause),
            _ => self.add_small(node, shape, clause),
        }
    }

    fn add_connective(
        &mut self,
        literals: Vec<Literal>,
        node: usize,
        clause: usize,
    ) -> Result<Option<usize>, AllocError> {
        self.add_clause(literals, Origin::Connective { node, clause })
    }

    /// The literal of a node, and those of others.
    fn with_literals(
        &mut self,
        node: usize,
        positive: bool,
        others: &[(usize, bool)],
    ) -> Result<Vec<Literal>, AllocError> {
        let first = self.literal(node, positive)?;
        let mut literals = vec![in self.alloc; first]?;
        for (other, positive) in others {
            let literal = self.literal(*other, *positive)?;
            literals.push(literal)?;
        }
        Ok(literals)
    }

    /// The literal of a node, and of all its parts.
    fn with_parts(
        &mut self,
        node: usize,
        positive: bool,
        are_positive: bool,
    ) -> Result<Vec<Literal>, AllocError> {
        let first = self.literal(node, positive)?;
        let mut literals = vec![in self.alloc; first]?;
        for place in 0..self.terms.part_count(node) {
            if let Some(part) = self.terms.part(node, place) {
                let literal = self.literal(part, are_positive)?;
                literals.push(literal)?;
            }
        }
        Ok(literals)
    }

    fn add_and(&mut self, node: usize, clause: usize) -> Result<Option<usize>, AllocError> {
        let literals = match self.terms.part(node, clause) {
            Some(part) => self.with_literals(node, false, &[(part, true)])?,
            None => self.with_parts(node, true, false)?,
        };
        self.add_connective(literals, node, clause)
    }

    fn add_or(&mut self, node: usize, clause: usize) -> Result<Option<usize>, AllocError> {
        let part = match clause.checked_sub(1) {
            Some(place) => self.terms.part(node, place),
            None => None,
        };
        let literals = match part {
            Some(part) => self.with_literals(node, true, &[(part, false)])?,
            None => self.with_parts(node, false, true)?,
        };
        self.add_connective(literals, node, clause)
    }

    fn add_equality(
        &mut self,
        node: usize,
        a: usize,
        b: usize,
        clause: usize,
    ) -> Result<Option<usize>, AllocError> {
        let literals = match clause {
            0 => self.with_comparison(node, a, b)?,
            1 => self.with_comparison(node, b, a)?,
            _ => self.with_comparisons(node, a, b)?,
        };
        self.add_connective(literals, node, clause)
    }

    /// That an equality is false, or its first side is at most its second.
    fn with_comparison(
        &mut self,
        node: usize,
        a: usize,
        b: usize,
    ) -> Result<Vec<Literal>, AllocError> {
        let up = self.terms.at_most_node(a, b)?;
        self.with_literals(node, false, &[(up, true)])
    }

    /// That an equality is true, or one of its comparisons is false.
    fn with_comparisons(
        &mut self,
        node: usize,
        a: usize,
        b: usize,
    ) -> Result<Vec<Literal>, AllocError> {
        let up = self.terms.at_most_node(a, b)?;
        let down = self.terms.at_most_node(b, a)?;
        self.with_literals(node, true, &[(up, false), (down, false)])
    }

    /// Adds a clause of a connective of one or two parts.
    fn add_small(
        &mut self,
        node: usize,
        shape: Shape,
        clause: usize,
    ) -> Result<Option<usize>, AllocError> {
        let Some(parts) = definition(shape, clause) else {
            return Ok(None);
        };
        let literals = match parts.second {
            Some(second) => self.with_literals(node, parts.positive, &[parts.first, second])?,
            None => self.with_literals(node, parts.positive, &[parts.first])?,
        };
        self.add_connective(literals, node, clause)
    }

    /// Adds a clause on what it is to be of a type.
    fn add_type(
        &mut self,
        node: usize,
        ends: Ends,
        part: usize,
        clause: usize,
    ) -> Result<Option<usize>, AllocError> {
        let is_last = clause >= ends.count();
        let low = match ends.low_in(clause) {
            Some(low) => Some(self.terms.at_least(low, part)?),
            None => None,
        };
        let high = match ends.high_in(clause) {
            Some(high) => Some(self.terms.at_most(part, high)?),
            None => None,
        };
        let literals = self.with_ends(node, is_last, low, high)?;
        let clause = u32::try_from(clause).unwrap_or(u32::MAX);
        self.add_clause(literals, Origin::Type { node, clause })
    }

    /// The literal of a node, and those of the tests of ends that are there.
    fn with_ends(
        &mut self,
        node: usize,
        positive: bool,
        low: Option<usize>,
        high: Option<usize>,
    ) -> Result<Vec<Literal>, AllocError> {
        match (low, high) {
            (Some(low), Some(high)) => {
                self.with_literals(node, positive, &[(low, !positive), (high, !positive)])
            }
            (Some(low), None) => self.with_literals(node, positive, &[(low, !positive)]),
            (None, Some(high)) => self.with_literals(node, positive, &[(high, !positive)]),
            (None, None) => self.with_literals(node, positive, &[]),
        }
    }
}
