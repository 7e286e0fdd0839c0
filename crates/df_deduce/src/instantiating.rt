//! Instances of schemas come into the book: their patterns and clauses are rows of a table.

use crate::schemas::{
    AT_LEAST, BELOW, BELOW_OPPOSITE, CHANGE, CHARACTER, COMPARE, GO_IN, JOIN, LITERAL_FIRST, PARTS,
};
use crate::state::State;
use df_axiom::{Need, SchemaRow, Source, Test, begins_with, rows};
use df_clauses::{Asked, Instance, Literal, Origin};
use df_form::{Op, Symbol};
use df_theory::{Made, Shape};
use std::alloc::AllocError;

/// Whether instances of a schema only write products in another way.
fn is_rewriting(schema: u8) -> bool {
    matches!(schema, CHANGE | JOIN | GO_IN | LITERAL_FIRST)
}

/// Whether the instances of a schema for one term are made where its operation is met. Those that write
/// products in another way are made where a product comes into its normal form, and comparing products
/// says what the other one does.
fn is_asked_for(row: &SchemaRow) -> bool {
    row.terms == 1 && !is_rewriting(row.schema) && row.schema != AT_LEAST
}

/// The row of a clause of a schema, for instances whose first term is of the operation.
fn row_of(op: Op, schema: u8, clause: u32) -> Option<&'static SchemaRow> {
    for row in rows() {
        if row.schema == schema && row.clause == clause && begins_with(op, row) {
            return Some(row);
        }
    }
    None
}

/// The node of a place.
fn node_at(places: &[usize], place: usize) -> usize {
    match places.get(place) {
        Some(node) => *node,
        None => 0,
    }
}

impl<'a> State<'a> {
    /// Whether a node passes a test.
    fn passes(&self, test: Test, node: usize) -> bool {
        match test {
            Test::Any => true,
            Test::Literal => self.terms.number(node).is_some(),
            Test::Of(op) => self.terms.op(node) == Some(op),
        }
    }

    /// The nodes of a row's pieces, where the named terms are as it wants them.
    fn places(&self, terms: &[usize], row: &SchemaRow) -> Result<Option<Vec<usize>>, AllocError> {
        let mut places: Vec<usize> = Vec::new(self.alloc);
        for piece in row.pieces.iter() {
            let node = match piece.source {
                Source::Named(term) => terms.get(term).copied(),
                Source::Part(place, part) => match places.get(place) {
                    Some(whole) => self.terms.part(*whole, part),
                    None => None,
                },
            };
            match node {
                Some(node) if self.passes(piece.test, node) => places.push(node)?,
                _ => return Ok(None),
            }
        }
        for pair in row.same.iter() {
            if node_at(&places, pair.left) != node_at(&places, pair.right) {
                return Ok(None);
            }
        }
        Ok(Some(places))
    }

    /// The node that a clause needs.
    fn needed(&mut self, places: &[usize], need: Need) -> Result<usize, AllocError> {
        match need {
            Need::Number(number) => self.terms.add(Made::Number(number)),
            Need::One(op, part) => self.terms.add(Made::One(op, node_at(places, part))),
            Need::Two(op, left, right) => {
                let left = node_at(places, left);
                self.terms.add(Made::Two(op, left, node_at(places, right)))
            }
        }
    }

    /// The highest round of terms.
    fn round_of(&self, terms: &[usize]) -> u32 {
        let mut round = 0;
        for term in terms {
            round = self.instances.round(*term).max(round);
        }
        round
    }

    /// Adds a clause of a schema for terms, if it is new. Whether it could.
    pub fn instantiate(
        &mut self,
        schema: u8,
        clause: u32,
        terms: &[usize],
    ) -> Result<bool, AllocError> {
        let (Some(first), second) = (terms.first().copied(), terms.get(1).copied()) else {
            return Ok(false);
        };
        let round = self.round_of(terms);
        let asked = Asked {
            schema,
            clause,
            first,
            second: second.unwrap_or(0),
        };
        if !self.instances.is_within(round) || !self.instances.ask(asked)? {
            return Ok(false);
        }
        let Some(op) = self.terms.op(first) else {
            return Ok(false);
        };
        match row_of(op, schema, clause) {
            Some(row) => {
                let instance = Instance { schema, clause };
                self.add_instance(instance, terms, row, round)
            }
            None => Ok(false),
        }
    }

    fn add_instance(
        &mut self,
        instance: Instance,
        terms: &[usize],
        row: &SchemaRow,
        round: u32,
    ) -> Result<bool, AllocError> {
        let next = if is_rewriting(instance.schema) {
            round
        } else {
            round.saturating_add(1)
        };
        match self.places(terms, row)? {
            Some(places) => self.add_instance_at(instance, terms, row, places, next),
            None => Ok(false),
        }
    }

    /// Adds an instance, the nodes of whose pieces are these. The nodes that it needs are of a round, where they are new.
    fn add_instance_at(
        &mut self,
        instance: Instance,
        terms: &[usize],
        row: &SchemaRow,
        places: Vec<usize>,
        round: u32,
    ) -> Result<bool, AllocError> {
        self.spend(64);
        let mut places = places;
        let count = places.len();
        self.add_needed(row, &mut places, round)?;
        match Origin::of_instance(self.alloc, instance, terms, &places, count) {
            Ok(origin) => self.add_clause_at(&places, row, origin),
            Err(error) => Err(error),
        }
    }

    /// Adds the nodes that a clause needs to those of its places.
    fn add_needed(
        &mut self,
        row: &SchemaRow,
        places: &mut Vec<usize>,
        round: u32,
    ) -> Result<(), AllocError> {
        for need in row.needed.iter() {
            let before = self.terms.len();
            let node = self.needed(places, *need)?;
            if before < self.terms.len() {
                self.instances.set_round(node, round)?;
            }
            places.push(node)?;
        }
        Ok(())
    }

    /// Adds the clause of a row whose places have these nodes. Always true.
    fn add_clause_at(
        &mut self,
        places: &[usize],
        row: &SchemaRow,
        origin: Origin,
    ) -> Result<bool, AllocError> {
        match self.literals_at(places, row) {
            Ok(literals) => {
                self.add_and_define(literals, origin)?;
                Ok(true)
            }
            Err(error) => Err(error),
        }
    }

    fn literals_at(
        &mut self,
        places: &[usize],
        row: &SchemaRow,
    ) -> Result<Vec<Literal>, AllocError> {
        let mut literals = Vec::new(self.alloc);
        for literal in row.literals.iter() {
            let node = node_at(places, literal.node);
            literals.push(self.literal(node, literal.positive)?)?;
        }
        Ok(literals)
    }

    /// Adds a clause, and has it be known what its equalities mean.
    fn add_and_define(&mut self, literals: Vec<Literal>, origin: Origin) -> Result<(), AllocError> {
        match Vec::from_slice(self.alloc, literals.as_slice()) {
            Ok(copies) => {
                let conflict = self.add_clause(literals, origin)?;
                self.note(conflict);
                self.define_all(&copies)
            }
            Err(_) => Err(AllocError),
        }
    }

    /// Has it be known what equalities mean.
    fn define_all(&mut self, literals: &[Literal]) -> Result<(), AllocError> {
        for literal in literals {
            self.define_both(*literal)?;
        }
        Ok(())
    }

    /// Keeps a clause that is false.
    pub(crate) fn note(&mut self, conflict: Option<usize>) {
        if self.instances.conflict.is_none() {
            self.instances.conflict = conflict;
        }
    }

    /// Has it be known what an equality of numbers means.
    pub fn define_both(&mut self, literal: Literal) -> Result<(), AllocError> {
        let node = self.variables.node(literal.variable).unwrap_or(0);
        if let Shape::Equal(..) = self.terms.shape(node) {
            for positive in [true, false] {
                let conflict = self.define(Literal {
                    variable: literal.variable,
                    positive,
                })?;
                self.note(conflict);
            }
        }
        Ok(())
    }

    /// Whether operations were met since the last time that they were looked at.
    pub fn has_unseen_operations(&self) -> bool {
        self.instances.seen < self.instances.len()
    }

    /// Looks at the operations that were met since the last time. A clause that is false, if one is.
    pub fn ask_for_operations(&mut self) -> Result<Option<usize>, AllocError> {
        for _ in 0..usize::MAX {
            if self.is_over() || self.instances.conflict.is_some() {
                break;
            }
            let Some(node) = self.instances.operation(self.instances.seen) else {
                break;
            };
            self.instances.seen = self.instances.seen.saturating_add(1);
            self.ask_for_operation(node)?;
        }
        Ok(self.instances.conflict.take())
    }

    /// Has the linear forms of an operation and its parts known.
    fn expand(&mut self, node: usize) -> Result<(), AllocError> {
        let parts = [
            Some(node),
            self.terms.part(node, 0),
            self.terms.part(node, 1),
        ];
        for part in parts {
            if let Some(part) = part {
                if self.terms.is_number(part) {
                    self.theory.expand(&self.terms, part)?;
                }
            }
        }
        Ok(())
    }

    /// Adds the instances that say all that is linear of an operation.
    fn ask_for_operation(&mut self, node: usize) -> Result<(), AllocError> {
        let Some(op) = self.terms.op(node) else {
            return Ok(());
        };
        self.expand(node)?;
        if op == Op::Times {
            self.normalize(node)?;
        }
        for row in rows() {
            if begins_with(op, row) && is_asked_for(row) && self.says_more(row, op, node) {
                self.instantiate(row.schema, row.clause, &[node])?;
            }
        }
        Ok(())
    }

    /// Whether a clause on an operation says more than what is known of it.
    fn says_more(&self, row: &SchemaRow, op: Op, node: usize) -> bool {
        let (Some(first), second) = (self.terms.part(node, 0), self.terms.part(node, 1)) else {
            return false;
        };
        let second = second.unwrap_or(0);
        let divisor = self.terms.number(second);
        let schema = row.schema;
        if op == Op::symbol(Symbol::Mod) && schema == PARTS {
            // The quotient says the same.
            let quotient = Made::Two(Op::symbol(Symbol::Div), first, second);
            self.terms.find(quotient).is_none()
        } else if schema == BELOW {
            divisor.unwrap_or(1) > 0
        } else if schema == BELOW_OPPOSITE {
            divisor.unwrap_or(-1) < 0
        } else if schema == CHARACTER {
            self.terms.op(first) != Some(Op::symbol(Symbol::Code))
        } else {
            true
        }
    }

    /// Compares two products of one second factor. Whether the clause is new.
    pub fn compare_products(&mut self, low: usize, high: usize) -> Result<bool, AllocError> {
        self.instantiate(COMPARE.schema, COMPARE.clause, &[low, high])
    }
}
