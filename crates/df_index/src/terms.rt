//! The nodes of a sequent, and those that clauses make.

use crate::ends::Ends;
use crate::index::Index;
use crate::made::Made;
use crate::made_nodes::MadeNodes;
use crate::offset::Offset;
use df_form::{Front, NodeTable, Op, Sort, Symbol};
use std::alloc::{AllocError, Global};
use std::mem::replace;

/// What a node is to the engine.
#[derive(Clone, Copy)]
pub enum Shape {
    Number(i128),
    Sum(usize, usize),
    /// So many times another node.
    Multiple(i128, usize),
    /// Any other number, or a character.
    Unknown,
    AtMost(usize, usize),
    /// Two numbers are equal.
    Equal(usize, usize),
    /// Two characters are.
    Same(usize, usize),
    /// A value is of a type.
    Is { ends: Ends, part: usize },
    Not(usize),
    And,
    Or,
    Implies(usize, usize),
    Iff(usize, usize),
    /// Any other truth.
    Atom,
}

fn free(sort: Sort) -> Shape {
    match sort {
        Sort::Number | Sort::Character => Shape::Unknown,
        Sort::Truth => Shape::Atom,
    }
}

/// Where no operations stand, made nodes have numbers past all that sequents' nodes have.
const FAR: usize = usize::MAX / 2;

/// The nodes of a sequent by their numbers, and past them those that clauses make.
#[derive(Drop)]
pub struct Terms<'a> {
    nodes: &'a Front,
    index: &'a Index,
    made: MadeNodes,
    /// Whether the sequent has products, quotients, remainders or characters.
    pub has_operations: bool,
}

impl<'a> Terms<'a> {
    /// The nodes of a sequent that the index has met.
    pub fn new(alloc: Global, nodes: &'a Front, index: &'a Index) -> Terms<'a> {
        let count = nodes.len();
        let has_operations = index.has_operations(count);
        let first = if has_operations { count } else { FAR };
        Terms {
            nodes,
            index,
            made: MadeNodes::new(alloc, first, count),
            has_operations,
        }
    }

    /// The same, with nodes that clauses made for a sequent without operations, all whose nodes this one has: they are to
    /// be compared.
    pub fn again(nodes: &'a Front, index: &'a Index, made: MadeNodes) -> Terms<'a> {
        Terms {
            nodes,
            index,
            made,
            has_operations: false,
        }
    }

    /// Compares the nodes of the sequent with those that clauses made before.
    pub fn compare(&mut self) -> Result<(), AllocError> {
        let nodes = self.nodes;
        self.made.compare(nodes)
    }

    /// The nodes that clauses made, of which there are none from here on.
    pub fn take_made(&mut self, alloc: Global) -> MadeNodes {
        let count = self.nodes.len();
        replace(&mut self.made, MadeNodes::new(alloc, count, count))
    }

    /// How many nodes the sequent has.
    pub fn own_count(&self) -> usize {
        self.nodes.len()
    }

    /// How many nodes there are.
    pub fn len(&self) -> usize {
        self.nodes.len().saturating_add(self.made.len())
    }

    /// The made node that a node of the sequent is like, or else the node: what is known of either is known of this one.
    pub fn standing_for(&self, node: usize) -> usize {
        self.made.standing_for(node)
    }

    /// The node of the sequent that a made one is like, or else the node: it has this number in the sequent.
    pub fn own(&self, node: usize) -> usize {
        self.made.own(node)
    }

    /// What the node does with its parts.
    pub fn op(&self, node: usize) -> Option<Op> {
        match self.nodes.get(node) {
            Some(found) => Some(found.op),
            None => Some(self.made(node)?.op()),
        }
    }

    /// The number of a literal.
    pub fn number(&self, node: usize) -> Option<i128> {
        match self.op(node)? {
            Op::Number(number) => Some(number),
            _ => None,
        }
    }

    /// Whether the value of a node is a number or a character.
    pub fn is_term(&self, node: usize) -> bool {
        match self.op(node) {
            Some(op) => op.sort() != Sort::Truth,
            None => false,
        }
    }

    pub fn is_number(&self, node: usize) -> bool {
        match self.op(node) {
            Some(op) => op.sort() == Sort::Number,
            None => false,
        }
    }

    pub fn shape(&self, node: usize) -> Shape {
        match self.nodes.get(node) {
            Some(found) => {
                let parts = found.parts.as_slice();
                let (first, second) = (parts.first().copied(), parts.get(1).copied());
                match (found.op, first) {
                    (Op::Of(Symbol::Is, _), Some(part)) => self.type_test(node, part),
                    (op, _) => self.shape_of(op, first, second),
                }
            }
            None => match self.made(node) {
                Some(made) => self.shape_of(made.op(), made.part(0), made.part(1)),
                None => Shape::Unknown,
            },
        }
    }

    /// What a test for a type is; no clause makes one.
    fn type_test(&self, node: usize, part: usize) -> Shape {
        match self.index.ends(node) {
            Some(ends) => Shape::Is { ends, part },
            None => Shape::Atom,
        }
    }

    fn shape_of(&self, op: Op, first: Option<usize>, second: Option<usize>) -> Shape {
        match (op, first, second) {
            (Op::Number(number), _, _) => Shape::Number(number),
            (Op::Free(found), _, _) => free(found.sort),
            (Op::Plus, Some(a), Some(b)) => Shape::Sum(a, b),
            (Op::Times, Some(a), Some(b)) => self.product(a, b),
            (Op::Plus | Op::Times, _, _) => Shape::Unknown,
            (Op::Of(_, _), _, _) if op.sort() != Sort::Truth => Shape::Unknown,
            (Op::AtMost, Some(a), Some(b)) => Shape::AtMost(a, b),
            (Op::Equal, Some(a), Some(b)) => self.equality(a, b),
            (Op::Not, Some(part), _) => Shape::Not(part),
            (Op::And, _, _) => Shape::And,
            (Op::Or, _, _) => Shape::Or,
            (Op::Implies, Some(a), Some(b)) => Shape::Implies(a, b),
            (Op::Iff, Some(a), Some(b)) => Shape::Iff(a, b),
            _ => Shape::Atom,
        }
    }

    fn product(&self, a: usize, b: usize) -> Shape {
        match self.number(a) {
            Some(factor) => Shape::Multiple(factor, b),
            None => Shape::Unknown,
        }
    }

    fn equality(&self, a: usize, b: usize) -> Shape {
        if self.is_number(a) {
            Shape::Equal(a, b)
        } else {
            Shape::Same(a, b)
        }
    }

    /// The node, where a clause made it.
    pub fn made(&self, node: usize) -> Option<Made> {
        self.made.get(node)
    }

    /// What a node is as the sum of another one and a number; itself, where a clause made it.
    pub fn offset(&self, node: usize) -> Offset {
        if node < self.nodes.len() {
            return self.index.offset(node);
        }
        Offset {
            base: Some(node),
            constant: 0,
        }
    }

    /// How many members a node of the sequent has as a sum, or what a comparison compares, at most.
    pub fn width(&self, node: usize) -> usize {
        self.index.width(node)
    }

    /// How many parts a node has.
    pub fn part_count(&self, node: usize) -> usize {
        match self.nodes.get(node) {
            Some(found) => found.parts.len(),
            None => match self.made(node) {
                Some(made) => made.part_count(),
                None => 0,
            },
        }
    }

    /// A part of a node.
    pub fn part(&self, node: usize, place: usize) -> Option<usize> {
        match self.nodes.get(node) {
            Some(found) => found.parts.get(place).copied(),
            None => self.made(node)?.part(place),
        }
    }

    /// The node that is like this one, if one stands.
    pub fn find(&self, made: Made) -> Option<usize> {
        match self.made.find(made) {
            Some(node) => Some(node),
            None => {
                let count = self.nodes.len();
                self.index.find(self.made.with_own(made), count)
            }
        }
    }

    /// The node, which is made where it does not stand yet.
    pub fn add(&mut self, made: Made) -> Result<usize, AllocError> {
        if let Some(node) = self.find(made) {
            return Ok(node);
        }
        self.made.add(made)
    }

    pub fn add_number(&mut self, number: i128) -> Result<usize, AllocError> {
        self.add(Made::Number(number))
    }

    /// The node of an operation on two parts.
    pub fn add_two(&mut self, op: Op, a: usize, b: usize) -> Result<usize, AllocError> {
        self.add(Made::Two(op, a, b))
    }

    /// The node `a <= b`.
    pub fn at_most_node(&mut self, a: usize, b: usize) -> Result<usize, AllocError> {
        self.add(Made::at_most(a, b))
    }

    /// The node `bound <= node`.
    pub fn at_least(&mut self, bound: i128, node: usize) -> Result<usize, AllocError> {
        let low = self.add(Made::Number(bound))?;
        self.at_most_node(low, node)
    }

    /// The node `node <= bound`.
    pub fn at_most(&mut self, node: usize, bound: i128) -> Result<usize, AllocError> {
        let high = self.add(Made::Number(bound))?;
        self.at_most_node(node, high)
    }
}
