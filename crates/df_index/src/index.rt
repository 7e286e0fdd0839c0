//! Where the nodes of sequents stand.

use crate::ends::{Ends, ends_at};
use crate::made::{Made, is_operation, made_like};
use crate::offset::{Offset, offset_at, offset_of};
use crate::width::{width_at, width_of};
use df_form::{Front, NodeTable, Sequent, World};
use std::alloc::{AllocError, Global};
use std::collections::HashMap;

/// Nodes by what they are, as far as they were met. It serves sequents of which each has the nodes of those before it, as
/// those of one method do: each node is met once.
#[derive(Drop)]
pub struct Index {
    places: HashMap<Made, usize>,
    /// By node.
    offsets: Vec<Offset>,
    /// By node.
    widths: Vec<usize>,
    /// The ends of types, by the nodes that test for them.
    ends: HashMap<usize, Ends>,
    /// How many nodes were met.
    count: usize,
    /// The first product, quotient, remainder or character.
    first_operation: Option<usize>,
}

impl Index {
    pub fn new(alloc: Global) -> Index {
        Index {
            places: HashMap::new(alloc),
            offsets: Vec::new(alloc),
            widths: Vec::new(alloc),
            ends: HashMap::new(alloc),
            count: 0,
            first_operation: None,
        }
    }

    /// Meets the nodes of a sequent that were not met yet.
    pub fn meet(&mut self, sequent: &Sequent) -> Result<(), AllocError> {
        let nodes = &sequent.nodes;
        for number in self.count..nodes.len() {
            self.meet_test(sequent.world, nodes, number)?;
            self.meet_node(nodes, number)?;
            self.count = number.saturating_add(1);
        }
        Ok(())
    }

    /// Meets a node as a test for a type, if it is one.
    fn meet_test(&mut self, world: World, nodes: &Front, number: usize) -> Result<(), AllocError> {
        if let Some(ends) = ends_at(world, nodes, number) {
            self.ends.insert(number, ends)?;
        }
        Ok(())
    }

    fn meet_node(&mut self, nodes: &Front, number: usize) -> Result<(), AllocError> {
        if self.first_operation.is_none() && is_operation(nodes, number) {
            self.first_operation = Some(number);
        }
        if let Some(made) = made_like(nodes, number) {
            self.places.insert(made, number)?;
        }
        if self.offsets.len() == number {
            let offset = offset_of(nodes, &self.offsets, number);
            self.offsets.push(offset)?;
        }
        if self.widths.len() == number {
            let width = width_of(nodes, &self.widths, number);
            self.widths.push(width)?;
        }
        Ok(())
    }

    /// The ends of the type for which a node tests, if it is declared.
    pub fn ends(&self, node: usize) -> Option<Ends> {
        self.ends.get(&node).copied()
    }

    /// What a node is as the sum of another one and a number.
    pub fn offset(&self, node: usize) -> Offset {
        offset_at(&self.offsets, node)
    }

    /// How many members a node has as a sum, or what a comparison compares, at most; any other node is as wide as its
    /// widest part.
    pub fn width(&self, node: usize) -> usize {
        width_at(&self.widths, node)
    }

    /// The node that is like this one, if it is one of so many first ones.
    pub fn find(&self, made: Made, count: usize) -> Option<usize> {
        match self.places.get(&made) {
            Some(node) if *node < count => Some(*node),
            _ => None,
        }
    }

    /// Whether there is a product, a quotient, a remainder or a character among so many first nodes.
    pub fn has_operations(&self, count: usize) -> bool {
        match self.first_operation {
            Some(first) => first < count,
            None => false,
        }
    }
}
