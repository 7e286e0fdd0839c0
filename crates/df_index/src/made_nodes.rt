//! Nodes that clauses made. Where they serve further sequents, each of which has the nodes of the one before, they keep
//! their numbers, and nodes of these sequents may be like them.

use crate::made::{Made, made_like};
use df_form::{Front, NodeTable};
use std::alloc::{AllocError, Global};
use std::collections::HashMap;

/// The made nodes by their numbers.
#[derive(Drop)]
pub struct MadeNodes {
    /// The number of the first one.
    first: usize,
    all: Vec<Made>,
    places: HashMap<Made, usize>,
    /// So many nodes of the sequent were compared with them.
    compared: usize,
    /// By nodes of the sequent, the made ones that they are like,
    made_for: HashMap<usize, usize>,
    /// and by these the nodes of the sequent.
    own_for: HashMap<usize, usize>,
}

/// What stands for a node, if something does, and else the node.
fn image(images: &HashMap<usize, usize>, node: usize) -> usize {
    match images.get(&node) {
        Some(image) => *image,
        None => node,
    }
}

/// A made node, with what stands for its parts in their place.
fn with_images(images: &HashMap<usize, usize>, made: Made) -> Made {
    match made {
        Made::Number(_) => made,
        Made::One(op, part) => Made::One(op, image(images, part)),
        Made::Two(op, left, right) => Made::Two(op, image(images, left), image(images, right)),
    }
}

impl MadeNodes {
    /// None yet, beside so many nodes of a sequent; the first one gets this number.
    pub fn new(alloc: Global, first: usize, count: usize) -> MadeNodes {
        MadeNodes {
            first,
            all: Vec::new(alloc),
            places: HashMap::new(alloc),
            compared: count,
            made_for: HashMap::new(alloc),
            own_for: HashMap::new(alloc),
        }
    }

    pub fn len(&self) -> usize {
        self.all.len()
    }

    /// So many nodes of sequents were compared with them.
    pub fn compared(&self) -> usize {
        self.compared
    }

    /// The made node of this number, if there is one.
    pub fn get(&self, node: usize) -> Option<Made> {
        let place = node.checked_sub(self.first)?;
        self.all.get(place).copied()
    }

    /// The made node that a node of the sequent is like, or else the node.
    pub fn standing_for(&self, node: usize) -> usize {
        image(&self.made_for, node)
    }

    /// The node of the sequent that a made one is like, or else the node.
    pub fn own(&self, node: usize) -> usize {
        image(&self.own_for, node)
    }

    /// What is to be looked for among the nodes of the sequent.
    pub fn with_own(&self, made: Made) -> Made {
        with_images(&self.own_for, made)
    }

    /// The number of a made node, if it stands.
    pub fn find(&self, made: Made) -> Option<usize> {
        self.places.get(&with_images(&self.made_for, made)).copied()
    }

    /// The number of a made node that does not stand yet.
    pub fn add(&mut self, made: Made) -> Result<usize, AllocError> {
        let made = with_images(&self.made_for, made);
        let node = self.first.saturating_add(self.all.len());
        self.all.push(made)?;
        self.places.insert(made, node)?;
        Ok(node)
    }

    /// Compares the nodes of a sequent that were not compared yet.
    pub fn compare(&mut self, nodes: &Front) -> Result<(), AllocError> {
        for node in self.compared..nodes.len() {
            self.compare_node(nodes, node)?;
        }
        self.compared = nodes.len();
        Ok(())
    }

    fn compare_node(&mut self, nodes: &Front, node: usize) -> Result<(), AllocError> {
        let Some(made) = made_like(nodes, node) else {
            return Ok(());
        };
        if let Some(other) = self.find(made) {
            self.made_for.insert(node, other)?;
            self.own_for.insert(other, node)?;
        }
        Ok(())
    }
}
