//! Which instances of schemas there are.

use std::alloc::{AllocError, Global};
use std::collections::{BTreeSet, HashMap};

/// An instance: a clause of a schema for one term or two.
#[derive(Clone, Copy, PartialEq, Eq, PartialOrd, Ord)]
pub struct Asked {
    pub schema: u8,
    pub clause: u32,
    pub first: usize,
    pub second: usize,
}

/// How many instances there may be.
const MOST: usize = 20_000;

/// The operations that were met, and the instances that were asked for.
#[derive(Drop)]
pub struct Instances {
    /// How many rounds of instances may follow from one another.
    pub rounds: u32,
    /// Operations in the order in which they were met.
    operations: Vec<usize>,
    /// So many of them were looked at.
    pub seen: usize,
    asked: BTreeSet<Asked>,
    /// The rounds of terms that instances made.
    made_in: HashMap<usize, u32>,
    /// Products, as sums of multiples of products of terms that are none.
    normal: HashMap<usize, usize>,
    /// A clause that is false.
    pub conflict: Option<usize>,
}

impl Instances {
    /// None yet.
    pub fn new(alloc: Global, rounds: u32) -> Instances {
        Instances {
            rounds,
            operations: Vec::new(alloc),
            seen: 0,
            asked: BTreeSet::new(alloc),
            made_in: HashMap::new(alloc),
            normal: HashMap::new(alloc),
            conflict: None,
        }
    }

    /// An operation is met.
    pub fn meet(&mut self, node: usize) -> Result<(), AllocError> {
        self.operations.push(node)?;
        Ok(())
    }

    /// The operations that were met, in this order.
    pub fn operations(&self) -> &[usize] {
        self.operations.as_slice()
    }

    /// How many operations were met.
    pub fn len(&self) -> usize {
        self.operations.len()
    }

    /// The operation that was met at this place, if there is one.
    pub fn operation(&self, place: usize) -> Option<usize> {
        self.operations.get(place).copied()
    }

    /// The round in which a term was made.
    pub fn round(&self, node: usize) -> u32 {
        match self.made_in.get(&node) {
            Some(round) => *round,
            None => 0,
        }
    }

    /// A term is made in this round, if it is new.
    pub fn set_round(&mut self, node: usize, round: u32) -> Result<(), AllocError> {
        if round > 0 && !self.made_in.contains_key(&node) {
            self.made_in.insert(node, round)?;
        }
        Ok(())
    }

    /// Whether terms of this round may have instances.
    pub fn is_within(&self, round: u32) -> bool {
        round < self.rounds
    }

    /// Asks for an instance. Whether it is new, and there may be more.
    pub fn ask(&mut self, asked: Asked) -> Result<bool, AllocError> {
        if self.asked.len() >= MOST {
            return Ok(false);
        }
        Ok(self.asked.insert(asked)?)
    }

    /// The normal form of a product, where it is known.
    pub fn normal(&self, node: usize) -> Option<usize> {
        self.normal.get(&node).copied()
    }

    /// Has the normal form of a product known.
    pub fn set_normal(&mut self, node: usize, normal: usize) -> Result<(), AllocError> {
        self.normal.insert(node, normal)?;
        Ok(())
    }
}
