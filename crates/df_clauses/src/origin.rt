//! What derives a clause.

use df_form::{Combination, Multiple, Pair};
use std::alloc::{AllocError, Global};

/// A clause of a schema by their numbers.
#[derive(Clone, Copy)]
pub struct Instance {
    pub schema: u8,
    pub clause: u32,
}

/// What derives a clause.
#[derive(Drop)]
pub enum Origin {
    Hypothesis(usize),
    Goal,
    /// A defining clause of a node.
    Connective {
        node: usize,
        clause: usize,
    },
    /// A clause on what it is to be of a type.
    Type {
        node: usize,
        clause: u32,
    },
    /// A clause of a schema for terms, and the nodes that it needs, in the order in which it makes them.
    Schema {
        instance: Instance,
        terms: Vec<usize>,
        needed: Vec<usize>,
    },
    /// Classes of the negated literals' equalities, closed by pairs of congruent nodes.
    Congruence(Vec<Pair>),
    Split {
        node: usize,
        bound: i128,
    },
    /// Combinations of the rows of its negated literals.
    Linear(Vec<Combination>),
    /// Unit propagation through clauses, in this order.
    Learned(Vec<usize>),
}

impl Origin {
    /// That of an instance for terms, whose clause needs the nodes of its places from the count on.
    pub fn of_instance(
        alloc: Global,
        instance: Instance,
        terms: &[usize],
        places: &[usize],
        count: usize,
    ) -> Result<Origin, AllocError> {
        let terms = Vec::from_slice(alloc, terms)?;
        match nodes_from(alloc, places, count) {
            Ok(needed) => Ok(Origin::Schema {
                instance,
                terms,
                needed,
            }),
            Err(error) => Err(error),
        }
    }

    /// That of a clause of one literal whose negation's row is false by itself.
    pub fn of_first_row(alloc: Global) -> Result<Origin, AllocError> {
        let members = vec![in alloc; Multiple { factor: 1, row: 0 }]?;
        let combination = Combination {
            divisor: 1,
            members,
        };
        Ok(Origin::Linear(vec![in alloc; combination]?))
    }
}

/// The nodes from this place on.
fn nodes_from(alloc: Global, places: &[usize], count: usize) -> Result<Vec<usize>, AllocError> {
    let mut nodes = Vec::new(alloc);
    for place in count..places.len() {
        nodes.push(places.get(place).copied().unwrap_or(0))?;
    }
    Ok(nodes)
}
