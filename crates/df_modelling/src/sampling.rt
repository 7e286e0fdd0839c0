//! Small numbers tried out, where nothing else came to an end: free terms get them by a fixed sequence, and the
//! nodes what these give.

use crate::modelling::counterexample_of;
use df_form::{Free, Front, Lit, NodeTable, Op, Sequent, Sort};
use df_rules::Known;
use df_table::Table;
use std::alloc::{AllocError, Global};

/// How many numbers of nodes may be computed.
const WORK: usize = 1_000_000;

/// How many times numbers are taken within a distance of 0, before they are taken within the next one.
const TRIES: u64 = 200;

/// A sequence of numbers that look random.
#[derive(Clone, Copy)]
struct Sequence {
    state: u64,
}

impl Sequence {
    /// The next number, below a limit.
    fn below(&mut self, limit: u64) -> u64 {
        let product = self.state.wrapping_mul(6364136223846793005);
        self.state = product.wrapping_add(1442695040888963407);
        (self.state >> 33).checked_rem(limit).unwrap_or(0)
    }

    /// The next number, at most so far from 0.
    fn within(&mut self, distance: u64) -> i128 {
        let width = distance.saturating_mul(2).saturating_add(1);
        i128::from(self.below(width)).saturating_sub(i128::from(distance))
    }
}

/// A free term.
#[derive(Clone, Copy)]
struct Place {
    node: usize,
    sort: Sort,
}

/// What free terms are in one try.
#[derive(Drop)]
struct Sample {
    /// By node.
    numbers: Vec<i128>,
    known: Known,
}

/// The free terms among the nodes.
fn places(alloc: Global, nodes: &Front) -> Result<Vec<Place>, AllocError> {
    let mut places = Vec::new(alloc);
    for node in 0..nodes.len() {
        if let Some(found) = nodes.get(node) {
            if let Op::Free(Free { sort, .. }) = found.op {
                places.push(Place { node, sort })?;
            }
        }
    }
    Ok(places)
}

/// The next try.
fn next_sample(
    alloc: Global,
    places: &[Place],
    size: usize,
    sequence: &mut Sequence,
    distance: u64,
) -> Result<Sample, AllocError> {
    let mut numbers = vec![in alloc; 0i128; size]?;
    let mut known = Known::new(alloc);
    for place in places {
        let number = match place.sort {
            Sort::Number => sequence.within(distance),
            Sort::Character => i128::from(sequence.below(128)),
            Sort::Truth => i128::from(sequence.below(2)),
        };
        if place.sort == Sort::Truth {
            known.insert(Lit {
                positive: number == 1,
                node: place.node,
            })?;
        } else if let Some(slot) = numbers.get_mut(place.node) {
            *slot = number;
        }
    }
    Ok(Sample { numbers, known })
}

/// The table of small numbers by which the hypotheses are true and the goal is false, if one is found.
pub fn sampled(alloc: Global, sequent: &Sequent, rounds: u32) -> Result<Option<Table>, AllocError> {
    let size = sequent.nodes.len();
    let places = places(alloc, &sequent.nodes)?;
    let mut sequence = Sequence { state: 1 };
    let mut distance = 1u64;
    let mut left = TRIES;
    for _ in 0..WORK.checked_div(size.saturating_add(1)).unwrap_or(0) {
        let sample = next_sample(alloc, &places, size, &mut sequence, distance)?;
        let found = counterexample_of(alloc, sequent, rounds, &sample.numbers, &sample.known)?;
        if found.is_some() {
            return Ok(found);
        }
        left = left.saturating_sub(1);
        if left == 0 {
            left = TRIES;
            distance = distance.saturating_add(1);
        }
    }
    Ok(None)
}
