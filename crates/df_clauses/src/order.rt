//! In which order variables are decided: by how much they took part in conflicts, and how recently.

use crate::literal::Literal;
use std::alloc::{AllocError, Global};
use std::collections::BinaryHeap;

/// A variable by its activity; of equal ones the earlier is greater.
#[derive(Clone, Copy, PartialEq, Eq, PartialOrd, Ord)]
struct Candidate {
    activity: u64,
    /// The variable counted down from the highest number.
    rank: usize,
}

/// From this activity on all are scaled down.
const HIGH: u64 = 1 << 50;

/// By how many bits.
const SCALE: u32 = 40;

/// Variables by activity, and the values that they had last.
#[derive(Drop)]
pub struct Order {
    alloc: Global,
    activities: Vec<u64>,
    /// What a variable is decided to be.
    phases: Vec<bool>,
    /// Each variable without a value is among them; others may be.
    heap: BinaryHeap<Candidate>,
    increment: u64,
}

impl Order {
    pub fn new(alloc: Global) -> Order {
        Order {
            alloc,
            activities: Vec::new(alloc),
            phases: Vec::new(alloc),
            heap: BinaryHeap::new(alloc),
            increment: 16,
        }
    }

    /// One more variable.
    pub fn add_variable(&mut self, phase: bool) -> Result<(), AllocError> {
        let variable = self.activities.len();
        self.activities.push(0)?;
        self.phases.push(phase)?;
        self.offer(variable)
    }

    fn activity(&self, variable: usize) -> u64 {
        match self.activities.get(variable) {
            Some(activity) => *activity,
            None => 0,
        }
    }

    /// The variable may be decided.
    fn offer(&mut self, variable: usize) -> Result<(), AllocError> {
        let candidate = Candidate {
            activity: self.activity(variable),
            rank: usize::MAX.saturating_sub(variable),
        };
        self.heap.push(candidate)?;
        Ok(())
    }

    /// A literal lost its value.
    pub fn release(&mut self, literal: Literal) -> Result<(), AllocError> {
        if let Some(phase) = self.phases.get_mut(literal.variable) {
            *phase = literal.positive;
        }
        if self.heap.len() / 8 > self.activities.len().saturating_add(128) {
            self.rebuild()?;
        }
        self.offer(literal.variable)
    }

    /// Offers each variable once.
    fn rebuild(&mut self) -> Result<(), AllocError> {
        self.heap = BinaryHeap::new(self.alloc);
        for variable in 0..self.activities.len() {
            self.offer(variable)?;
        }
        Ok(())
    }

    /// The variable of highest activity that was offered.
    pub fn next(&mut self) -> Option<usize> {
        let candidate = self.heap.pop()?;
        Some(usize::MAX.saturating_sub(candidate.rank))
    }

    /// The value that the variable had last.
    pub fn phase(&self, variable: usize) -> bool {
        match self.phases.get(variable) {
            Some(phase) => *phase,
            None => false,
        }
    }

    /// The variable took part in a conflict.
    pub fn bump(&mut self, variable: usize) {
        let increment = self.increment;
        if let Some(activity) = self.activities.get_mut(variable) {
            *activity = activity.saturating_add(increment);
        }
    }

    /// Later conflicts count more.
    pub fn decay(&mut self) -> Result<(), AllocError> {
        self.increment = self.increment.saturating_add(self.increment / 16);
        if self.increment > HIGH {
            self.increment = (self.increment >> SCALE).max(16);
            for activity in self.activities.iter_mut() {
                *activity >>= SCALE;
            }
            self.rebuild()?;
        }
        Ok(())
    }
}
