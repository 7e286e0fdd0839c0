//! Classes of terms by their labels. The terms of a class are a ring.

use std::alloc::{AllocError, Global};

/// A class that went into another.
#[derive(Clone, Copy)]
pub(crate) struct Union {
    pub winner: usize,
    pub loser: usize,
    /// The literal of the winner before.
    pub number: Option<usize>,
}

/// A label for each term, that of its class.
#[derive(Drop)]
pub(crate) struct Classes {
    labels: Vec<usize>,
    /// The next term of the ring.
    next: Vec<usize>,
    /// How many terms a class has, by its label.
    sizes: Vec<usize>,
    /// A term of a class that is the literal of a number, by its label.
    numbers: Vec<Option<usize>>,
}

impl Classes {
    pub fn new(alloc: Global) -> Classes {
        Classes {
            labels: Vec::new(alloc),
            next: Vec::new(alloc),
            sizes: Vec::new(alloc),
            numbers: Vec::new(alloc),
        }
    }

    /// One more term, alone in its class.
    pub fn add(&mut self) -> Result<(), AllocError> {
        let term = self.labels.len();
        self.labels.push(term)?;
        self.next.push(term)?;
        self.sizes.push(1)?;
        self.numbers.push(None)?;
        Ok(())
    }

    /// The term, which is alone in its class, is the literal of a number.
    pub fn name(&mut self, term: usize) {
        self.set_number(self.label(term), Some(term));
    }

    /// The label of a term; its own number where it is none.
    pub fn label(&self, term: usize) -> usize {
        match self.labels.get(term) {
            Some(label) => *label,
            None => term,
        }
    }

    pub fn labels(&self) -> &[usize] {
        self.labels.as_slice()
    }

    /// The next term of the class, after which all others come before this one.
    pub fn next(&self, term: usize) -> usize {
        match self.next.get(term) {
            Some(next) => *next,
            None => term,
        }
    }

    pub fn size(&self, label: usize) -> usize {
        match self.sizes.get(label) {
            Some(size) => *size,
            None => 0,
        }
    }

    pub fn number(&self, label: usize) -> Option<usize> {
        match self.numbers.get(label) {
            Some(number) => *number,
            None => None,
        }
    }

    fn set_number(&mut self, label: usize, number: Option<usize>) {
        if let Some(slot) = self.numbers.get_mut(label) {
            *slot = number;
        }
    }

    fn set_label(&mut self, term: usize, label: usize) {
        if let Some(slot) = self.labels.get_mut(term) {
            *slot = label;
        }
    }

    fn set_next(&mut self, term: usize, next: usize) {
        if let Some(slot) = self.next.get_mut(term) {
            *slot = next;
        }
    }

    fn set_size(&mut self, label: usize, size: usize) {
        if let Some(slot) = self.sizes.get_mut(label) {
            *slot = size;
        }
    }

    /// Gives all terms of a ring a label.
    fn relabel(&mut self, first: usize, label: usize) {
        let mut term = first;
        for _ in 0..self.size(first) {
            self.set_label(term, label);
            term = self.next(term);
        }
    }

    /// Makes two rings one, or one ring two.
    fn exchange(&mut self, one: usize, other: usize) {
        let after = self.next(one);
        let next = self.next(other);
        self.set_next(one, next);
        self.set_next(other, after);
    }

    /// The terms of a class go into another.
    pub fn unite(&mut self, winner: usize, loser: usize) -> Union {
        let number = self.number(winner);
        self.relabel(loser, winner);
        self.exchange(winner, loser);
        self.set_size(winner, self.size(winner).saturating_add(self.size(loser)));
        if number.is_none() {
            self.set_number(winner, self.number(loser));
        }
        Union {
            winner,
            loser,
            number,
        }
    }

    /// Takes a union back, the last one.
    pub fn divide(&mut self, union: Union) {
        self.exchange(union.winner, union.loser);
        self.relabel(union.loser, union.loser);
        self.set_size(
            union.winner,
            self.size(union.winner)
                .saturating_sub(self.size(union.loser)),
        );
        self.set_number(union.winner, union.number);
    }
}
