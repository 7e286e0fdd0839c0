//! Clauses, with what derives each.

use crate::literal::Literal;
use crate::origin::Origin;
use df_form::Combination;
use std::alloc::{AllocError, Global};

/// A clause. Propagation watches its first two literals, and may move them.
#[derive(Drop)]
pub struct Clause {
    pub literals: Vec<Literal>,
    pub origin: Origin,
}

/// The clauses by their numbers, and for each literal those that watch it.
#[derive(Drop)]
pub struct Book {
    alloc: Global,
    clauses: Vec<Clause>,
    /// By the codes of literals.
    watchers: Vec<Vec<usize>>,
    room: usize,
}

/// How much all clauses and what derives them may take, in numbers.
const ROOM: usize = 4_000_000;

/// What a clause without literals takes.
const FRAME: usize = 4;

fn size_of_combinations(combinations: &[Combination]) -> usize {
    let mut size = 0usize;
    for combination in combinations {
        size = size
            .saturating_add(FRAME)
            .saturating_add(combination.members.len());
    }
    size
}

impl Origin {
    fn size(&self) -> usize {
        match self {
            Origin::Linear(combinations) => size_of_combinations(combinations),
            Origin::Learned(antecedents) => antecedents.len(),
            Origin::Schema { terms, needed, .. } => terms.len().saturating_add(needed.len()),
            Origin::Congruence(pairs) => pairs.len().saturating_mul(2),
            Origin::Hypothesis(_)
            | Origin::Goal
            | Origin::Connective { .. }
            | Origin::Type { .. }
            | Origin::Split { .. } => 0,
        }
    }
}

impl Book {
    pub fn new(alloc: Global) -> Book {
        Book {
            alloc,
            clauses: Vec::new(alloc),
            watchers: Vec::new(alloc),
            room: ROOM,
        }
    }

    /// One more variable.
    pub fn add_variable(&mut self) -> Result<(), AllocError> {
        self.watchers.push(Vec::new(self.alloc))?;
        self.watchers.push(Vec::new(self.alloc))?;
        Ok(())
    }

    pub fn len(&self) -> usize {
        self.clauses.len()
    }

    pub fn clause(&self, number: usize) -> Option<&Clause> {
        self.clauses.get(number)
    }

    /// Adds a clause, which nothing watches yet.
    pub fn add(&mut self, literals: Vec<Literal>, origin: Origin) -> Result<usize, AllocError> {
        let number = self.clauses.len();
        let size = literals.len().saturating_add(origin.size());
        self.room = self.room.saturating_sub(size.saturating_add(FRAME));
        self.clauses.push(Clause { literals, origin })?;
        Ok(number)
    }

    /// Whether the clauses take all that they may.
    pub fn is_full(&self) -> bool {
        self.room == 0
    }

    /// Whether they take half of that.
    pub fn is_half_full(&self) -> bool {
        self.room < ROOM / 2
    }

    /// How many literals a clause has.
    pub fn width(&self, number: usize) -> usize {
        match self.clauses.get(number) {
            Some(clause) => clause.literals.len(),
            None => 0,
        }
    }

    /// A literal of a clause by its place.
    pub fn literal(&self, number: usize, place: usize) -> Option<Literal> {
        self.clauses.get(number)?.literals.get(place).copied()
    }

    fn set_literal(&mut self, number: usize, place: usize, literal: Literal) {
        if let Some(clause) = self.clauses.get_mut(number) {
            if let Some(slot) = clause.literals.get_mut(place) {
                *slot = literal;
            }
        }
    }

    /// Exchanges two literals of a clause.
    pub fn exchange(&mut self, number: usize, place: usize, other: usize) {
        let (Some(a), Some(b)) = (self.literal(number, place), self.literal(number, other)) else {
            return;
        };
        self.set_literal(number, place, b);
        self.set_literal(number, other, a);
    }

    /// How many clauses watch the literal.
    pub fn watcher_count(&self, literal: Literal) -> usize {
        match self.watchers.get(literal.code()) {
            Some(watchers) => watchers.len(),
            None => 0,
        }
    }

    pub fn watcher(&self, literal: Literal, place: usize) -> Option<usize> {
        self.watchers.get(literal.code())?.get(place).copied()
    }

    pub fn set_watcher(&mut self, literal: Literal, place: usize, clause: usize) {
        if let Some(watchers) = self.watchers.get_mut(literal.code()) {
            if let Some(slot) = watchers.get_mut(place) {
                *slot = clause;
            }
        }
    }

    /// Only the first watchers go on watching.
    pub fn keep_watchers(&mut self, literal: Literal, count: usize) {
        if let Some(watchers) = self.watchers.get_mut(literal.code()) {
            watchers.truncate(count);
        }
    }

    /// The clause watches the literal.
    pub fn watch(&mut self, literal: Literal, clause: usize) -> Result<(), AllocError> {
        if let Some(watchers) = self.watchers.get_mut(literal.code()) {
            watchers.push(clause)?;
        }
        Ok(())
    }
}
