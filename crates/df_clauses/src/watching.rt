//! Clauses that watch two of their literals each, and what they do where one of these becomes false.

use crate::book::Book;
use crate::literal::Literal;
use crate::order::Order;
use crate::origin::Origin;
use crate::trail::{Reason, Trail};
use std::alloc::{AllocError, Global};

/// Clauses, and what is true.
#[derive(Drop)]
pub struct Solver {
    pub book: Book,
    pub trail: Trail,
    pub order: Order,
    /// By variable, whether an analysis has met it.
    pub(crate) marks: Vec<bool>,
}

/// What a clause does where a literal that it watches became false.
#[derive(Clone, Copy, PartialEq, Eq)]
enum Visit {
    /// It goes on watching.
    Kept,
    /// It watches another literal.
    Moved,
    /// It is false.
    False,
}

impl Solver {
    pub fn new(alloc: Global) -> Solver {
        Solver {
            book: Book::new(alloc),
            trail: Trail::new(alloc),
            order: Order::new(alloc),
            marks: Vec::new(alloc),
        }
    }

    /// One more variable.
    pub fn add_variable(&mut self) -> Result<(), AllocError> {
        self.book.add_variable()?;
        self.trail.add_variable()?;
        self.order.add_variable(false)?;
        self.marks.push(false)?;
        Ok(())
    }

    /// Adds a clause. Its number, where it is false.
    pub fn add_clause(
        &mut self,
        literals: Vec<Literal>,
        origin: Origin,
    ) -> Result<Option<usize>, AllocError> {
        let width = literals.len();
        let clause = self.book.add(literals, origin)?;
        for place in [0, 1] {
            let best = self.best_watch(clause, place, width);
            self.book.exchange(clause, place, best);
            if let Some(literal) = self.book.literal(clause, place) {
                self.book.watch(literal, clause)?;
            }
        }
        self.begin_clause(clause)
    }

    /// The place, from one on, of a literal that is not false, or else became so last.
    fn best_watch(&self, clause: usize, from: usize, width: usize) -> usize {
        let mut best = from;
        let mut level = 0;
        for place in from..width {
            let Some(literal) = self.book.literal(clause, place) else {
                break;
            };
            let other = self.trail.false_level(literal);
            if level < other {
                best = place;
                level = other;
            }
        }
        best
    }

    /// Has a new clause give its first literal, where the others are false.
    fn begin_clause(&mut self, clause: usize) -> Result<Option<usize>, AllocError> {
        let Some(first) = self.book.literal(clause, 0) else {
            return Ok(Some(clause));
        };
        if self.trail.is_false(first) {
            return Ok(Some(clause));
        }
        let is_unit = match self.book.literal(clause, 1) {
            Some(second) => self.trail.is_false(second),
            None => true,
        };
        if is_unit && self.trail.value(first).is_none() {
            self.trail.assign(first, Reason::Clause(clause))?;
        }
        Ok(None)
    }

    /// Has the clauses that watch a literal watch others, now that it is false. A clause that is false,
    /// if one is.
    pub fn visit_watchers(&mut self, falsified: Literal) -> Result<Option<usize>, AllocError> {
        let mut kept = 0usize;
        let mut conflict = None;
        for place in 0..self.book.watcher_count(falsified) {
            let Some(clause) = self.book.watcher(falsified, place) else {
                break;
            };
            let visit = if conflict.is_none() {
                self.visit(clause, falsified)?
            } else {
                Visit::Kept
            };
            if visit == Visit::False {
                conflict = Some(clause);
            }
            if visit != Visit::Moved {
                self.book.set_watcher(falsified, kept, clause);
                kept = kept.saturating_add(1);
            }
        }
        self.book.keep_watchers(falsified, kept);
        Ok(conflict)
    }

    fn visit(&mut self, clause: usize, falsified: Literal) -> Result<Visit, AllocError> {
        if self.book.literal(clause, 0) == Some(falsified) {
            self.book.exchange(clause, 0, 1);
        }
        let Some(first) = self.book.literal(clause, 0) else {
            return Ok(Visit::False);
        };
        if self.trail.is_true(first) {
            return Ok(Visit::Kept);
        }
        if let Some(place) = self.other_watch(clause) {
            self.book.exchange(clause, 1, place);
            if let Some(literal) = self.book.literal(clause, 1) {
                self.book.watch(literal, clause)?;
            }
            return Ok(Visit::Moved);
        }
        if self.trail.is_false(first) {
            return Ok(Visit::False);
        }
        self.trail.assign(first, Reason::Clause(clause))?;
        Ok(Visit::Kept)
    }

    /// The place of a literal that is not false, but for the first two.
    fn other_watch(&self, clause: usize) -> Option<usize> {
        for place in 2..self.book.width(clause) {
            if !self.trail.is_false(self.book.literal(clause, place)?) {
                return Some(place);
            }
        }
        None
    }

    /// Takes the levels after this one back.
    pub fn cancel(&mut self, level: usize) -> Result<(), AllocError> {
        let end = self.trail.end_of(level);
        for _ in end..self.trail.len() {
            if let Some(literal) = self.trail.retract() {
                self.order.release(literal)?;
            }
        }
        self.trail.close(level);
        Ok(())
    }
}
