//! Closing classes under operations.

use crate::forest::{Cause, Merge};
use crate::graph::{Change, Event, Graph};
use df_form::Op;
use std::alloc::AllocError;

impl Graph {
    /// Looks terms up and merges classes until nothing follows, or two different numbers are equal. It takes at
    /// most so many steps.
    pub fn close(&mut self, fuel: usize) -> Result<(), AllocError> {
        for _ in 0..fuel {
            self.work = self.work.saturating_add(1);
            if let Some(pending) = self.pending.pop_front() {
                if self.merge(pending.item)? {
                    break;
                }
            } else if let Some(term) = self.waiting.pop() {
                self.trail.push(Change::Met(term))?;
                self.look_up(term)?;
            } else {
                break;
            }
        }
        Ok(())
    }

    /// Makes the classes of two terms one. Whether two numbers clash then.
    fn merge(&mut self, merge: Merge) -> Result<bool, AllocError> {
        let left = self.classes.label(merge.left);
        let right = self.classes.label(merge.right);
        if left == right {
            return Ok(false);
        }
        if let Cause::Congruence = merge.cause {
            self.report(Event::Congruent {
                left: merge.left,
                right: merge.right,
            })?;
        }
        if self.classes.size(left) <= self.classes.size(right) {
            self.join(merge, right, left)
        } else {
            let turned = Merge {
                left: merge.right,
                right: merge.left,
                cause: merge.cause,
            };
            self.join(turned, left, right)
        }
    }

    /// The class of the merge's left term goes into that of the right one. Whether two numbers clash then.
    fn join(&mut self, merge: Merge, winner: usize, loser: usize) -> Result<bool, AllocError> {
        let numbers = (self.classes.number(winner), self.classes.number(loser));
        self.forest.join(merge)?;
        let union = self.classes.unite(winner, loser);
        self.trail.push(Change::United(union))?;
        if let (Some(left), Some(right)) = numbers {
            self.report(Event::Clash { left, right })?;
            return Ok(true);
        }
        self.look_up_users(winner, loser)?;
        Ok(false)
    }

    /// Looks up what has a part that went with its class, the loser, into another.
    fn look_up_users(&mut self, winner: usize, loser: usize) -> Result<(), AllocError> {
        let mut term = self.classes.next(winner);
        for _ in 0..self.classes.size(loser) {
            for place in 0..self.user_count(term) {
                if let Some(user) = self.user(term, place) {
                    self.look_up(user)?;
                }
            }
            term = self.classes.next(term);
        }
        Ok(())
    }

    fn user_count(&self, term: usize) -> usize {
        match self.users.get(term) {
            Some(users) => users.len(),
            None => 0,
        }
    }

    fn user(&self, term: usize, place: usize) -> Option<usize> {
        self.users.get(term)?.get(place).copied()
    }

    /// Finds a term that is congruent to this one, or has this one be found.
    fn look_up(&mut self, term: usize) -> Result<(), AllocError> {
        self.work = self.work.saturating_add(1);
        let Some(signature) = self.signature(term) else {
            return Ok(());
        };
        if signature.op == Op::Equal {
            if self.is_true_equality(term) {
                self.report(Event::Equal(term))?;
            }
            return Ok(());
        }
        match self.signatures.term(&signature) {
            Some(other) if self.signature(other) == Some(signature) => {
                if !self.are_equal(term, other) {
                    self.defer(Merge {
                        left: term,
                        right: other,
                        cause: Cause::Congruence,
                    })?;
                }
            }
            _ => {
                let entry = self.signatures.enter(signature, term)?;
                self.trail.push(Change::Entered(entry))?;
            }
        }
        Ok(())
    }
}
