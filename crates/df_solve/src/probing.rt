//! Bounds are tried out before the first decision: where a column cannot be past the weakest bound that
//! an atom gives, it has this bound from there on.

use crate::searching::{Search, Turn};
use df_clauses::{GROUND, Literal};
use df_simplex::Side;
use df_theory::{Meaning, Shape};
use std::alloc::AllocError;

/// How far a bound is followed that is tried out.
#[derive(Clone, Copy, PartialEq, Eq)]
pub(crate) enum Reach {
    /// Through clauses: this joins what the cases of a clause say of a number.
    Clauses,
    /// Through rows too, in so many rounds.
    Rows(usize),
    /// No bound is tried out any more.
    Nowhere,
}

/// How often all columns are gone through with rows.
const ROUNDS: usize = 3;

impl Reach {
    /// How far bounds are followed in the next round, after one that found something new or not.
    fn next(self, is_new: bool) -> Reach {
        match self {
            Reach::Clauses => Reach::Rows(ROUNDS),
            Reach::Rows(rounds) if is_new && rounds > 1 => Reach::Rows(rounds.saturating_sub(1)),
            Reach::Rows(_) | Reach::Nowhere => Reach::Nowhere,
        }
    }
}

impl<'a> Search<'a> {
    /// Tries bounds of all columns out, once.
    pub fn probe(&mut self) -> Result<Turn, AllocError> {
        let reach = self.reach;
        if reach == Reach::Clauses {
            self.reserve = self.state.fuel / 2;
            self.define_equalities()?;
        }
        let before = self.state.solver.trail.len();
        let turn = self.probe_all(reach)?;
        self.reach = reach.next(before < self.state.solver.trail.len());
        Ok(turn)
    }

    fn probe_all(&mut self, reach: Reach) -> Result<Turn, AllocError> {
        for column in 0..self.state.theory.forms.len() {
            if self.state.fuel < self.reserve {
                break;
            }
            let turn = self.probe_column(column, reach)?;
            if turn != Turn::On {
                return Ok(turn);
            }
        }
        Ok(Turn::On)
    }

    fn probe_column(&mut self, column: usize, reach: Reach) -> Result<Turn, AllocError> {
        for side in [Side::Lower, Side::Upper] {
            if let Some(literal) = self.weakest(column, side) {
                let turn = self.try_out(literal.negation(), reach)?;
                if turn != Turn::On {
                    return Ok(turn);
                }
            }
        }
        Ok(Turn::On)
    }

    /// Decides a literal, and takes that back; where there is a conflict its clause is learned.
    fn try_out(&mut self, literal: Literal, reach: Reach) -> Result<Turn, AllocError> {
        self.state.decide(literal)?;
        match self.follow(reach)? {
            None => {
                self.state.cancel(GROUND)?;
                Ok(Turn::On)
            }
            Some(clause) => self.learn_and_follow(clause, reach),
        }
    }

    /// Learns from a clause that is false, and from those that are false then, with the negated goal in force.
    fn learn_and_follow(&mut self, first: usize, reach: Reach) -> Result<Turn, AllocError> {
        let mut conflict = Some(first);
        for _ in 0..usize::MAX {
            let Some(clause) = conflict else {
                return Ok(Turn::On);
            };
            let turn = self.learn(clause)?;
            if turn != Turn::On {
                return Ok(turn);
            }
            conflict = self.follow_and_stand(reach)?;
        }
        Ok(Turn::GaveUp)
    }

    /// Propagates, after which the negated goal is in force. A clause that is false, if one is.
    fn follow_and_stand(&mut self, reach: Reach) -> Result<Option<usize>, AllocError> {
        let conflict = self.follow(reach)?;
        if conflict.is_some() || self.state.solver.trail.level() >= GROUND {
            return Ok(conflict);
        }
        let conflict = self.state.stand(self.goal)?;
        if conflict.is_some() {
            return Ok(conflict);
        }
        self.follow(reach)
    }

    /// Propagates as far as bounds are followed. A clause that is false, if one is.
    fn follow(&mut self, reach: Reach) -> Result<Option<usize>, AllocError> {
        match reach {
            Reach::Clauses => self.state.propagate_literals(),
            Reach::Rows(_) | Reach::Nowhere => self.state.propagate(),
        }
    }

    /// Has the comparisons stand that equalities without a value are of.
    fn define_equalities(&mut self) -> Result<(), AllocError> {
        for variable in 0..self.state.variables.len() {
            let Some(node) = self.state.variables.node(variable) else {
                break;
            };
            if let Shape::Equal(_, _) = self.state.terms.shape(node) {
                if self.state.solver.trail.assignment(variable).is_none() {
                    self.state.define(Literal {
                        variable,
                        positive: true,
                    })?;
                }
            }
        }
        Ok(())
    }

    /// The literal that gives a column its weakest bound on a side, of those without a value.
    fn weakest(&self, column: usize, side: Side) -> Option<Literal> {
        let mut weakest = None;
        let mut most = i128::MIN;
        for place in 0..self.state.theory.speaker_count(column) {
            let variable = self.state.theory.speaker(column, place)?;
            let Meaning::Atom(atom) = self.state.variables.meaning(variable) else {
                continue;
            };
            let positive = atom.side == side;
            let (_, constant) = atom.bound(positive);
            if most <= constant && self.state.solver.trail.assignment(variable).is_none() {
                weakest = Some(Literal { variable, positive });
                most = constant;
            }
        }
        weakest
    }
}
