//! Which bounds and which literals an explanation takes: of those that suffice the ones of the lowest
//! level, and of these the weakest.

use crate::explanation::{Row, Used};
use crate::theory::Theory;
use df_clauses::{Book, Literal, Origin, Reason, Trail};
use df_linear::{Meaning, Shape, Terms, Variables};
use df_simplex::{Cause, Side};
use std::alloc::Global;

/// What is true, as explanations see it.
#[derive(Clone, Copy)]
pub struct Facts<'a> {
    pub alloc: Global,
    pub terms: &'a Terms<'a>,
    pub variables: &'a Variables,
    pub theory: &'a Theory,
    pub trail: &'a Trail,
    pub book: &'a Book,
}

/// A true literal that gives a bound.
#[derive(Clone, Copy)]
pub(crate) struct Giver {
    pub used: Used,
    pub constant: i128,
    pub level: usize,
}

/// What gives a bound that suffices.
#[derive(Clone, Copy)]
pub(crate) enum Choice {
    Literal(Giver),
    Bound(usize),
}

/// Up to where bounds and literals may be used.
#[derive(Clone, Copy)]
pub(crate) struct Limits {
    /// The number of a bound.
    pub bound: usize,
    /// A place on the trail.
    pub place: usize,
}

/// Whether a literal is to be taken before another.
fn is_better(giver: &Giver, other: &Giver) -> bool {
    giver.level < other.level || (giver.level == other.level && other.constant <= giver.constant)
}

impl<'a> Facts<'a> {
    /// A literal that gives a column a bound that suffices: of the lowest level, and there the weakest.
    fn giver(&self, column: usize, side: Side, wanted: i128, place: usize) -> Option<Giver> {
        let mut best: Option<Giver> = None;
        for number in 0..self.theory.speaker_count(column) {
            let variable = self.theory.speaker(column, number)?;
            if let Some(giver) = self.giver_at(variable, side, wanted, place) {
                best = Some(match best {
                    Some(known) if is_better(&known, &giver) => known,
                    _ => giver,
                });
            }
        }
        best
    }

    /// The bound that a variable's literal gives, where it suffices.
    fn giver_at(&self, variable: usize, side: Side, wanted: i128, place: usize) -> Option<Giver> {
        let assignment = self.trail.assignment(variable)?;
        let Meaning::Atom(atom) = self.variables.meaning(variable) else {
            return None;
        };
        let (given, constant) = atom.bound(assignment.positive);
        if given != side || wanted < constant || place <= assignment.place {
            return None;
        }
        let literal = Literal {
            variable,
            positive: assignment.positive,
        };
        let used = Used {
            literal,
            row: Row::Only,
            divisor: atom.divisor,
        };
        Some(Giver {
            used,
            constant,
            level: assignment.level,
        })
    }

    /// The row of an equality in place of that of a comparison, where the lowest level has this by that.
    pub(crate) fn by_equality(&self, used: Used) -> Used {
        self.row_of_equality(used).unwrap_or(used)
    }

    fn row_of_equality(&self, used: Used) -> Option<Used> {
        let assignment = self.trail.assignment(used.literal.variable)?;
        let Reason::Clause(number) = assignment.reason else {
            return None;
        };
        let Origin::Connective { node, clause } = &self.book.clause(number)?.origin else {
            return None;
        };
        let literal = Literal {
            variable: self.variables.of_node(*node)?,
            positive: true,
        };
        if assignment.level > 0 || !self.is_true_equality(*node, literal) {
            return None;
        }
        Some(Used {
            literal,
            row: if *clause == 0 { Row::Up } else { Row::Down },
            divisor: used.divisor,
        })
    }

    /// Whether the literal is that of an equality, which the lowest level has.
    fn is_true_equality(&self, node: usize, literal: Literal) -> bool {
        let is_equality = matches!(self.terms.shape(node), Shape::Equal(..));
        match self.trail.assignment(literal.variable) {
            Some(assignment) => is_equality && assignment.positive && assignment.level == 0,
            None => false,
        }
    }

    /// What gives a bound that suffices.
    pub(crate) fn choice(&self, number: usize, wanted: i128, limits: Limits) -> Option<Choice> {
        let earliest = self.theory.bounds.earliest(number, wanted);
        let bound = self.theory.bounds.get(earliest)?;
        if 0 < bound.level {
            if let Some(giver) = self.giver(bound.column, bound.side, wanted, limits.place) {
                if giver.level <= bound.level {
                    return Some(Choice::Literal(giver));
                }
            }
        }
        match bound.cause {
            Cause::Row(_) => Some(Choice::Bound(earliest)),
            Cause::Literal(literal) => {
                let giver = self.giver_at(literal.variable, bound.side, wanted, limits.place)?;
                Some(Choice::Literal(giver))
            }
        }
    }
}
