//! The ends of types.

use df_form::{Front, NodeTable, Op, Symbol, World};
use df_lang::Ty;

/// The ends of the numbers that are values of a type, where it has any: an end on one side, on both, or on
/// none. A type of other values has none.
#[derive(Clone, Copy)]
pub struct Ends {
    pub low: Option<i128>,
    pub high: Option<i128>,
}

impl Ends {
    /// How many there are. So many clauses say that a value of the type is within one of them, and one
    /// more that what is within all of them is a value.
    pub fn count(&self) -> usize {
        match (self.low, self.high) {
            (None, None) => 0,
            (Some(_), None) | (None, Some(_)) => 1,
            (Some(_), Some(_)) => 2,
        }
    }

    /// The low end, if the clause of this number speaks of it.
    pub fn low_in(&self, clause: usize) -> Option<i128> {
        if clause == 0 || clause >= self.count() {
            self.low
        } else {
            None
        }
    }

    /// The high end, if the clause of this number speaks of it.
    pub fn high_in(&self, clause: usize) -> Option<i128> {
        if clause.saturating_add(1) >= self.count() {
            self.high
        } else {
            None
        }
    }
}

/// The ends of a type, if it is no newtype that is not declared.
fn ends_of(world: World, ty: Ty) -> Option<Ends> {
    match ty {
        Ty::Newtype(number) => {
            let interval = world.interval(number)?;
            Some(Ends {
                low: Some(interval.low),
                high: Some(interval.high),
            })
        }
        Ty::Nat => Some(Ends {
            low: Some(0),
            high: None,
        }),
        Ty::Int | Ty::Bool | Ty::Char => Some(Ends {
            low: None,
            high: None,
        }),
    }
}

/// The ends of the type for which the node of a number tests, where it does.
pub(crate) fn ends_at(world: World, nodes: &Front, number: usize) -> Option<Ends> {
    match nodes.get(number)?.op {
        Op::Of(Symbol::Is, payload) => ends_of(world, payload.ty()),
        _ => None,
    }
}
