//! The defining clauses of formulas: which there are, and what those of a connective of one or two parts say.

use crate::terms::Shape;

/// A defining clause of a connective of one or two parts: whether the node is true in it, and which parts are.
#[derive(Clone, Copy)]
pub struct Parts {
    pub positive: bool,
    pub first: (usize, bool),
    pub second: Option<(usize, bool)>,
}

/// That the node, or a part, is as said.
fn one(positive: bool, first: (usize, bool)) -> Parts {
    Parts {
        positive,
        first,
        second: None,
    }
}

/// That the node, or one of two parts, is as said.
fn two(positive: bool, first: (usize, bool), second: (usize, bool)) -> Parts {
    Parts {
        positive,
        first,
        second: Some(second),
    }
}

fn parts_of_not(p: usize, clause: usize) -> Parts {
    match clause {
        0 => one(false, (p, false)),
        _ => one(true, (p, true)),
    }
}

fn parts_of_implies(a: usize, b: usize, clause: usize) -> Parts {
    match clause {
        0 => two(false, (a, false), (b, true)),
        1 => one(true, (a, true)),
        _ => one(true, (b, false)),
    }
}

fn parts_of_iff(a: usize, b: usize, clause: usize) -> Parts {
    match clause {
        0 => two(false, (a, false), (b, true)),
        1 => two(false, (a, true), (b, false)),
        2 => two(true, (a, true), (b, true)),
        _ => two(true, (a, false), (b, false)),
    }
}

/// The defining clause of this number of a connective of one or two parts.
pub fn definition(shape: Shape, clause: usize) -> Option<Parts> {
    match shape {
        Shape::Not(p) => Some(parts_of_not(p, clause)),
        Shape::Implies(a, b) => Some(parts_of_implies(a, b, clause)),
        Shape::Iff(a, b) => Some(parts_of_iff(a, b, clause)),
        _ => None,
    }
}

/// Defining clauses by their numbers, from the first one up to the end.
#[derive(Clone, Copy)]
pub struct Clauses {
    pub first: usize,
    pub end: usize,
}

/// The defining clauses of a formula of so many parts for where it has a value.
pub fn definitions(shape: Shape, count: usize, positive: bool) -> Clauses {
    let (first, middle, end) = match shape {
        Shape::Not(_) => (0, 1, 2),
        Shape::And => (0, count, count.saturating_add(1)),
        Shape::Or => (0, 1, count.saturating_add(1)),
        Shape::Implies(..) => (0, 1, 3),
        Shape::Iff(..) => (0, 2, 4),
        Shape::Equal(..) => (0, 2, 3),
        Shape::Is { ends, .. } => (0, ends.count(), ends.count().saturating_add(1)),
        _ => (0, 0, 0),
    };
    if positive {
        Clauses { first, end: middle }
    } else {
        Clauses { first: middle, end }
    }
}
