//! Literals of the engine. Its variables stand for formulas.

use std::alloc::{AllocError, Global};

/// A variable or its negation.
#[derive(Clone, Copy, PartialEq, Eq)]
pub struct Literal {
    pub variable: usize,
    pub positive: bool,
}

impl Literal {
    /// The literal that is true where this one is false.
    pub fn negation(self) -> Literal {
        Literal {
            variable: self.variable,
            positive: !self.positive,
        }
    }

    /// Its number, where a variable's negation stands before it.
    pub fn code(self) -> usize {
        self.variable
            .saturating_mul(2)
            .saturating_add(usize::from(self.positive))
    }
}

/// The negations of literals, and what they come to.
pub fn negations(
    alloc: Global,
    literals: &[Literal],
    conclusion: Option<Literal>,
) -> Result<Vec<Literal>, AllocError> {
    let mut clause = Vec::with_capacity(alloc, literals.len())?;
    for literal in literals {
        clause.push(literal.negation())?;
    }
    if let Some(literal) = conclusion {
        clause.push(literal)?;
    }
    Ok(clause)
}

/// The literals, and one more.
pub fn with_last(
    alloc: Global,
    kept: &[Literal],
    last: Literal,
) -> Result<Vec<Literal>, AllocError> {
    let mut literals = Vec::from_slice(alloc, kept)?;
    literals.push(last)?;
    Ok(literals)
}
