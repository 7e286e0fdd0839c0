//! The lines of proof logs. Each adds one clause, numbered from 0, but for the line that makes a node.

ghost use Rattle.std.specs.Prelude.{◌≡◌};
ghost use Rattle.df_form.specs.Clause.{negation as negation_of};

use crate::node::{Formula, Node, Term};

/// A literal: a formula by the number of its node, or its negation.
#[derive(Clone, Copy, PartialEq, Eq, Hash)]
pub struct Lit {
    pub positive: bool,
    pub node: Formula,
}

impl Lit {
    /// The literal that is true where this one is false.
    pub fn negation(self) -> Lit
        ensures { result ≡ negation_of self }
    {
        Lit {
            positive: !self.positive,
            node: self.node,
        }
    }
}

/// A row taken some times.
#[derive(Clone, Copy, PartialEq, Eq)]
pub struct Multiple {
    pub factor: i128,
    pub row: usize,
}

/// A sum of rows, divided.
#[derive(Drop)]
pub struct Combination {
    pub divisor: i128,
    pub members: Vec<Multiple>,
}

/// Two terms by the numbers of their nodes, as of an equality.
#[derive(Clone, Copy, PartialEq, Eq)]
pub struct Pair {
    pub left: Term,
    pub right: Term,
}

/// A line of a log.
#[derive(Drop)]
pub enum Step {
    /// `h I`: the hypothesis of this number, from 0.
    Hypothesis(usize),
    /// `g`: the negated goal.
    Goal,
    /// `x N K`: a defining clause of a connective.
    Connective {
        node: usize,
        clause: usize,
    },
    /// `a S K T..`: a clause of a schema for the nodes that its pattern matches.
    Schema {
        schema: u8,
        clause: u32,
        terms: Vec<Term>,
    },
    /// `u C.. : L..`: a clause that follows from named ones by unit propagation.
    Propagation {
        clauses: Vec<usize>,
        conclusion: Vec<Lit>,
    },
    /// `e L.. : N M ..`: a clause whose negation is refuted by congruence: its equalities, and then in
    /// turn each pair of one operation on arguments that are equal by those before it.
    Congruence {
        conclusion: Vec<Lit>,
        pairs: Vec<Pair>,
    },
    /// `l L.. : R..`: a clause whose negation is refuted by linear arithmetic.
    Linear {
        conclusion: Vec<Lit>,
        combinations: Vec<Combination>,
    },
    /// `s N K`: a number is at most a bound, or at least the next number.
    Split {
        node: usize,
        bound: i128,
    },
    /// `n OP A..`: makes a node.
    Make(Node),
}
