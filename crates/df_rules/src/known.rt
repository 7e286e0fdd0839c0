//! Literals that are taken to be true, and what is left of clauses beside them.

ghost use Rattle.std.specs.Prelude.{◌≡◌, false, ◌||◌, ◌∷◌, ◌++◌, [], List, OnOk, IfOk, map};
ghost use Rattle.df_form.specs.declared.log.Lit.{Lit};
ghost use Rattle.df_form.specs.Clause.{same_literal, negation};
ghost use Rattle.df_rules.specs.Propagation.{left, only, is_empty};
ghost use Rattle.df_rules.specs.Known.{knows, IsSetOf, left_by, counted};

use crate::literal::is_same;
use df_form::Lit;
use std::alloc::{AllocError, Global};
use std::collections::BTreeSet;

/// What is left of a clause whose false literals are taken away.
#[derive(Clone, Copy, PartialEq, Eq)]
enum Left {
    Nothing,
    /// One literal, however often it stands.
    One(Lit),
    Several,
}

/// A set of literals that are taken to be true.
#[derive(Drop)]
pub struct Known {
    /// Nodes that are true.
    yes: BTreeSet<usize>,
    /// Nodes that are false.
    no: BTreeSet<usize>,
}

impl Known {
    /// No literals.
    pub fn new(alloc: Global) -> Known
        ensures { (l : Lit) → knows result l ≡ false }
    {
        Known {
            yes: BTreeSet::new(alloc),
            no: BTreeSet::new(alloc),
        }
    }

    /// Whether the literal is among them.
    pub fn has(&self, literal: Lit) -> bool
        ensures { result ≡ knows self.now literal }
    {
        if literal.positive {
            self.yes.contains(&literal.node)
        } else {
            self.no.contains(&literal.node)
        }
    }

    /// One more literal.
    pub fn insert(&mut self, literal: Lit) -> Result<(), AllocError>
        ensures { OnOk result ((l : Lit) → knows self.new l ≡ (same_literal l literal || knows self.old l)) }
    {
        if literal.positive {
            self.yes.insert(literal.node)?;
        } else {
            self.no.insert(literal.node)?;
        }
        Ok(())
    }

    /// The negations of literals.
    pub fn of_negations(alloc: Global, literals: &[Lit]) -> Result<Known, AllocError>
        ensures { IfOk result (IsSetOf (map negation literals.now)) }
    {
        let mut known = Known::new(alloc);
        for literal in literals {
            known.insert(literal.negation())?;
        }
        Ok(known)
    }

    /// The one literal that is left of a clause.
    pub fn only_left(&self, clause: &[Lit]) -> Option<Lit>
        ensures { (literals : List Lit) → IsSetOf literals self.now → result ≡ only (left literals clause.now) }
    {
        match self.left_of(clause) {
            Left::One(literal) => Some(literal),
            Left::Nothing | Left::Several => None,
        }
    }

    /// Whether nothing is left of a clause.
    pub fn refutes(&self, clause: &[Lit]) -> bool
        ensures { (literals : List Lit) → IsSetOf literals self.now → result ≡ is_empty (left literals clause.now) }
    {
        match self.left_of(clause) {
            Left::Nothing => true,
            Left::One(_) | Left::Several => false,
        }
    }

    /// What is left of a clause.
    fn left_of(&self, clause: &[Lit]) -> Left
        ensures { result ≡ counted (left_by (knows self.now) clause.now) }
    {
        let mut left = Left::Nothing;
        for literal in clause {
            if !self.has(literal.negation()) {
                left = with_literal(left, *literal);
            }
        }
        left
    }
}

/// One more literal that is left.
fn with_literal(left: Left, literal: Lit) -> Left
    ensures { (literals : List Lit) → left ≡ counted literals → result ≡ counted (literals ++ literal ∷ []) }
{
    match left {
        Left::Nothing => Left::One(literal),
        Left::One(first) if is_same(first, literal) => left,
        Left::One(_) | Left::Several => Left::Several,
    }
}
