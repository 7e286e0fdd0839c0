//! Literals that are known so far, and what the clauses teach beside them.

ghost use Rattle.std.specs.Prelude.{◌≡◌, ◌++◌, ◌∷◌, ◌||◌, [], List, IfOk, OnOk, map};
ghost use Rattle.df_form.specs.declared.log.Lit.{Lit};
ghost use Rattle.df_form.specs.Clause.{same_literal, yes, no, is_among};
ghost use Rattle.df_rules.specs.Known.{knows, IsSetOf};
ghost use Rattle.df_closure.specs.Closure.{GroundClause as Ground, ground_of, counts_for};
ghost use Rattle.df_closure.specs.Closing.{teaching, IsClosing, Rounds};

use df_clause::GroundClause;
use df_form::{Formula, Lit};
use df_rules::Known;
use std::alloc::{AllocError, Global};

/// What a clause says beside the known literals.
#[derive(Clone, Copy, PartialEq, Eq)]
enum Teaching {
    Nothing,
    /// Its one literal that is not false, which was not known.
    Literal(Lit),
    /// All its literals are false.
    Refuted,
}

/// What one way through the clauses gave.
#[derive(Clone, Copy, PartialEq, Eq)]
pub(crate) enum Round {
    /// No clause teaches anything new.
    Settled,
    Grown,
    /// The clause of this number is false.
    Refuted(usize),
}

/// The known literals, and how they came.
#[derive(Drop)]
pub(crate) struct Closing {
    pub(crate) known: Known,
    /// What was learned, in this order.
    pub(crate) learned: Vec<Lit>,
    /// For each learned literal the number of its clause.
    pub(crate) reasons: Vec<usize>,
}

/// The set of the literals of a list.
pub fn known_of(alloc: Global, literals: &[Lit]) -> Result<Known, AllocError>
    ensures { IfOk result (IsSetOf literals.now) }
{
    let mut known = Known::new(alloc);
    for literal in literals {
        known.insert(*literal)?;
    }
    Ok(known)
}

impl Closing {
    /// The literals of a list, with nothing learned.
    #[tactic(auto, using(crate::proofs::Rounds::begun))]
    pub(crate) fn of(alloc: Global, literals: &[Lit]) -> Result<Closing, AllocError>
        ensures { IfOk result (λ closing. (clauses : List Ground) → IsClosing clauses literals.now closing) }
    {
        let known = known_of(alloc, literals)?;
        Ok(Closing {
            known,
            learned: Vec::new(alloc),
            reasons: Vec::new(alloc),
        })
    }

    /// Whether a clause that is bound to an equality counts.
    fn counts(&self, bound: Option<Formula>) -> bool
        ensures { (literals : List Lit) → IsSetOf literals self.now.known → result ≡ counts_for literals bound }
    {
        match bound {
            None => true,
            Some(node) => self.knows_of(node),
        }
    }

    fn knows_of(&self, node: Formula) -> bool
        ensures { (literals : List Lit) → IsSetOf literals self.now.known → result ≡ (is_among literals (yes node) || is_among literals (no node)) }
    {
        self.known.has(Lit {
            positive: true,
            node,
        }) || self.known.has(Lit {
            positive: false,
            node,
        })
    }

    /// What a clause teaches.
    fn teaching(&self, clause: &GroundClause) -> Teaching
        ensures { (literals : List Lit) → IsSetOf literals self.now.known → result ≡ teaching literals (ground_of clause.now) }
    {
        if !self.counts(clause.bound) {
            return Teaching::Nothing;
        }
        if self.known.refutes(&clause.literals) {
            return Teaching::Refuted;
        }
        match self.known.only_left(&clause.literals) {
            Some(literal) if !self.known.has(literal) => Teaching::Literal(literal),
            _ => Teaching::Nothing,
        }
    }

    /// One more literal, by the clause of this number.
    fn learn(&mut self, number: usize, literal: Lit) -> Result<(), AllocError>
        ensures known { OnOk result ((l : Lit) → knows self.new.known l ≡ (same_literal l literal || knows self.old.known l)) }
        ensures learned { OnOk result (self.new.learned.items ≡ self.old.learned.items ++ literal ∷ []) }
        ensures reasons { OnOk result (self.new.reasons.items ≡ self.old.reasons.items ++ number ∷ []) }
    {
        self.known.insert(literal)?;
        self.learned.push(literal)?;
        self.reasons.push(number)?;
        Ok(())
    }

    /// Goes through the clauses once.
    pub(crate) fn round(&mut self, clauses: &[GroundClause]) -> Result<Round, AllocError>
        ensures { IfOk result (Rounds (map ground_of clauses.now) self.old self.new) }
    {
        let mut grown = false;
        for (number, clause) in clauses.iter().enumerate() {
            match self.teaching(clause) {
                Teaching::Nothing => {}
                Teaching::Literal(literal) => {
                    self.learn(number, literal)?;
                    grown = true;
                }
                Teaching::Refuted => return Ok(Round::Refuted(number)),
            }
        }
        Ok(if grown { Round::Grown } else { Round::Settled })
    }
}
