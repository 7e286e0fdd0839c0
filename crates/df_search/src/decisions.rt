//! Decisions at a bound, and that two numbers are equal.

ghost use Rattle.std.specs.Prelude.{◌≡◌, ◌≤◌, ◌∷◌, [], suc, length, true, false, IfOk, OnOk, List};
ghost use Rattle.df_form.specs.Clause as clauses;
ghost use Rattle.df_form.specs.Clause.{Clause};
ghost use Rattle.df_form.specs.Made.{made};
ghost use Rattle.df_form.specs.Sequent.{Sequent as Claim};
ghost use Rattle.df_form.specs.Sorting.{is_well_sorted};
ghost use Rattle.df_form.specs.World.{World};
ghost use Rattle.df_rules.specs.Derivation.{is_foreign, is_number};
ghost use Rattle.df_logbuild.specs.Runs.{Runs};
ghost use Rattle.df_search.specs.Moves.{SplitsAt, IsBound, IsDefined, MakesEquality, Equates};

use crate::searching::State;
use df_clause::GroundClause;
use df_form::{Lit, Node, NodeTable, Op};
use df_logbuild::Derivation;
use std::alloc::{AllocError, Global};

fn yes(node: usize) -> Lit
    ensures { result ≡ clauses.yes node }
{
    Lit {
        positive: true,
        node,
    }
}

fn no(node: usize) -> Lit
    ensures { result ≡ clauses.no node }
{
    Lit {
        positive: false,
        node,
    }
}

/// The number of an operation on two nodes, which a line makes where it does not stand yet.
fn operation(
    alloc: Global,
    derivation: &mut Derivation,
    op: Op,
    left: usize,
    right: usize,
) -> Result<usize, AllocError>
    requires sorted { is_well_sorted derivation.old.nodes (record { op = op; parts = left ∷ right ∷ [] }) ≡ true }
    requires own { (world : World) → is_foreign world op ≡ false }
    ensures made { IfOk result (λ number. made derivation.old.nodes (record { op = op; parts = left ∷ right ∷ [] }) ≡ record { nodes = derivation.new.nodes; number = number }) }
    ensures runs { OnOk result ((s : Claim) (all : List Clause) → Runs s derivation.old all → Runs s derivation.new all) }
    ensures longer { length derivation.old.lines.items ≤ length derivation.new.lines.items }
{
    let parts = vec![in alloc; left, right]?;
    derivation.make(Node { op, parts })
}

impl<'a> State<'a> {
    /// Decides whether the number is at most the bound, or at least the next one: the side on which 0 is comes first.
    /// So a number is not divided further and further away from 0 before a branch is closed.
    pub(crate) fn split(&mut self, node: usize, bound: i128) -> Result<(), AllocError>
        requires { is_number self.old.derivation.nodes node ≡ true }
        ensures splits { OnOk result (SplitsAt self.old node bound self.new) }
        ensures log { length self.old.derivation.lines.items ≤ length self.new.derivation.lines.items }
        ensures trail { OnOk result (length self.new.trail.decisions.items ≡ suc (length self.old.trail.decisions.items)) }
        ensures closed { self.new.closed.items ≡ self.old.closed.items }
    {
        let place = self.derivation.make(Node {
            op: Op::Number(bound),
            parts: Vec::new(self.alloc),
        })?;
        let comparison = operation(self.alloc, &mut self.derivation, Op::AtMost, node, place)?;
        let side = Lit {
            positive: bound >= 0,
            node: comparison,
        };
        self.trail.decide(side)
    }

    /// Adds a clause that an equality means, bound to it.
    fn bind(&mut self, equality: usize, clause: usize, literals: Vec<Lit>) -> Result<(), AllocError>
        ensures binds { OnOk result (IsBound self.old equality clause literals.items self.new) }
        ensures trail { self.new.trail ≡ self.old.trail }
        ensures log { length self.old.derivation.lines.items ≤ length self.new.derivation.lines.items }
        ensures closed { self.new.closed.items ≡ self.old.closed.items }
    {
        let number = self.derivation.define(equality, clause)?;
        self.places.push(number)?;
        self.clauses.push(GroundClause {
            literals,
            bound: Some(equality),
        })?;
        Ok(())
    }

    /// Adds what an equality means: that it is the `and` of two comparisons.
    fn define(&mut self, equality: usize, up: usize, down: usize) -> Result<(), AllocError>
        ensures defines { OnOk result (IsDefined self.old equality up down self.new) }
        ensures trail { self.new.trail ≡ self.old.trail }
        ensures log { length self.old.derivation.lines.items ≤ length self.new.derivation.lines.items }
        ensures closed { self.new.closed.items ≡ self.old.closed.items }
    {
        let first = vec![in self.alloc; no(equality), yes(up)]?;
        self.bind(equality, 0, first)?;
        let second = vec![in self.alloc; no(equality), yes(down)]?;
        self.bind(equality, 1, second)?;
        let third = vec![in self.alloc; yes(equality), no(up), no(down)]?;
        self.bind(equality, 2, third)
    }

    /// The number of the equality, which is made with what it means where it does not stand yet.
    fn equality(&mut self, left: usize, right: usize) -> Result<usize, AllocError>
        requires left { is_number self.old.derivation.nodes left ≡ true }
        requires right { is_number self.old.derivation.nodes right ≡ true }
        ensures makes { IfOk result (MakesEquality self.old left right self.new) }
        ensures log { length self.old.derivation.lines.items ≤ length self.new.derivation.lines.items }
        ensures closed { self.new.closed.items ≡ self.old.closed.items }
        ensures trail { self.new.trail ≡ self.old.trail }
    {
        let up = operation(self.alloc, &mut self.derivation, Op::AtMost, left, right)?;
        let down = operation(self.alloc, &mut self.derivation, Op::AtMost, right, left)?;
        let before = self.derivation.nodes.len();
        let equality = operation(self.alloc, &mut self.derivation, Op::Equal, left, right)?;
        if self.derivation.nodes.len() > before {
            self.define(equality, up, down)?;
        }
        Ok(equality)
    }

    /// Decides that two numbers are equal.
    pub(crate) fn equate(&mut self, left: usize, right: usize) -> Result<(), AllocError>
        requires left { is_number self.old.derivation.nodes left ≡ true }
        requires right { is_number self.old.derivation.nodes right ≡ true }
        ensures equates { OnOk result (Equates self.old left right self.new) }
        ensures log { length self.old.derivation.lines.items ≤ length self.new.derivation.lines.items }
        ensures trail { OnOk result (length self.new.trail.decisions.items ≡ suc (length self.old.trail.decisions.items)) }
        ensures closed { self.new.closed.items ≡ self.old.closed.items }
    {
        let equality = self.equality(left, right)?;
        self.trail.decide(yes(equality))
    }
}
