//! Sequents that are being built.

ghost use Rattle.std.specs.Prelude.{◌≡◌, ℕ, Bool, true, List, ◌++◌, length, nat_lt};
ghost use Rattle.std.specs.List.{list_all};
ghost use Rattle.df_form.specs.Sorting.{IsTable, is_formula};
ghost use Rattle.df_form.specs.Sequent.{Walk};

use crate::arena::Arena;
use crate::formulas::Formulas;
use crate::front::Front;
use crate::node::{Formula, Op, Term};
use crate::nodes::Nodes;
use crate::sequent::Sequent;
use crate::world::World;
use std::alloc::{AllocError, Global};

/// A sequent that is being built. Terms are put on a stack, and an operation takes those on top as its
/// parts.
#[derive(Drop)]
pub struct Draft<'a> {
    pub world: World<'a>,
    /// The nodes so far, in postorder of first occurrence.
    pub nodes: Nodes,
    pub hypotheses: Vec<Formula>,
    /// The terms that wait for an operation, by the numbers of their nodes. The last is on top.
    pub stack: Vec<Term>,
    pub ghost table: { IsTable nodes },
    pub ghost formulas: { list_all (is_formula nodes) hypotheses.items ≡ true },
    pub ghost known: { list_all (λ n. nat_lt n (length nodes)) stack.items ≡ true },
    pub ghost walked: { ∥ Walk nodes 0 (hypotheses.items ++ stack.items) (length nodes) ∥₁ },
}

impl<'a> Draft<'a> {
    ghost use Rattle.std.specs.Prelude.{[], ◌∷◌, ◌<◌, ◌≤◌, OnOk, OnErr, IfOk, map, take, slice_index};
    ghost use Rattle.df_form.specs.Sorting.{takes, sort_at, sort_of};
    ghost use Rattle.df_form.specs.Made.{made};
    ghost use Rattle.df_form.specs.Draft.{last_terms, other_terms, node_on};

    /// Nothing yet.
    pub fn new(alloc: Global, world: World<'a>) -> Draft<'a>
        ensures world { result.world ≡ world.entry }
        ensures nodes { result.nodes ≡ [] }
        ensures hypotheses { result.hypotheses.items ≡ [] }
        ensures stack { result.stack.items ≡ [] }
    {
        Draft {
            world,
            nodes: Nodes::new(alloc),
            hypotheses: Vec::new(alloc),
            stack: Vec::new(alloc),
        }
    }

    /// Takes so many terms from the top of the stack, and puts the operation on them there. The lowest
    /// is its first part. It fails for want of memory, and then changes nothing.
    pub fn apply(&mut self, op: Op, count: usize) -> Result<(), AllocError>
        requires enough { count ≤ length self.old.stack.items }
        requires takes { takes op (map (sort_at self.old.nodes) (last_terms count self.old.stack.items)) ≡ true }
        ensures nodes { OnOk result (self.new.nodes ≡ (made self.old.nodes (node_on op count self.old.stack.items)).nodes) }
        ensures stack { OnOk result (self.new.stack.items ≡ other_terms count self.old.stack.items ++ (made self.old.nodes (node_on op count self.old.stack.items)).number ∷ []) }
        ensures sorts { OnOk result (map (sort_at self.new.nodes) self.new.stack.items ≡ map (sort_at self.old.nodes) (other_terms count self.old.stack.items) ++ sort_of op ∷ []) }
        ensures err { OnErr result ((self.new.nodes ≡ self.old.nodes) × (self.new.stack.items ≡ self.old.stack.items)) }
        ensures hypotheses { self.new.hypotheses.items ≡ self.old.hypotheses.items }
        ensures world { self.new.world ≡ self.old.world }
    {
        let start = self.stack.len() - count;
        // With this room the last push cannot fail: the node would stand already.
        self.stack.reserve(1)?;
        let number = self.nodes.add(op, &self.stack[start..])?;
        self.stack.truncate(start);
        self.stack.push(number)?;
        Ok(())
    }

    /// Puts a term that stands already on the stack. It fails for want of memory, and then changes
    /// nothing.
    pub fn again(&mut self, term: Term) -> Result<(), AllocError>
        requires { term < length self.old.nodes }
        ensures stack { OnOk result (self.new.stack.items ≡ self.old.stack.items ++ term ∷ []) }
        ensures err { OnErr result (self.new.stack.items ≡ self.old.stack.items) }
        ensures nodes { self.new.nodes ≡ self.old.nodes }
        ensures hypotheses { self.new.hypotheses.items ≡ self.old.hypotheses.items }
        ensures world { self.new.world ≡ self.old.world }
    {
        self.stack.push(term)?;
        Ok(())
    }

    /// Puts terms that stand already on the stack, and the operation on all that is there then. It fails
    /// for want of memory, and then changes nothing.
    pub fn apply_all(&mut self, op: Op, more: &[Term]) -> Result<(), AllocError>
        requires known { list_all (λ n. nat_lt n (length self.old.nodes)) more.now ≡ true }
        requires takes { takes op (map (sort_at self.old.nodes) (self.old.stack.items ++ more.now)) ≡ true }
        ensures nodes { OnOk result (self.new.nodes ≡ (made self.old.nodes (record { op = op; parts = self.old.stack.items ++ more.now })).nodes) }
        ensures stack { OnOk result (self.new.stack.items ≡ (made self.old.nodes (record { op = op; parts = self.old.stack.items ++ more.now })).number ∷ []) }
        ensures err { OnErr result ((self.new.nodes ≡ self.old.nodes) × (self.new.stack.items ≡ self.old.stack.items)) }
        ensures hypotheses { self.new.hypotheses.items ≡ self.old.hypotheses.items }
        ensures world { self.new.world ≡ self.old.world }
    {
        let before = self.stack.len();
        if let Err(error) = self.stack_all(op, more) {
            self.stack.truncate(before);
            return Err(error);
        }
        Ok(())
    }

    /// The same, but after an error some of the terms may be left on the stack.
    fn stack_all(&mut self, op: Op, more: &[Term]) -> Result<(), AllocError>
        requires known { list_all (λ n. nat_lt n (length self.old.nodes)) more.now ≡ true }
        requires takes { takes op (map (sort_at self.old.nodes) (self.old.stack.items ++ more.now)) ≡ true }
        ensures nodes { OnOk result (self.new.nodes ≡ (made self.old.nodes (record { op = op; parts = self.old.stack.items ++ more.now })).nodes) }
        ensures stack { OnOk result (self.new.stack.items ≡ (made self.old.nodes (record { op = op; parts = self.old.stack.items ++ more.now })).number ∷ []) }
        ensures err { OnErr result ((self.new.nodes ≡ self.old.nodes) × (take (length self.old.stack.items) self.new.stack.items ≡ self.old.stack.items)) }
        ensures hypotheses { self.new.hypotheses.items ≡ self.old.hypotheses.items }
        ensures world { self.new.world ≡ self.old.world }
    {
        for term in more {
            self.again(*term)?;
        }
        let count = self.stack.len();
        self.apply(op, count)
    }

    /// Makes the formula on the stack, which stands there alone, the next hypothesis. It fails for want
    /// of memory, and then changes nothing.
    pub fn assume(&mut self) -> Result<(), AllocError>
        requires one { length self.old.stack.items ≡ 1 }
        requires formula { is_formula self.old.nodes (slice_index self.old.stack.items 0) ≡ true }
        ensures hypotheses { OnOk result (self.new.hypotheses.items ≡ self.old.hypotheses.items ++ self.old.stack.items) }
        ensures stack { OnOk result (self.new.stack.items ≡ []) }
        ensures err { OnErr result ((self.new.hypotheses.items ≡ self.old.hypotheses.items) × (self.new.stack.items ≡ self.old.stack.items)) }
        ensures nodes { self.new.nodes ≡ self.old.nodes }
        ensures world { self.new.world ≡ self.old.world }
    {
        self.hypotheses.push(self.stack[0])?;
        self.stack.clear();
        Ok(())
    }

    /// The sequent with the formula on the stack, which stands there alone, as its goal.
    pub fn sequent(&self, alloc: Global) -> Result<Sequent<'a>, AllocError>
        requires one { length self.now.stack.items ≡ 1 }
        requires formula { is_formula self.now.nodes (slice_index self.now.stack.items 0) ≡ true }
        ensures world { IfOk result (λ sequent. sequent.world ≡ self.now.world) }
        ensures nodes { IfOk result (λ sequent. sequent.nodes ≡ self.now.nodes) }
        ensures hypotheses { IfOk result (λ sequent. sequent.hypotheses ≡ self.now.hypotheses.items) }
        ensures goal { IfOk result (λ sequent. sequent.goal ∷ [] ≡ self.now.stack.items) }
    {
        let formulas = Vec::from_slice(alloc, self.hypotheses.as_slice())?;
        Ok(Sequent {
            world: self.world,
            nodes: Front::copy_of(alloc, &self.nodes)?,
            hypotheses: Formulas::new(alloc, formulas)?,
            goal: self.stack[0],
        })
    }
}
