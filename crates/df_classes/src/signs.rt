//! Signs and numbers of classes, by which a clash is found when it comes.

ghost use Rattle.std.specs.Prelude.{◌≡◌, ◌<◌, ◌≤◌, ◌+◌, ◌&&◌, ◌||◌, ℕ, true, false, Some, length, slice_get, IfOk, OnOk};
ghost use Rattle.std.specs.List.{list_any};
ghost use Rattle.df_classes.specs.PartitionView.{state_of};
ghost use Rattle.df_classes.specs.SignsView.{tables_of, PutsNumbers, CarriesFrom, is_torn, may_be_denied, clashes_at, clashes_by, TakesIn};
ghost use Rattle.df_classes.specs.mirror.Clash.{is_denied as is_denied_in};
ghost use Rattle.df_classes.specs.mirror.State.{label_of};
ghost use Rattle.df_classes.specs.mirror.Signs.{KeepsTables, AreWide, CarriesNode, Carries, Marks};

use crate::lists::Lists;
use crate::partition::{Change, Partition};
use crate::reading::is_denied;
use crate::slots::Slots;
use crate::stamps::Stamps;
use df_form::{Lit, Over};
use std::alloc::{AllocError, Global};

/// Whether held literals of each sign are in a class, and which number is.
#[derive(Drop)]
pub struct Signs {
    pub(crate) positives: Stamps,
    pub(crate) negatives: Stamps,
    pub(crate) slots: Slots,
    /// How many lists of the first held literals, from the empty one on, are known not to clash, with the
    /// signs and numbers of their classes.
    pub covered: usize,
}

impl Signs {
    /// Nothing is known of the classes of so many nodes.
    pub(crate) fn none(alloc: Global, count: usize) -> Result<Signs, AllocError>
        ensures wide { IfOk result (λ signs. AreWide count (tables_of signs)) }
        ensures covered { IfOk result (λ signs. signs.covered ≡ 0) }
    {
        Ok(Signs {
            positives: Stamps::new(alloc, count)?,
            negatives: Stamps::new(alloc, count)?,
            slots: Slots::new(alloc, count)?,
            covered: 0,
        })
    }

    /// Puts nodes that are numbers to their classes, and tells whether no class has two numbers.
    pub(crate) fn put_numbers(
        &mut self,
        nodes: &Over,
        partition: &Partition,
        numbers: &[usize],
    ) -> Result<bool, AllocError>
        ensures keeps { KeepsTables 0 (tables_of self.old) (tables_of self.new) }
        ensures puts { IfOk result (λ calm. calm ≡ true → PutsNumbers nodes.now (state_of partition.now) numbers.now (tables_of self.new)) }
        ensures covered { self.new.covered ≡ self.old.covered }
    {
        for node in numbers {
            if !self
                .slots
                .put_number(nodes, partition.label(*node), *node, 0)?
            {
                return Ok(false);
            }
        }
        Ok(true)
    }

    /// Marks the class of a literal, the last of so many.
    fn mark(&mut self, partition: &Partition, literal: Lit, held: usize) -> Result<(), AllocError>
        ensures marks { OnOk result (label_of (state_of partition.now) literal.node < length self.old.positives.since.items → label_of (state_of partition.now) literal.node < length self.old.negatives.since.items → Marks (label_of (state_of partition.now)) held literal (tables_of self.new)) }
        ensures keeps { KeepsTables held (tables_of self.old) (tables_of self.new) }
        ensures covered { self.new.covered ≡ self.old.covered }
    {
        let label = partition.label(literal.node);
        if literal.positive {
            return self.positives.mark(label, held);
        }
        self.negatives.mark(label, held)
    }

    /// Carries what is known of the class that a node left to its new one, and tells whether no two numbers
    /// meet there.
    fn carry_node(
        &mut self,
        nodes: &Over,
        partition: &Partition,
        node: usize,
        before: usize,
        held: usize,
    ) -> Result<bool, AllocError>
        ensures carries { IfOk result (λ calm. calm ≡ true → CarriesNode nodes.now (label_of (state_of partition.now)) held node before (tables_of self.old) (tables_of self.new)) }
        ensures keeps { KeepsTables held (tables_of self.old) (tables_of self.new) }
        ensures covered { self.new.covered ≡ self.old.covered }
    {
        let label = partition.label(node);
        self.positives.carry(before, label, held)?;
        self.negatives.carry(before, label, held)?;
        self.slots.put_number(nodes, label, node, held)
    }

    /// And so for a change, where it moved a node.
    fn carry_change(
        &mut self,
        nodes: &Over,
        partition: &Partition,
        change: Change,
        held: usize,
    ) -> Result<bool, AllocError>
        ensures carries { IfOk result (λ calm. calm ≡ true → Carries nodes.now (label_of (state_of partition.now)) held (Some change) (tables_of self.old) (tables_of self.new)) }
        ensures keeps { KeepsTables held (tables_of self.old) (tables_of self.new) }
        ensures covered { self.new.covered ≡ self.old.covered }
    {
        match change {
            Change::Moved { node, label } => self.carry_node(nodes, partition, node, label, held),
            Change::Entered { .. } => Ok(true),
        }
    }

    /// And so for the change of a number, if there is one.
    fn carry(
        &mut self,
        nodes: &Over,
        partition: &Partition,
        place: usize,
        held: usize,
    ) -> Result<bool, AllocError>
        ensures carries { IfOk result (λ calm. calm ≡ true → Carries nodes.now (label_of (state_of partition.now)) held (slice_get partition.now.trail.items place) (tables_of self.old) (tables_of self.new)) }
        ensures keeps { KeepsTables held (tables_of self.old) (tables_of self.new) }
        ensures covered { self.new.covered ≡ self.old.covered }
    {
        match partition.change(place) {
            Some(change) => self.carry_change(nodes, partition, change, held),
            None => Ok(true),
        }
    }

    /// And so for the changes from one on.
    fn carry_all(
        &mut self,
        nodes: &Over,
        partition: &Partition,
        from: usize,
        held: usize,
    ) -> Result<bool, AllocError>
        ensures carries { IfOk result (λ calm. calm ≡ true → CarriesFrom nodes.now (state_of partition.now) held partition.now.trail.items from (length partition.now.trail.items) (tables_of self.old) (tables_of self.new)) }
        ensures keeps { KeepsTables held (tables_of self.old) (tables_of self.new) }
        ensures covered { self.new.covered ≡ self.old.covered }
    {
        for place in from..partition.changes() {
            if !self.carry(nodes, partition, place, held)? {
                return Ok(false);
            }
        }
        Ok(true)
    }

    /// Whether held literals of both signs are in a class.
    fn is_torn(&self, label: usize, held: usize) -> bool
        ensures { result ≡ is_torn (tables_of self.now) label held }
    {
        self.positives.is_marked(label, held) && self.negatives.is_marked(label, held)
    }

    /// Whether a node is an equality with sides of one label, and a negative literal is in its class.
    fn may_be_denied(&self, nodes: &Over, partition: &Partition, node: usize, held: usize) -> bool
        ensures { result ≡ may_be_denied nodes.now (label_of (state_of partition.now)) held (tables_of self.now) node }
    {
        let denial = Lit {
            positive: false,
            node,
        };
        self.negatives.is_marked(partition.label(node), held) && is_denied(nodes, partition, denial)
    }

    /// Whether one of some nodes is.
    fn has_denied(&self, nodes: &Over, partition: &Partition, users: &[usize], held: usize) -> bool
        ensures { result ≡ list_any (may_be_denied nodes.now (label_of (state_of partition.now)) held (tables_of self.now)) users.now }
    {
        for user in users {
            if self.may_be_denied(nodes, partition, *user, held) {
                return true;
            }
        }
        false
    }

    /// Whether there may be a clash at a node that has moved.
    fn clashes_at(
        &self,
        nodes: &Over,
        users: &Lists,
        partition: &Partition,
        node: usize,
        held: usize,
    ) -> bool
        ensures { result ≡ clashes_at nodes.now users.now (label_of (state_of partition.now)) held (tables_of self.now) node }
    {
        self.is_torn(partition.label(node), held)
            || self.has_denied(nodes, partition, users.list(node), held)
    }

    /// And so for a change, where it moved a node.
    fn clashes_after(
        &self,
        nodes: &Over,
        users: &Lists,
        partition: &Partition,
        change: Change,
        held: usize,
    ) -> bool
        ensures { result ≡ clashes_by nodes.now users.now (label_of (state_of partition.now)) held (tables_of self.now) (Some change) }
    {
        match change {
            Change::Moved { node, .. } => self.clashes_at(nodes, users, partition, node, held),
            Change::Entered { .. } => false,
        }
    }

    /// And so for the change of a number, if there is one.
    fn clashes_by(
        &self,
        nodes: &Over,
        users: &Lists,
        partition: &Partition,
        place: usize,
        held: usize,
    ) -> bool
        ensures { result ≡ clashes_by nodes.now users.now (label_of (state_of partition.now)) held (tables_of self.now) (slice_get partition.now.trail.items place) }
    {
        match partition.change(place) {
            Some(change) => self.clashes_after(nodes, users, partition, change, held),
            None => false,
        }
    }

    /// And so for the changes from one on.
    fn clashes_from(
        &self,
        nodes: &Over,
        users: &Lists,
        partition: &Partition,
        from: usize,
        held: usize,
    ) -> bool
        ensures { result ≡ false → (place : ℕ) → from ≤ place → place < length partition.now.trail.items → clashes_by nodes.now users.now (label_of (state_of partition.now)) held (tables_of self.now) (slice_get partition.now.trail.items place) ≡ false }
    {
        for place in from..partition.changes() {
            if self.clashes_by(nodes, users, partition, place, held) {
                return true;
            }
        }
        false
    }

    /// Whether there may be a clash at a literal, or at a node that changes from one on have moved.
    fn clashes_with(
        &self,
        nodes: &Over,
        users: &Lists,
        partition: &Partition,
        from: usize,
        literal: Lit,
        held: usize,
    ) -> bool
        ensures not_denied { result ≡ false → is_denied_in nodes.now (label_of (state_of partition.now)) literal ≡ false }
        ensures not_torn { result ≡ false → is_torn (tables_of self.now) (label_of (state_of partition.now) literal.node) held ≡ false }
        ensures calm { result ≡ false → (place : ℕ) → from ≤ place → place < length partition.now.trail.items → clashes_by nodes.now users.now (label_of (state_of partition.now)) held (tables_of self.now) (slice_get partition.now.trail.items place) ≡ false }
    {
        if is_denied(nodes, partition, literal) {
            return true;
        }
        if self.is_torn(partition.label(literal.node), held) {
            return true;
        }
        self.clashes_from(nodes, users, partition, from, held)
    }

    /// Takes in a literal, the last of so many, and the changes from one on that came with it. It tells
    /// whether there is surely no clash.
    pub(crate) fn take_in(
        &mut self,
        nodes: &Over,
        users: &Lists,
        partition: &Partition,
        from: usize,
        literal: Lit,
        held: usize,
    ) -> Result<bool, AllocError>
        requires { AreWide (length nodes.now) (tables_of self.old) }
        ensures takes { IfOk result (λ calm. calm ≡ true → TakesIn nodes.now users.now (state_of partition.now) held literal partition.now.trail.items from (tables_of self.old) (tables_of self.new)) }
        ensures keeps { KeepsTables held (tables_of self.old) (tables_of self.new) }
        ensures covered { self.new.covered ≡ self.old.covered }
    {
        self.mark(partition, literal, held)?;
        if !self.carry_all(nodes, partition, from, held)? {
            return Ok(false);
        }
        Ok(!self.clashes_with(nodes, users, partition, from, literal, held))
    }

    /// Forgets what came with more literals than these.
    pub fn forget(&mut self, held: usize)
        ensures keeps { KeepsTables held (tables_of self.old) (tables_of self.new) }
        ensures fewer { self.new.covered ≤ self.old.covered }
        ensures within { self.new.covered ≤ held + 1 }
    {
        self.positives.forget(held);
        self.negatives.forget(held);
        self.slots.forget(held);
        self.covered = self.covered.min(held.saturating_add(1));
    }
}
