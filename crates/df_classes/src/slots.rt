//! The numbers of classes, each with how many literals were held when it came.

ghost use Rattle.std.specs.Prelude.{◌≡◌, ◌<◌, ℤ, true, None, Some, length, IfOk, OnOk};
ghost use Rattle.df_rules.specs.CongruenceLine.{number_at};
ghost use Rattle.df_classes.specs.mirror.Signs.{early_node, slot_node, are_one, HasNumber, KeepsSlotsTo};

use crate::reading::number;
use df_form::Over;
use std::alloc::{AllocError, Global};

/// A node that is a number, and how many literals were held when it came.
#[derive(Clone, Copy, PartialEq, Eq)]
pub(crate) struct Slot {
    pub(crate) node: usize,
    pub(crate) since: usize,
}

/// A node that is a number for each label that has one. It counts only where as many literals are held as
/// when it came.
#[derive(Drop)]
pub(crate) struct Slots {
    pub(crate) slots: Vec<Option<Slot>>,
    /// The labels in the order in which they got theirs.
    order: Vec<usize>,
}

/// Whether both are one number.
fn are_one_number(first: Option<i128>, second: Option<i128>) -> bool
    ensures { result ≡ are_one first second }
{
    match (first, second) {
        (Some(first), Some(second)) => first == second,
        _ => false,
    }
}

/// The node of a slot, where it counts.
fn early_node(slot: Option<Slot>, held: usize) -> Option<usize>
    ensures { result ≡ early_node slot held }
{
    match slot {
        Some(slot) if slot.since <= held => Some(slot.node),
        Some(_) | None => None,
    }
}

impl Slots {
    /// None of so many labels has a number.
    pub(crate) fn new(alloc: Global, count: usize) -> Result<Slots, AllocError>
        ensures { IfOk result (λ slots. length slots.slots.items ≡ count) }
    {
        Ok(Slots {
            slots: vec![in alloc; None; count]?,
            order: Vec::new(alloc),
        })
    }

    /// The number of a label where so many literals are held.
    fn node(&self, label: usize, held: usize) -> Option<usize>
        ensures { result ≡ slot_node self.now.slots.items label held }
    {
        match self.slots.get(label) {
            Some(slot) => early_node(*slot, held),
            None => None,
        }
    }

    /// Gives a label a slot, where there is such a label. An error changes nothing.
    fn set(&mut self, label: usize, node: usize, held: usize) -> Result<(), AllocError>
        requires { slot_node self.old.slots.items label held ≡ None }
        ensures sets { OnOk result (label < length self.old.slots.items → slot_node self.new.slots.items label held ≡ Some node) }
        ensures keeps { KeepsSlotsTo held self.old.slots.items self.new.slots.items }
    {
        if label >= self.slots.len() {
            return Ok(());
        }
        self.order.push(label)?;
        self.slots[label] = Some(Slot { node, since: held });
        Ok(())
    }

    /// Gives a label the number that a node is, where it has none, and tells whether it has no other.
    fn put(
        &mut self,
        nodes: &Over,
        label: usize,
        node: usize,
        held: usize,
    ) -> Result<bool, AllocError>
        ensures puts { IfOk result (λ calm. calm ≡ true → (k : ℤ) → number_at nodes.now node ≡ Some k → label < length self.old.slots.items → HasNumber nodes.now self.new.slots.items label held k) }
        ensures keeps { KeepsSlotsTo held self.old.slots.items self.new.slots.items }
    {
        match self.node(label, held) {
            Some(other) => Ok(are_one_number(number(nodes, node), number(nodes, other))),
            None => {
                self.set(label, node, held)?;
                Ok(true)
            }
        }
    }

    /// And so where the node is a number.
    pub(crate) fn put_number(
        &mut self,
        nodes: &Over,
        label: usize,
        node: usize,
        held: usize,
    ) -> Result<bool, AllocError>
        ensures puts { IfOk result (λ calm. calm ≡ true → (k : ℤ) → number_at nodes.now node ≡ Some k → label < length self.old.slots.items → HasNumber nodes.now self.new.slots.items label held k) }
        ensures keeps { KeepsSlotsTo held self.old.slots.items self.new.slots.items }
    {
        if number(nodes, node).is_none() {
            return Ok(true);
        }
        self.put(nodes, label, node, held)
    }

    /// Takes the number of a label away, which came with more literals than these.
    fn clear(&mut self, label: usize, held: usize)
        requires { slot_node self.old.slots.items label held ≡ None }
        ensures { KeepsSlotsTo held self.old.slots.items self.new.slots.items }
    {
        if label < self.slots.len() {
            self.slots[label] = None;
        }
    }

    /// Takes the last number away where it came with more literals than these, and tells whether it did.
    fn forget_last(&mut self, held: usize) -> bool
        ensures { KeepsSlotsTo held self.old.slots.items self.new.slots.items }
    {
        let Some(label) = self.order.last().copied() else {
            return false;
        };
        if self.node(label, held).is_some() {
            return false;
        }
        let _last = self.order.pop();
        self.clear(label, held);
        true
    }

    /// Takes the numbers away that came with more literals than these.
    pub(crate) fn forget(&mut self, held: usize)
        ensures { KeepsSlotsTo held self.old.slots.items self.new.slots.items }
    {
        for _number in 0..self.order.len() {
            if !self.forget_last(held) {
                return;
            }
        }
    }
}
