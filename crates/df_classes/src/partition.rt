//! Nodes by the labels of their classes, with a way back.

ghost use Rattle.std.specs.Prelude.{◌≡◌, ◌<◌, ◌∷◌, ◌++◌, [], length, take, drop, slice_get, IfOk, OnOk};
ghost use Rattle.df_classes.specs.mirror.State.{label_of, list_at, moved, entered, undone, back, alone, counted_from};
ghost use Rattle.df_classes.specs.PartitionView.{state_of, Extends, UndoesLast};

use crate::lists::Lists;
use df_form::Pair;
use std::alloc::{AllocError, Global};

/// One change, with what stood there before.
#[derive(Clone, Copy, PartialEq, Eq)]
pub enum Change {
    /// A node went to another class from that of this label.
    Moved { node: usize, label: usize },
    /// A node was put into a bucket.
    Entered { bucket: usize },
}

/// A label for each node, that of its class; the nodes of each class; and nodes in buckets. Changes can
/// be taken back.
#[derive(Drop)]
pub struct Partition {
    labels: Vec<usize>,
    members: Lists,
    buckets: Lists,
    /// The pairs of nodes whose classes became one because their parts were equal, in their order.
    pub pairs: Vec<Pair>,
    /// The changes in their order.
    pub trail: Vec<Change>,
}

/// Numbers from 0, so many.
pub(crate) fn counted(alloc: Global, count: usize) -> Result<Vec<usize>, AllocError>
    ensures { IfOk result (λ numbers. numbers.items ≡ counted_from 0 count) }
{
    let mut numbers = Vec::with_capacity(alloc, count)?;
    for number in 0..count {
        numbers.push(number)?;
    }
    Ok(numbers)
}

impl Partition {
    /// Each node is alone, and no bucket has one.
    pub fn new(alloc: Global, count: usize) -> Result<Partition, AllocError>
        ensures state { IfOk result (λ partition. state_of partition ≡ alone count) }
        ensures pairs { IfOk result (λ partition. partition.pairs.items ≡ []) }
        ensures trail { IfOk result (λ partition. partition.trail.items ≡ []) }
    {
        Ok(Partition {
            labels: counted(alloc, count)?,
            members: Lists::ones(alloc, count)?,
            buckets: Lists::new(alloc, count)?,
            pairs: Vec::new(alloc),
            trail: Vec::new(alloc),
        })
    }

    /// The label of a node.
    pub fn label(&self, node: usize) -> usize
        ensures { result ≡ label_of (state_of self.now) node }
    {
        match self.labels.get(node) {
            Some(label) => *label,
            None => node,
        }
    }

    /// The labels of all nodes.
    pub fn into_labels(self) -> Vec<usize>
        ensures { result.items ≡ (state_of self).labels }
    {
        self.labels
    }

    /// The nodes of a label.
    pub(crate) fn members(&self, label: usize) -> &[usize]
        ensures { result.now ≡ list_at (state_of self.now).members label }
    {
        self.members.list(label)
    }

    /// How many buckets there are.
    pub(crate) fn bucket_count(&self) -> usize
        ensures { result ≡ length (state_of self.now).buckets }
    {
        self.buckets.len()
    }

    /// The nodes in a bucket.
    pub(crate) fn bucket(&self, number: usize) -> &[usize]
        ensures { result.now ≡ list_at (state_of self.now).buckets number }
    {
        self.buckets.list(number)
    }

    /// How many changes there are.
    pub fn changes(&self) -> usize
        ensures { result ≡ length self.now.trail.items }
    {
        self.trail.len()
    }

    /// The change of a number, if there is one.
    pub(crate) fn change(&self, place: usize) -> Option<Change>
        ensures { result ≡ slice_get self.now.trail.items place }
    {
        self.trail.get(place).copied()
    }

    /// Gives a node another label. An error changes nothing.
    pub(crate) fn relabel(&mut self, node: usize, label: usize) -> Result<(), AllocError>
        requires node { node < length (state_of self.old).labels }
        requires label { label < length (state_of self.old).members }
        ensures moved { OnOk result (state_of self.new ≡ moved node label (state_of self.old)) }
        ensures pairs { self.new.pairs.items ≡ self.old.pairs.items }
        ensures extends { Extends self.old self.new }
    {
        let before = self.label(node);
        self.trail.reserve(1)?;
        self.members.push(label, node)?;
        self.trail.push(Change::Moved {
            node,
            label: before,
        })?;
        self.labels[node] = label;
        Ok(())
    }

    /// Puts a node into a bucket. An error changes nothing.
    pub(crate) fn enter(&mut self, bucket: usize, node: usize) -> Result<(), AllocError>
        requires { bucket < length (state_of self.old).buckets }
        ensures entered { OnOk result (state_of self.new ≡ entered bucket node (state_of self.old)) }
        ensures pairs { self.new.pairs.items ≡ self.old.pairs.items }
        ensures extends { Extends self.old self.new }
    {
        self.trail.reserve(1)?;
        self.buckets.push(bucket, node)?;
        self.trail.push(Change::Entered { bucket })?;
        Ok(())
    }

    /// One more pair. An error changes nothing.
    pub(crate) fn add(&mut self, pair: Pair) -> Result<(), AllocError>
        ensures added { OnOk result (self.new.pairs.items ≡ self.old.pairs.items ++ pair ∷ []) }
        ensures state { state_of self.new ≡ state_of self.old }
        ensures extends { Extends self.old self.new }
    {
        self.pairs.push(pair)?;
        Ok(())
    }

    /// Takes a change back.
    fn undo(&mut self, change: Change)
        ensures undone { state_of self.new ≡ undone change (state_of self.old) }
        ensures trail { self.new.trail.items ≡ self.old.trail.items }
        ensures pairs { self.new.pairs.items ≡ self.old.pairs.items }
    {
        match change {
            Change::Moved { node, label } => {
                let from = self.label(node);
                self.members.pop(from);
                if node < self.labels.len() {
                    self.labels[node] = label;
                }
            }
            Change::Entered { bucket } => self.buckets.pop(bucket),
        }
    }

    /// Takes the last change back.
    fn undo_last(&mut self)
        requires { 0 < length self.old.trail.items }
        ensures { UndoesLast self.old self.new }
    {
        if let Some(change) = self.trail.pop() {
            self.undo(change);
        }
    }

    /// Takes all changes but so many back, and all pairs but so many away.
    pub(crate) fn retreat(&mut self, changes: usize, pairs: usize)
        ensures state { state_of self.new ≡ back (drop changes self.old.trail.items) (state_of self.old) }
        ensures trail { self.new.trail.items ≡ take changes self.old.trail.items }
        ensures pairs { self.new.pairs.items ≡ take pairs self.old.pairs.items }
    {
        while self.trail.len() > changes {
            self.undo_last();
        }
        self.pairs.truncate(pairs);
    }
}
