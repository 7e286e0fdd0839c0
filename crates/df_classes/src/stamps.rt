//! Marks of labels, each with how many literals were held when it came.

ghost use Rattle.std.specs.Prelude.{◌≡◌, ◌<◌, true, false, length, IfOk, OnOk};
ghost use Rattle.df_classes.specs.mirror.Signs.{stamp_at, is_stamped, KeepsStamps, KeepsStampsTo};

use std::alloc::{AllocError, Global};

/// Marks of labels. A mark counts only where as many literals are held as when it came.
#[derive(Drop)]
pub(crate) struct Stamps {
    pub(crate) since: Vec<Option<usize>>,
    /// The labels in the order in which they were marked.
    order: Vec<usize>,
}

impl Stamps {
    /// None of so many labels is marked.
    pub(crate) fn new(alloc: Global, count: usize) -> Result<Stamps, AllocError>
        ensures { IfOk result (λ stamps. length stamps.since.items ≡ count) }
    {
        Ok(Stamps {
            since: vec![in alloc; None; count]?,
            order: Vec::new(alloc),
        })
    }

    /// How many literals were held when the mark of a label came.
    fn stamp(&self, label: usize) -> Option<usize>
        ensures { result ≡ stamp_at self.now.since.items label }
    {
        match self.since.get(label) {
            Some(stamp) => *stamp,
            None => None,
        }
    }

    /// Whether a label is marked where so many literals are held.
    pub(crate) fn is_marked(&self, label: usize, held: usize) -> bool
        ensures { result ≡ is_stamped self.now.since.items label held }
    {
        match self.stamp(label) {
            Some(stamp) => stamp <= held,
            None => false,
        }
    }

    /// Gives a label a stamp. An error changes nothing.
    fn set(&mut self, label: usize, held: usize) -> Result<(), AllocError>
        requires label { label < length self.old.since.items }
        requires later { is_stamped self.old.since.items label held ≡ false }
        ensures marks { OnOk result (is_stamped self.new.since.items label held ≡ true) }
        ensures keeps { KeepsStamps self.old.since.items self.new.since.items }
    {
        self.order.push(label)?;
        self.since[label] = Some(held);
        Ok(())
    }

    /// Marks a label, where there is one, with so many literals held. An error changes nothing.
    pub(crate) fn mark(&mut self, label: usize, held: usize) -> Result<(), AllocError>
        ensures marks { OnOk result (label < length self.old.since.items → is_stamped self.new.since.items label held ≡ true) }
        ensures keeps { KeepsStamps self.old.since.items self.new.since.items }
    {
        if self.is_marked(label, held) {
            return Ok(());
        }
        if label < self.since.len() {
            return self.set(label, held);
        }
        Ok(())
    }

    /// Marks a label where another one is marked.
    pub(crate) fn carry(&mut self, from: usize, to: usize, held: usize) -> Result<(), AllocError>
        ensures carries { OnOk result (is_stamped self.old.since.items from held ≡ true → to < length self.old.since.items → is_stamped self.new.since.items to held ≡ true) }
        ensures keeps { KeepsStamps self.old.since.items self.new.since.items }
    {
        if !self.is_marked(from, held) {
            return Ok(());
        }
        self.mark(to, held)
    }

    /// Takes the mark of a label away, which came with more literals than these.
    fn clear(&mut self, label: usize, held: usize)
        requires { is_stamped self.old.since.items label held ≡ false }
        ensures { KeepsStampsTo held self.old.since.items self.new.since.items }
    {
        if label < self.since.len() {
            self.since[label] = None;
        }
    }

    /// Takes the last mark away where it came with more literals than these, and tells whether it did.
    fn forget_last(&mut self, held: usize) -> bool
        ensures { KeepsStampsTo held self.old.since.items self.new.since.items }
    {
        let Some(label) = self.order.last().copied() else {
            return false;
        };
        if self.is_marked(label, held) {
            return false;
        }
        let _last = self.order.pop();
        self.clear(label, held);
        true
    }

    /// Takes the marks away that came with more literals than these.
    pub(crate) fn forget(&mut self, held: usize)
        ensures { KeepsStampsTo held self.old.since.items self.new.since.items }
    {
        for _mark in 0..self.order.len() {
            if !self.forget_last(held) {
                return;
            }
        }
    }
}
