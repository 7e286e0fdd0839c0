//! Lists of numbers, by number.

ghost use Rattle.std.specs.Prelude.{◌≡◌, ◌<◌, [], length, replicate, IfOk, OnOk, OnErr};
ghost use Rattle.df_classes.specs.mirror.State.{list_at, pushed, popped, ones_from};

use std::alloc::{AllocError, Global};
use std::marker::Model;

/// Lists of numbers.
#[derive(Drop)]
pub struct Lists {
    lists: Vec<Vec<usize>>,
}

impl Model for Lists {
    ghost use Rattle.std.specs.Prelude.{ℕ, List, map};

    ghost Value = { List (List ℕ) };

    ghost view = { λ s. map (λ list. list.items) s.lists.items };
}

impl Lists {
    /// Empty lists, so many.
    pub fn new(alloc: Global, count: usize) -> Result<Lists, AllocError>
        ensures { IfOk result (λ lists. lists ≡ replicate count []) }
    {
        let mut lists = Vec::with_capacity(alloc, count)?;
        for _number in 0..count {
            lists.push(Vec::new(alloc))?;
        }
        Ok(Lists { lists })
    }

    /// A list of each number alone, so many.
    pub(crate) fn ones(alloc: Global, count: usize) -> Result<Lists, AllocError>
        ensures { IfOk result (λ lists. lists ≡ ones_from 0 count) }
    {
        let mut lists = Vec::with_capacity(alloc, count)?;
        for number in 0..count {
            lists.push(vec![in alloc; number]?)?;
        }
        Ok(Lists { lists })
    }

    /// How many lists there are.
    pub fn len(&self) -> usize
        ensures { result ≡ length self.now }
    {
        self.lists.len()
    }

    /// The list of a number; one past the last is empty.
    pub fn list(&self, number: usize) -> &[usize]
        ensures { result.now ≡ list_at self.now number }
    {
        match self.lists.get(number) {
            Some(list) => list,
            None => &[],
        }
    }

    /// One more member at the end of a list that there is.
    pub fn push(&mut self, number: usize, member: usize) -> Result<(), AllocError>
        requires { number < length self.old }
        ensures pushed { OnOk result (self.new ≡ pushed self.old number member) }
        ensures err { OnErr result (self.new ≡ self.old) }
    {
        self.lists[number].push(member)?;
        Ok(())
    }

    /// Takes the last member of a list away, where it has one.
    pub(crate) fn pop(&mut self, number: usize)
        ensures { self.new ≡ popped self.old number }
    {
        if number < self.lists.len() {
            let _last = self.lists[number].pop();
        }
    }
}
