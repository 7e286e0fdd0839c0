//! Lists of parts, equal ones once.

ghost use Rattle.std.specs.Prelude.{◌≡◌, ℕ, [], Some, length, take, slice_get, IfSome, IfNone, IfOk, OnOk, OnErr};

use crate::node::Term;
use indexmap::IndexSet;
use std::alloc::{AllocError, Global};
use std::marker::Model;

/// Lists of parts by their numbers, which count from 0. No two are equal.
#[derive(Drop)]
pub(crate) struct PartLists {
    lists: IndexSet<Vec<Term>>,
}

impl Model for PartLists {
    ghost use Rattle.std.specs.Prelude.{ℕ, List};
    ghost use Rattle.df_form.specs.PartLists as pure;

    ghost Value = { List (List ℕ) };

    ghost view = { λ s. pure.lists_of s.lists.keys };
}

impl PartLists {
    /// No lists.
    pub(crate) fn new(alloc: Global) -> PartLists
        ensures { result ≡ [] }
    {
        PartLists {
            lists: IndexSet::new(alloc),
        }
    }

    /// The number of a list, if it is one of them.
    pub(crate) fn find(&self, parts: &[Term]) -> Option<usize>
        ensures found { IfSome result (λ number. slice_get self.now number ≡ Some parts.now) }
        ensures only { IfSome result (λ number. (other : ℕ) → slice_get self.now other ≡ Some parts.now → other ≡ number) }
        ensures none { IfNone result ((number : ℕ) → slice_get self.now number ≡ Some parts.now → ⊥) }
    {
        // No two are equal.
        let _count = self.lists.len();
        self.lists.get_index_of(parts)
    }

    /// The number of a list, which is added last where it is none of them. For want of memory they stay the same.
    pub(crate) fn intern(&mut self, parts: &[Term]) -> Result<usize, AllocError>
        ensures number { IfOk result (λ number. slice_get self.new number ≡ Some parts.now) }
        ensures kept { OnOk result (take (length self.old) self.new ≡ self.old) }
        ensures err { OnErr result (self.new ≡ self.old) }
    {
        let list = Vec::from_slice(*self.lists.allocator(), parts)?;
        let (number, _) = self.lists.insert_full(list)?;
        Ok(number)
    }
}
