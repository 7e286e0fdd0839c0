//! Heaps.

use crate::value::Value;
use std::alloc::Global;

/// What a reference leads to.
#[derive(Drop)]
pub enum Object {
    /// An object by its slots.
    Slots(Vec<Value>),
    /// An array by its elements.
    Array(Vec<Value>),
}

/// An object under its reference.
#[derive(Drop)]
pub struct Entry {
    pub reference: u64,
    pub object: Object,
}

/// The objects that there are.
#[derive(Drop)]
pub struct Heap {
    pub entries: Vec<Entry>,
}

impl Heap {
    ghost use Rattle.std.specs.Prelude.{◌≡◌, []};
    ghost use Rattle.df_nmach.specs.View.{heap_of};

    /// No objects.
    pub fn new(alloc: Global) -> Heap
        ensures { heap_of result ≡ [] }
    {
        Heap {
            entries: Vec::new(alloc),
        }
    }
}
