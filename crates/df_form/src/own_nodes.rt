//! Nodes that are found by their operation and their parts.

ghost use Rattle.std.specs.Prelude.{◌≡◌, ◌<◌, ◌^◌, ◌++◌, ◌∷◌, [], None, length, take, slice_get, OnOk, OnErr};
ghost use Rattle.std.specs.Option.{option_map};
ghost use Rattle.df_form.specs.Node.{node_of, number_of};
ghost use Rattle.df_form.specs.Keyed.{nodes_in, AreKeyed};

use crate::key::Key;
use crate::node::{Node, Op, Term};
use crate::part_lists::PartLists;
use indexmap::IndexMap;
use std::alloc::{AllocError, Global};
use std::marker::Model;

/// Nodes by their numbers, which count from 0. No two are equal. A list of parts stands once, so a look-up takes no memory:
/// it finds the list, and then the operation on it.
#[derive(Drop)]
pub(crate) struct OwnNodes {
    nodes: IndexMap<Key, Node>,
    lists: PartLists,
}

impl Model for OwnNodes {
    ghost use Rattle.std.specs.Prelude.{List};
    ghost use Rattle.df_form.specs.Node as pure;
    ghost use Rattle.df_form.specs.Keyed as keyed;

    ghost Value = { List pure.Node };

    ghost view = { λ s. keyed.nodes_in s.nodes.entries };

    ghost invariant = { λ s. keyed.AreKeyed s.nodes.entries s.lists };
}

/// Adds the operation on these parts, which is none of the nodes.
fn push_keyed(
    nodes: &mut IndexMap<Key, Node>,
    lists: &mut PartLists,
    op: Op,
    parts: &[Term],
) -> Result<(), AllocError>
    requires keyed { AreKeyed nodes.old.entries lists.old }
    requires new { number_of (nodes_in nodes.old.entries) (record { op = op; parts = parts.now }) ≡ None }
    ensures keyed { AreKeyed nodes.new.entries lists.new }
    ensures pushed { OnOk result (nodes_in nodes.new.entries ≡ nodes_in nodes.old.entries ++ (record { op = op; parts = parts.now }) ∷ []) }
    ensures err { OnErr result (nodes.new.entries ≡ nodes.old.entries) }
{
    let own = Vec::from_slice(*nodes.allocator(), parts)?;
    let list = lists.intern(parts)?;
    nodes.insert(Key { op, list }, Node { op, parts: own })?;
    Ok(())
}

impl OwnNodes {
    /// No nodes.
    pub(crate) fn new(alloc: Global) -> OwnNodes
        ensures { result ≡ [] }
    {
        OwnNodes {
            nodes: IndexMap::new(alloc),
            lists: PartLists::new(alloc),
        }
    }

    /// How many there are.
    pub(crate) fn len(&self) -> usize
        ensures len { result ≡ length self.now }
        ensures small { result < 2 ^ 63 }
    {
        self.nodes.len()
    }

    /// The node of a number, if there is one.
    pub(crate) fn node(&self, number: Term) -> Option<&Node>
        ensures { option_map (λ node. node_of node.now) result ≡ slice_get self.now number }
    {
        match self.nodes.get_index(number) {
            Some((_, node)) => Some(node),
            None => None,
        }
    }

    /// The number of the operation on these parts, if it is one of them.
    pub(crate) fn number_of(&self, op: &Op, parts: &[Term]) -> Option<usize>
        ensures { result ≡ number_of self.now (record { op = op.now; parts = parts.now }) }
    {
        match self.lists.find(parts) {
            Some(list) => self.nodes.get_index_of(&Key { op: *op, list }),
            None => None,
        }
    }

    /// Adds the operation on these parts, which is none of them. For want of memory they stay the same.
    pub(crate) fn push(&mut self, op: Op, parts: &[Term]) -> Result<(), AllocError>
        requires { number_of self.old (record { op = op; parts = parts.now }) ≡ None }
        ensures pushed { OnOk result (self.new ≡ self.old ++ (record { op = op; parts = parts.now }) ∷ []) }
        ensures err { OnErr result (self.new ≡ self.old) }
    {
        push_keyed(&mut self.nodes, &mut self.lists, op, parts)
    }

    /// Takes the nodes from this number on away. Their lists of parts stay, for others on them.
    pub(crate) fn truncate(&mut self, len: usize)
        ensures { self.new ≡ take len self.old }
    {
        self.nodes.truncate(len);
    }
}
