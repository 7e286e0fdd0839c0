//! The first nodes of an arena that is lent.

ghost use Rattle.std.specs.Prelude.{◌≡◌, ◌≤◌, ◌<◌, ◌^◌, true, length, take, slice_get, IfSome};
ghost use Rattle.std.specs.Option.{option_map};
ghost use Rattle.df_form.specs.Node.{node_of, number_of};
ghost use Rattle.df_form.specs.Offset.{offsets};

use crate::node::{Node, Op, Term};
use crate::node_table::NodeTable;
use crate::nodes::Nodes;
use crate::offset::Offset;
use std::marker::Model;

/// So many nodes of an arena, the first ones.
#[derive(Drop)]
pub(crate) struct Lent<'a> {
    nodes: &'a Nodes,
    count: usize,
}

impl<'a> Model for Lent<'a> {
    ghost use Rattle.std.specs.Prelude.{List, ◌≤◌, length, take};
    ghost use Rattle.df_form.specs.Node as pure;

    ghost Value = { List pure.Node };

    ghost view = { λ l. take l.count l.nodes.now };

    ghost invariant = { λ l. l.count ≤ length l.nodes.now };
}

impl<'a> Lent<'a> {
    ghost use Rattle.df_form.specs.Sorting.{IsTable, is_well_sorted};

    pub(crate) fn new(nodes: &'a Nodes, count: usize) -> Lent<'a>
        requires { count ≤ length nodes.now }
        ensures { result ≡ take count nodes.now }
    {
        Lent { nodes, count }
    }

    /// How many there are.
    pub(crate) fn len(&self) -> usize
        ensures len { result ≡ length self.now }
        ensures small { result < 2 ^ 63 }
        ensures table { IsTable self.now }
    {
        // They are a table, and few enough.
        let _len = self.nodes.len();
        self.count
    }

    /// The node of a number, if there is one.
    pub(crate) fn get(&self, number: Term) -> Option<&'a Node>
        ensures node { option_map (λ node. node_of node.now) result ≡ slice_get self.now number }
        ensures sorted { IfSome result (λ node. is_well_sorted (take number self.now) (node_of node.now) ≡ true) }
    {
        // They are a table.
        let _len = self.nodes.len();
        if number < self.count {
            self.nodes.get(number)
        } else {
            None
        }
    }

    /// What the node of a number is, if there is one.
    pub(crate) fn offset(&self, number: Term) -> Option<Offset>
        ensures { result ≡ slice_get (offsets self.now) number }
    {
        if number < self.count {
            self.nodes.known_offset(number)
        } else {
            None
        }
    }

    /// The number of the operation on these parts, if it is one of them.
    pub(crate) fn find(&self, op: &Op, parts: &[Term]) -> Option<Term>
        ensures { result ≡ number_of self.now (record { op = op.now; parts = parts.now }) }
    {
        // They are a table.
        let _len = self.nodes.len();
        match self.nodes.find(op, parts) {
            Some(number) if number < self.count => Some(number),
            _ => None,
        }
    }

    /// The same nodes once more, in the same place.
    pub(crate) fn copy(&self) -> Lent<'a>
        ensures { result ≡ self.now }
    {
        Lent {
            nodes: self.nodes,
            count: self.count,
        }
    }

    /// Takes the nodes from this number on away.
    pub(crate) fn cut(&mut self, len: usize)
        ensures { self.new ≡ take len self.old }
    {
        if len < self.count {
            self.count = len;
        }
    }
}
