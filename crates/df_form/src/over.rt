//! Nodes that are numbered on from those of an arena.

ghost use Rattle.std.specs.Prelude.{◌≡◌, ◌≤◌, length, take, IfOk};

use crate::arena::{Arena, add_rest};
use crate::lent::Lent;
use crate::node::{Node, Op, Term};
use crate::node_table::NodeTable;
use crate::nodes::{Nodes, push_node};
use crate::offset::{Offset, read};
use crate::own_nodes::OwnNodes;
use std::alloc::{AllocError, Global};
use std::marker::Model;

/// Nodes by their numbers, of which the first ones lie in an arena that is lent, and the others here.
#[derive(Drop)]
pub struct Over<'a> {
    front: Lent<'a>,
    own: OwnNodes,
    /// What its own nodes are.
    offsets: Vec<Offset>,
}

impl<'a> Model for Over<'a> {
    ghost use Rattle.std.specs.Prelude.{List, ◌≡◌, ◌++◌, ◌<◌, ◌^◌, length};
    ghost use Rattle.df_form.specs.Node as pure;
    ghost use Rattle.df_form.specs.Sorting as sorting;
    ghost use Rattle.df_form.specs.Offset as offset;

    ghost Value = { List pure.Node };

    ghost view = { λ s. s.front ++ s.own };

    ghost invariant = { λ s. sorting.IsTable (s.front ++ s.own) × (length (s.front ++ s.own) < 2 ^ 63) × (offset.offsets (s.front ++ s.own) ≡ offset.offsets s.front ++ s.offsets.items) };
}

impl<'a> Over<'a> {
    /// The nodes of an arena, and as yet no others.
    pub fn new(alloc: Global, base: &'a Nodes) -> Over<'a>
        ensures { result ≡ base.now }
    {
        let count = base.len();
        Over::first(alloc, base, count)
    }

    /// So many nodes of an arena, the first ones, and as yet no others.
    pub fn first(alloc: Global, base: &'a Nodes, count: usize) -> Over<'a>
        requires { count ≤ length base.now }
        ensures { result ≡ take count base.now }
    {
        let front = Lent::new(base, count);
        Over::with_front(alloc, front)
    }

    /// Lent nodes, and as yet no others.
    fn with_front(alloc: Global, front: Lent<'a>) -> Over<'a>
        ensures { result ≡ front.entry }
    {
        // They are a table, and few enough.
        let _len = front.len();
        Over {
            front,
            own: OwnNodes::new(alloc),
            offsets: Vec::new(alloc),
        }
    }

    /// The same nodes once more. What is lent stays in one place.
    pub fn copy(&self, alloc: Global) -> Result<Over<'a>, AllocError>
        ensures { IfOk result (λ copy. copy ≡ self.now) }
    {
        let mut copy = self.lent(alloc);
        add_rest(&mut copy, self)?;
        Ok(copy)
    }

    /// The nodes that are lent.
    fn lent(&self, alloc: Global) -> Over<'a>
        ensures { result ≡ take (length result) self.now }
    {
        let front = self.front.copy();
        Over::with_front(alloc, front)
    }
}

impl<'a> NodeTable for Over<'a> {
    ghost nodes = { λ s. s };

    fn len(&self) -> usize {
        self.front.len() + self.own.len()
    }

    fn get(&self, number: Term) -> Option<&Node> {
        let count = self.front.len();
        if number < count {
            self.front.get(number)
        } else {
            self.own.node(number - count)
        }
    }

    fn known_offset(&self, number: Term) -> Option<Offset> {
        let count = self.front.len();
        if number < count {
            self.front.offset(number)
        } else {
            read(&self.offsets, number - count)
        }
    }

    fn find(&self, op: &Op, parts: &[Term]) -> Option<Term> {
        match self.front.find(op, parts) {
            Some(number) => Some(number),
            None => match self.own.number_of(op, parts) {
                Some(number) => Some(self.front.len() + number),
                None => None,
            },
        }
    }
}

impl<'a> Arena for Over<'a> {
    fn push(&mut self, op: Op, parts: &[Term], offset: Offset) -> Result<(), AllocError> {
        push_node(&mut self.own, &mut self.offsets, op, parts, offset)?;
        Ok(())
    }

    fn cut(&mut self, len: usize) {
        let count = self.front.len();
        self.front.cut(len);
        let left = len.saturating_sub(count);
        self.own.truncate(left);
        self.offsets.truncate(left);
    }
}
