//! Nodes in the order of their numbers, equal ones once.

ghost use Rattle.std.specs.Prelude.{◌≡◌, ◌++◌, ◌∷◌, [], None, IfOk, OnOk, OnErr};
ghost use Rattle.df_form.specs.Node.{number_of};

use crate::arena::{Arena, add_rest};
use crate::node::{Node, Op, Term};
use crate::node_table::NodeTable;
use crate::offset::{Offset, read};
use crate::own_nodes::OwnNodes;
use std::alloc::{AllocError, Global};
use std::marker::Model;

/// Nodes by their numbers, which count from 0. Each is well sorted after those before it, and no two
/// are equal.
#[derive(Drop)]
pub struct Nodes {
    own: OwnNodes,
    /// What they are.
    offsets: Vec<Offset>,
}

impl Model for Nodes {
    ghost use Rattle.std.specs.Prelude.{List, ◌≡◌, ◌<◌, ◌^◌, length};
    ghost use Rattle.df_form.specs.Node as pure;
    ghost use Rattle.df_form.specs.Sorting as sorting;
    ghost use Rattle.df_form.specs.Offset as offset;

    ghost Value = { List pure.Node };

    ghost view = { λ s. s.own };

    ghost invariant = { λ s. sorting.IsTable s.own × (length s.own < 2 ^ 63) × (offset.offsets s.own ≡ s.offsets.items) };
}

/// Adds the operation on these parts, which is none of the nodes, with what it is.
pub(crate) fn push_node(
    own: &mut OwnNodes,
    offsets: &mut Vec<Offset>,
    op: Op,
    parts: &[Term],
    offset: Offset,
) -> Result<(), AllocError>
    requires { number_of own.old (record { op = op; parts = parts.now }) ≡ None }
    ensures own { OnOk result (own.new ≡ own.old ++ (record { op = op; parts = parts.now }) ∷ []) }
    ensures offsets { OnOk result (offsets.new.items ≡ offsets.old.items ++ offset ∷ []) }
    ensures err { OnErr result ((own.new ≡ own.old) × (offsets.new.items ≡ offsets.old.items)) }
{
    // With this room the last push cannot fail.
    offsets.reserve(1)?;
    own.push(op, parts)?;
    offsets.push(offset)?;
    Ok(())
}

impl Nodes {
    /// No nodes.
    pub fn new(alloc: Global) -> Nodes
        ensures { result ≡ [] }
    {
        Nodes {
            own: OwnNodes::new(alloc),
            offsets: Vec::new(alloc),
        }
    }

    /// The same nodes once more.
    #[tactic(auto, using(crate::proofs::Tables::copied_none))]
    pub fn copy(&self, alloc: Global) -> Result<Nodes, AllocError>
        ensures { IfOk result (λ copy. copy ≡ self.now) }
    {
        let mut copy = Nodes::new(alloc);
        add_rest(&mut copy, self)?;
        Ok(copy)
    }
}

impl NodeTable for Nodes {
    ghost nodes = { λ s. s };

    fn len(&self) -> usize {
        self.own.len()
    }

    fn get(&self, number: Term) -> Option<&Node> {
        self.own.node(number)
    }

    fn known_offset(&self, number: Term) -> Option<Offset> {
        read(&self.offsets, number)
    }

    fn find(&self, op: &Op, parts: &[Term]) -> Option<Term> {
        self.own.number_of(op, parts)
    }
}

impl Arena for Nodes {
    fn push(&mut self, op: Op, parts: &[Term], offset: Offset) -> Result<(), AllocError> {
        push_node(&mut self.own, &mut self.offsets, op, parts, offset)?;
        Ok(())
    }

    fn cut(&mut self, len: usize) {
        self.own.truncate(len);
        self.offsets.truncate(len);
    }
}
