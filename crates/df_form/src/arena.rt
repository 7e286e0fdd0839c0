//! Nodes by their numbers, wherever they lie: adding some.

ghost use Rattle.std.specs.Prelude.{◌≡◌, ◌<◌, ◌≤◌, ◌-◌, ◌^◌, ◌++◌, ◌∷◌, [], None, true, length, take, IfOk, OnOk, OnErr};
ghost use Rattle.df_form.specs.Made.{made};
ghost use Rattle.df_form.specs.Node.{number_of};
ghost use Rattle.df_form.specs.Offset.{offset_of, of_parts};
ghost use Rattle.df_form.specs.Sorting.{is_well_sorted};

use crate::node::{Op, Term};
use crate::node_table::NodeTable;
use crate::offset::{Offset, next_offset};
use std::alloc::AllocError;

/// The largest number of nodes.
const LIMIT: usize = 0x7fff_ffff_ffff_ffff;

/// A table of nodes to which others can be added.
pub trait Arena: NodeTable {
    /// Adds the operation on these parts, which is none of the nodes, with what it is.
    fn push(&mut self, op: Op, parts: &[Term], offset: Offset) -> Result<(), AllocError>
        requires new { number_of (Self.nodes self.old) (record { op = op; parts = parts.now }) ≡ None }
        requires sorted { is_well_sorted (Self.nodes self.old) (record { op = op; parts = parts.now }) ≡ true }
        requires offset { offset ≡ of_parts (offset_of (Self.nodes self.old)) (length (Self.nodes self.old)) op parts.now }
        requires room { length (Self.nodes self.old) < 2 ^ 63 - 1 }
        ensures pushed { OnOk result (Self.nodes self.new ≡ Self.nodes self.old ++ (record { op = op; parts = parts.now }) ∷ []) }
        ensures err { OnErr result (Self.nodes self.new ≡ Self.nodes self.old) };

    /// Takes the nodes from this number on away.
    fn cut(&mut self, len: usize)
        ensures { Self.nodes self.new ≡ take len (Self.nodes self.old) };

    /// The number of the operation on these parts, which is added last where it is none of the nodes.
    final fn add(&mut self, op: Op, parts: &[Term]) -> Result<Term, AllocError>
        requires { is_well_sorted (Self.nodes self.old) (record { op = op; parts = parts.now }) ≡ true }
        ensures made { IfOk result (λ number. made (Self.nodes self.old) (record { op = op; parts = parts.now }) ≡ record { nodes = Self.nodes self.new; number = number }) }
        ensures err { OnErr result (Self.nodes self.new ≡ Self.nodes self.old) }
        ensures longer { length (Self.nodes self.old) ≤ length (Self.nodes self.new) }
    {
        if let Some(number) = self.find(&op, parts) {
            return Ok(number);
        }
        let number = self.len();
        if number >= LIMIT {
            return Err(AllocError);
        }
        let offset = next_offset(self, op, parts);
        self.push(op, parts, offset)?;
        Ok(number)
    }
}

/// Adds the nodes that come after so many in another arena, in their order.
pub(crate) fn add_rest<A: Arena, B: NodeTable>(copy: &mut A, nodes: &B) -> Result<(), AllocError>
    requires { A.nodes copy.old ≡ take (length (A.nodes copy.old)) (B.nodes nodes.now) }
    ensures { OnOk result (A.nodes copy.new ≡ B.nodes nodes.now) }
{
    // The nodes are a table.
    let _nodes = nodes.len();
    while let Some(node) = nodes.get(copy.len()) {
        copy.add(node.op, node.parts.as_slice())?;
    }
    Ok(())
}
