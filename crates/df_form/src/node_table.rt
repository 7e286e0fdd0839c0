//! Nodes by their numbers, wherever they lie: reading them.

ghost use Rattle.std.specs.Prelude.{◌≡◌, ◌<◌, ◌^◌, Some, true, length, take, slice_get, IfSome};
ghost use Rattle.std.specs.Option.{option_map};
ghost use Rattle.df_form.specs.Clause.{are_literals};
ghost use Rattle.df_form.specs.Node.{node_of, number_of};
ghost use Rattle.df_form.specs.Offset.{offsets, offset_of};
ghost use Rattle.df_form.specs.Sorting.{IsTable, is_well_sorted, is_formula, sort_at};

use crate::log::Lit;
use crate::node::{Node, Op, Sort, Term};
use crate::offset::Offset;
use crate::sorting::{are_there, is_same, takes};

/// Nodes by their numbers, which count from 0. Each is well sorted after those before it, and no two are equal: so each
/// number stands for one tree, and different numbers stand for different trees.
pub trait NodeTable {
    ghost use Rattle.std.specs.Prelude.{List};
    ghost use Rattle.df_form.specs.Node as pure;

    /// The nodes in the order of their numbers.
    ghost nodes: { Self → List pure.Node };

    /// How many there are.
    fn len(&self) -> usize
        ensures len { result ≡ length (nodes self.now) }
        ensures small { result < 2 ^ 63 }
        ensures table { IsTable (nodes self.now) };

    /// The node of a number, if there is one.
    fn get(&self, number: Term) -> Option<&Node>
        ensures node { option_map (λ node. node_of node.now) result ≡ slice_get (nodes self.now) number }
        ensures sorted { IfSome result (λ node. is_well_sorted (take number (nodes self.now)) (node_of node.now) ≡ true) };

    /// What the node of a number is, if there is one.
    fn known_offset(&self, number: Term) -> Option<Offset>
        ensures { result ≡ slice_get (offsets (nodes self.now)) number };

    /// The number of the operation on these parts: none exactly where it is none of the nodes.
    fn find(&self, op: &Op, parts: &[Term]) -> Option<Term>
        ensures { result ≡ number_of (nodes self.now) (record { op = op.now; parts = parts.now }) };

    /// The operation of a node.
    final fn op(&self, number: Term) -> &Op
        requires { number < length (nodes self.now) }
        ensures { option_map (λ node. node.op) (slice_get (nodes self.now) number) ≡ Some result.now }
    {
        match self.get(number) {
            Some(node) => &node.op,
            None => unreachable!(),
        }
    }

    /// The parts of a node, in their order.
    final fn parts(&self, number: Term) -> &[Term]
        requires { number < length (nodes self.now) }
        ensures { option_map (λ node. node.parts) (slice_get (nodes self.now) number) ≡ Some result.now }
    {
        match self.get(number) {
            Some(node) => node.parts.as_slice(),
            None => unreachable!(),
        }
    }

    /// What the node of a number is: a literal has no base, and a sum of which one side has none has that of the other side;
    /// any other node is its own base, as is a sum whose constant is past 128 bits.
    final fn offset(&self, number: Term) -> Offset
        ensures { result ≡ offset_of (nodes self.now) number }
    {
        match self.known_offset(number) {
            Some(offset) => offset,
            None => Offset::itself(number),
        }
    }

    /// The sort of the node of a number; that of numbers where there is none.
    final fn sort(&self, number: Term) -> Sort
        ensures { result ≡ sort_at (nodes self.now) number }
    {
        match self.get(number) {
            Some(node) => node.op.sort(),
            None => Sort::Number,
        }
    }

    /// Whether a number names a formula.
    final fn is_formula(&self, number: Term) -> bool
        ensures { result ≡ is_formula (nodes self.now) number }
    {
        number < self.len() && is_same(self.sort(number), Sort::Truth)
    }

    /// Whether each literal is of a formula.
    final fn are_literals(&self, literals: &[Lit]) -> bool
        ensures { result ≡ are_literals (nodes self.now) literals.now }
    {
        literals.iter().all(|literal| self.is_formula(literal.node))
    }

    /// Whether the operation on these parts may stand after the nodes: its parts are among them, of the sorts that it takes.
    final fn admits(&self, op: Op, parts: &[Term]) -> bool
        ensures { result ≡ is_well_sorted (nodes self.now) (record { op = op; parts = parts.now }) }
    {
        are_there(self, parts) && takes(self, op, parts)
    }
}
