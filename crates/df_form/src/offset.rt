//! Nodes as sums of another node, their base, and a number.

ghost use Rattle.std.specs.Prelude.{◌≡◌, length, slice_get};
ghost use Rattle.df_form.specs.Offset.{itself, on_base, of_sum, of_parts, offset_of};

use crate::node::{Op, Term};
use crate::node_table::NodeTable;

/// What a node is: another one, its base, and so much more; or a number, where it has no base.
#[derive(Clone, Copy)]
pub struct Offset {
    pub base: Option<Term>,
    pub constant: i128,
}

/// What stands at a place.
pub(crate) fn read(offsets: &[Offset], place: usize) -> Option<Offset>
    ensures { result ≡ slice_get offsets.now place }
{
    match offsets.get(place) {
        Some(offset) => Some(*offset),
        None => None,
    }
}

impl Offset {
    /// The node itself.
    pub(crate) fn itself(number: Term) -> Offset
        ensures { result ≡ itself number }
    {
        Offset {
            base: Some(number),
            constant: 0,
        }
    }

    /// A sum, by the bases of its sides.
    fn on_base(number: Term, left: Option<Term>, right: Option<Term>, constant: i128) -> Offset
        ensures { result ≡ on_base number left right constant }
    {
        match (left, right) {
            (base, None) => Offset { base, constant },
            (None, Some(base)) => Offset {
                base: Some(base),
                constant,
            },
            (Some(_), Some(_)) => Offset::itself(number),
        }
    }

    /// A sum, by its sides.
    fn of_sum(number: Term, left: Offset, right: Offset) -> Offset
        ensures { result ≡ of_sum number left right }
    {
        match left.constant.checked_add(right.constant) {
            Some(constant) => Offset::on_base(number, left.base, right.base, constant),
            None => Offset::itself(number),
        }
    }
}

/// What the operation on these parts would be that comes next.
pub(crate) fn next_offset<A: NodeTable>(nodes: &A, op: Op, parts: &[Term]) -> Offset
    ensures { result ≡ of_parts (offset_of (A.nodes nodes.now)) (length (A.nodes nodes.now)) op parts.now }
{
    let number = nodes.len();
    match (op, parts) {
        (Op::Number(constant), _) => Offset {
            base: None,
            constant,
        },
        (Op::Plus, [a, b]) => Offset::of_sum(number, nodes.offset(*a), nodes.offset(*b)),
        _ => Offset::itself(number),
    }
}
