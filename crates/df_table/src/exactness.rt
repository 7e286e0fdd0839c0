//! Operations that are looked into.

ghost use Rattle.std.specs.Prelude.{◌≡◌, ◌+ℤ◌, ◌*ℤ◌, slice_get};
ghost use Rattle.std.specs.Ordering.{int_eq};
ghost use Rattle.df_form.specs.Node.{node_of};
ghost use Rattle.df_meaning.specs.Value.{same_truth};
ghost use Rattle.df_row.specs.Row.{literal_number};
ghost use Rattle.df_table.specs.TableModel.{is_multiple, is_exact};
ghost use Rattle.df_table.specs.Testing.{exact_at, are_exact};

use crate::table::Table;
use df_form::{Node, NodeTable, Op, Over};

fn is_sum(a: i128, b: i128, total: i128) -> bool
    ensures { result ≡ int_eq (a +ℤ b) total }
{
    a.checked_add(b) == Some(total)
}

fn is_product(a: i128, b: i128, total: i128) -> bool
    ensures { result ≡ int_eq (a *ℤ b) total }
{
    a.checked_mul(b) == Some(total)
}

/// The number of a literal; `None` where the node is none.
pub fn literal(nodes: &Over, node: usize) -> Option<i128>
    ensures { result ≡ literal_number (slice_get nodes.now node) }
{
    match nodes.get(node)?.op {
        Op::Number(number) => Some(number),
        Op::Free(_)
        | Op::Plus
        | Op::Times
        | Op::Equal
        | Op::AtMost
        | Op::Not
        | Op::And
        | Op::Or
        | Op::Implies
        | Op::Iff
        | Op::Of(_, _) => None,
    }
}

fn is_multiple(factor: Option<i128>, number: i128, product: i128) -> bool
    ensures { result ≡ is_multiple factor number product }
{
    match factor {
        Some(factor) => is_product(factor, number, product),
        None => true,
    }
}

fn is_same_truth(a: bool, b: bool) -> bool
    ensures { result ≡ same_truth a b }
{
    a == b
}

fn is_exact(nodes: &Over, table: &Table, number: usize, node: &Node) -> bool
    ensures { result ≡ is_exact nodes.now table.now number node.now.op node.now.parts.items }
{
    match (node.op, node.parts.as_slice()) {
        (Op::Number(literal), _) => literal == table.number(number),
        (Op::Plus, [a, b]) => is_sum(table.number(*a), table.number(*b), table.number(number)),
        (Op::Times, [a, b]) => is_multiple(
            literal(nodes, *a),
            table.number(*b),
            table.number(number),
        ),
        (Op::Equal, [a, b]) => is_same_truth(
            table.is_true(number),
            table.number(*a) == table.number(*b),
        ),
        (Op::AtMost, [a, b]) => is_same_truth(
            table.is_true(number),
            table.number(*a) <= table.number(*b),
        ),
        _ => true,
    }
}

fn exact_at(nodes: &Over, table: &Table, number: usize) -> bool
    ensures { result ≡ exact_at nodes.now table.now number }
{
    match nodes.get(number) {
        Some(node) => is_exact(nodes, table, number, node),
        None => true,
    }
}

/// Whether literals, sums and constant multiples are exact, and comparisons are true just where the
/// numbers compare so.
#[tactic(auto, using(crate::proofs::Below::below_more, crate::proofs::Below::below_fails))]
pub(crate) fn are_exact(nodes: &Over, table: &Table) -> bool
    ensures { result ≡ are_exact nodes.now table.now }
{
    for number in 0..nodes.len() {
        if !exact_at(nodes, table, number) {
            return false;
        }
    }
    true
}
