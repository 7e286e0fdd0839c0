//! Congruence: equal arguments of one operation give equal results.

ghost use Rattle.std.specs.Prelude.{◌≡◌, length};
ghost use Rattle.std.specs.Ordering.{int_eq};
ghost use Rattle.df_form.specs.Node.{node_of, same_op};
ghost use Rattle.df_table.specs.TableModel.{number_at};
ghost use Rattle.df_table.specs.Testing.{same_numbers, agree_at, agree, agrees_with_all, is_congruent};

use crate::table::Table;
use df_form::{Node, NodeTable, Op, Over};

fn is_same_number(table: &Table, x: usize, y: usize) -> bool
    ensures { result ≡ int_eq (number_at table.now x) (number_at table.now y) }
{
    table.number(x) == table.number(y)
}

/// Whether two lists of nodes have the same numbers.
#[tactic(auto, using(crate::proofs::Below::below_more, crate::proofs::Below::below_fails))]
fn same_numbers(table: &Table, xs: &[usize], ys: &[usize]) -> bool
    ensures { result ≡ same_numbers table.now xs.now ys.now }
{
    if xs.len() != ys.len() {
        return false;
    }
    for i in 0..xs.len() {
        if !is_same_number(table, xs[i], ys[i]) {
            return false;
        }
    }
    true
}

#[tactic(auto, unfolding(df_form::specs::Symbol::same_symbol))]
fn is_same_op(a: Op, b: Op) -> bool
    ensures { result ≡ same_op a b }
{
    a == b
}

fn agree_at(table: &Table, m: usize, n: usize, a: &Node, b: &Node) -> bool
    ensures { result ≡ agree_at table.now m n (node_of a.now) (node_of b.now) }
{
    table.number(m) == table.number(n)
        || !is_same_op(a.op, b.op)
        || !same_numbers(table, a.parts.as_slice(), b.parts.as_slice())
}

pub(crate) fn agree(nodes: &Over, table: &Table, m: usize, n: usize) -> bool
    ensures { result ≡ agree nodes.now table.now m n }
{
    match (nodes.get(m), nodes.get(n)) {
        (Some(a), Some(b)) => agree_at(table, m, n, a, b),
        (None, _) | (Some(_), None) => true,
    }
}

#[tactic(auto, using(crate::proofs::Below::below_more, crate::proofs::Below::below_fails))]
fn agrees_with_all(nodes: &Over, table: &Table, m: usize) -> bool
    ensures { result ≡ agrees_with_all nodes.now table.now m }
{
    for n in 0..nodes.len() {
        if !agree(nodes, table, m, n) {
            return false;
        }
    }
    true
}

/// Whether any two nodes of one operation with equal arguments have equal numbers.
#[tactic(auto, using(crate::proofs::Below::below_more, crate::proofs::Below::below_fails))]
pub(crate) fn is_congruent(nodes: &Over, table: &Table) -> bool
    ensures { result ≡ is_congruent nodes.now table.now }
{
    for m in 0..nodes.len() {
        if !agrees_with_all(nodes, table, m) {
            return false;
        }
    }
    true
}
