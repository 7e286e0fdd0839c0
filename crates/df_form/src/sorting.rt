//! Sorts: what an operation takes, and what it gives.

ghost use Rattle.std.specs.Prelude.{◌≡◌, nat_lt, length, map};
ghost use Rattle.std.specs.List.{list_all};
ghost use Rattle.df_form.specs.Node.{same_sort};
ghost use Rattle.df_form.specs.Symbol.{row_of, filled};
ghost use Rattle.df_form.specs.Types.{sort_of_type};
ghost use Rattle.df_form.specs.Sorting.{sort_of, sort_at, takes, is_one, are_two, are_two_values, are_each, takes_by};

use crate::node::{Op, Sort};
use crate::node_table::NodeTable;
use crate::symbol::{Pattern, Payload, Symbol};
use df_lang::Ty;

/// The sort of the values of a type.
pub fn sort_of_type(ty: Ty) -> Sort
    ensures { result ≡ sort_of_type ty }
{
    match ty {
        Ty::Newtype(_) | Ty::Int | Ty::Nat => Sort::Number,
        Ty::Bool => Sort::Truth,
        Ty::Char => Sort::Character,
    }
}

impl Op {
    /// The sort of the value that it gives.
    pub fn sort(&self) -> Sort
        ensures { result ≡ sort_of self.now }
    {
        match self {
            Op::Number(_) | Op::Plus | Op::Times => Sort::Number,
            Op::Free(free) => free.sort,
            Op::Equal | Op::AtMost | Op::Not | Op::And | Op::Or | Op::Implies | Op::Iff =>
                Sort::Truth,
            Op::Of(symbol, payload) => symbol.given().filled(*payload),
        }
    }
}

/// Whether the sorts are one.
pub(crate) fn is_same(a: Sort, b: Sort) -> bool
    ensures { result ≡ same_sort a b }
{
    match (a, b) {
        (Sort::Number, Sort::Number)
        | (Sort::Truth, Sort::Truth)
        | (Sort::Character, Sort::Character) => true,
        (Sort::Number, Sort::Truth | Sort::Character)
        | (Sort::Truth, Sort::Number | Sort::Character)
        | (Sort::Character, Sort::Number | Sort::Truth) => false,
    }
}

/// Whether there is one part, of this sort.
fn is_one<A: NodeTable>(nodes: &A, sort: Sort, parts: &[usize]) -> bool
    ensures { result ≡ is_one sort (map (sort_at (A.nodes nodes.now)) parts.now) }
{
    match parts {
        [part] => is_same(nodes.sort(*part), sort),
        [] | [_, _, ..] => false,
    }
}

/// Whether there are two parts, of this sort.
fn are_two<A: NodeTable>(nodes: &A, sort: Sort, parts: &[usize]) -> bool
    ensures { result ≡ are_two sort (map (sort_at (A.nodes nodes.now)) parts.now) }
{
    match parts {
        [left, right] => is_same(nodes.sort(*left), sort) && is_same(nodes.sort(*right), sort),
        [] | [_] | [_, _, _, ..] => false,
    }
}

fn are_two_values<A: NodeTable>(nodes: &A, parts: &[usize]) -> bool
    ensures { result ≡ are_two_values (map (sort_at (A.nodes nodes.now)) parts.now) }
{
    are_two(nodes, Sort::Number, parts) || are_two(nodes, Sort::Character, parts)
}

/// Whether the parts are of these sorts, one by one.
fn are_each<A: NodeTable>(nodes: &A, payload: Payload, taken: &[Pattern], parts: &[usize]) -> bool
    ensures { result ≡ are_each (map (filled payload) taken.now) (map (sort_at (A.nodes nodes.now)) parts.now) }
{
    match taken {
        [] => parts.is_empty(),
        [pattern, others @ ..] => match parts {
            [] => false,
            [part, more @ ..] => {
                is_same(nodes.sort(*part), pattern.filled(payload))
                    && are_each(nodes, payload, others, more)
            }
        },
    }
}

/// Whether a symbol takes these parts, where this stands with it.
fn takes_by<A: NodeTable>(nodes: &A, symbol: Symbol, payload: Payload, parts: &[usize]) -> bool
    ensures { result ≡ takes_by (row_of symbol) payload (map (sort_at (A.nodes nodes.now)) parts.now) }
{
    match symbol.row() {
        Some(row) => row.payload.accepts(payload) && are_each(nodes, payload, row.taken, parts),
        None => false,
    }
}

fn are_truths<A: NodeTable>(nodes: &A, parts: &[usize]) -> bool
    ensures { result ≡ list_all (λ part. same_sort Sort.Truth (sort_at (A.nodes nodes.now) part)) parts.now }
{
    parts
        .iter()
        .all(|part| is_same(Sort::Truth, nodes.sort(*part)))
}

/// Whether the operation takes these parts.
#[tactic(auto, using(df_lemmas::proofs::Lists::mapped))]
pub(crate) fn takes<A: NodeTable>(nodes: &A, op: Op, parts: &[usize]) -> bool
    ensures { result ≡ takes op (map (sort_at (A.nodes nodes.now)) parts.now) }
{
    match op {
        Op::Number(_) | Op::Free(_) => parts.is_empty(),
        Op::Plus | Op::Times | Op::AtMost => are_two(nodes, Sort::Number, parts),
        Op::Equal => are_two_values(nodes, parts),
        Op::Not => is_one(nodes, Sort::Truth, parts),
        Op::And | Op::Or => are_truths(nodes, parts),
        Op::Implies | Op::Iff => are_two(nodes, Sort::Truth, parts),
        Op::Of(symbol, payload) => takes_by(nodes, symbol, payload, parts),
    }
}

/// Whether each part is one of the nodes.
pub(crate) fn are_there<A: NodeTable>(nodes: &A, parts: &[usize]) -> bool
    ensures { result ≡ list_all (λ part. nat_lt part (length (A.nodes nodes.now))) parts.now }
{
    let len = nodes.len();
    parts.iter().all(|part| *part < len)
}
