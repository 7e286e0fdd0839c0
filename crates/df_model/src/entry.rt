//! The numbers of nodes in a table that looks into literals, sums, constant multiples, comparisons and
//! connectives alone.

ghost use Rattle.std.specs.Prelude.{◌≡◌, pos, length, map};
ghost use Rattle.df_table.specs.TableModel.{number_at};
ghost use Rattle.df_cong.specs.Congruence.{label_at};
ghost use Rattle.df_model.specs.TableNumbers.{basis_of, has_true, free_number, formula_truth, narrow_product, narrow_by, first_factor};

use crate::parts::{
    are_all_true, is_any_true, is_part_true, is_same_truth, number_at, number_of_truth, part,
};
use df_form::{Free, Lit, Node, Op, Over, Sort};
use df_table::literal;

/// The label of a node; what is no node has its own number.
pub(crate) fn label_at(labels: &[usize], node: usize) -> usize
    ensures { result ≡ label_at labels.now node }
{
    match labels.get(node) {
        Some(label) => *label,
        None => node,
    }
}

/// Whether a formula of the node's label is among the facts.
fn has_true(labels: &[usize], facts: &[Lit], node: usize) -> bool
    ensures { result ≡ has_true (label_at labels.now) facts.now node }
{
    let label = label_at(labels, node);
    facts.iter().any(|fact| fact.positive && label_at(labels, fact.node) == label)
}

/// The label of a node as a number.
fn code(labels: &[usize], node: usize) -> i128
    ensures { result ≡ pos (label_at labels.now node) }
{
    label_at(labels, node) as i128
}

/// The number of a free term or of a symbol.
fn free_number(numbers: &[i128], labels: &[usize], facts: &[Lit], node: usize, sort: Sort) -> i128
    ensures { result ≡ free_number (basis_of numbers.now labels.now facts.now) node sort }
{
    match sort {
        Sort::Number => number_at(numbers, node),
        Sort::Truth => number_of_truth(has_true(labels, facts, node)),
        Sort::Character => code(labels, node),
    }
}

/// Whether an equality, a comparison or a connective is true.
#[tactic(auto, using(df_lemmas::proofs::Lists::mapped))]
pub(crate) fn formula_truth(table: &[i128], op: Op, parts: &[usize]) -> bool
    ensures { result ≡ formula_truth op (map (number_at table.now) parts.now) }
{
    match op {
        Op::Equal => part(table, parts, 0) == part(table, parts, 1),
        Op::AtMost => part(table, parts, 0) <= part(table, parts, 1),
        Op::Not => !is_part_true(table, parts, 0),
        Op::And => are_all_true(table, parts),
        Op::Or => is_any_true(table, parts),
        Op::Implies => !is_part_true(table, parts, 0) || is_part_true(table, parts, 1),
        Op::Iff => is_same_truth(is_part_true(table, parts, 0), is_part_true(table, parts, 1)),
        Op::Number(_) | Op::Free(_) | Op::Plus | Op::Times | Op::Of(_, _) => false,
    }
}

/// The number of the first part, where it is a literal.
fn first_factor(nodes: &Over, parts: &[usize]) -> Option<i128>
    ensures { result ≡ first_factor nodes.now parts.now }
{
    match parts {
        [] => None,
        [first, ..] => literal(nodes, *first),
    }
}

/// So many times a number, where it has 128 bits; without a factor, the number that is given.
fn product_number(factor: Option<i128>, number: i128, own: i128) -> Option<i128>
    ensures { result ≡ narrow_product factor number own }
{
    match factor {
        None => Some(own),
        Some(factor) => factor.checked_mul(number),
    }
}

/// The number of the node that comes next after those of the table, where it has 128 bits.
pub(crate) fn next_number(
    nodes: &Over,
    numbers: &[i128],
    labels: &[usize],
    facts: &[Lit],
    table: &[i128],
    node: &Node,
) -> Option<i128>
    ensures { result ≡ narrow_by (basis_of numbers.now labels.now facts.now) (length table.now) (first_factor nodes.now node.now.parts.items) node.now.op (map (number_at table.now) node.now.parts.items) }
{
    let parts = node.parts.as_slice();
    let next = table.len();
    match node.op {
        Op::Number(number) => Some(number),
        Op::Free(Free { sort, .. }) => Some(free_number(numbers, labels, facts, next, sort)),
        Op::Plus => part(table, parts, 0).checked_add(part(table, parts, 1)),
        Op::Times => product_number(
            first_factor(nodes, parts),
            part(table, parts, 1),
            number_at(numbers, next),
        ),
        Op::Of(_, _) => Some(free_number(numbers, labels, facts, next, node.op.sort())),
        Op::Equal | Op::AtMost | Op::Not | Op::And | Op::Or | Op::Implies | Op::Iff => {
            Some(number_of_truth(formula_truth(table, node.op, parts)))
        }
    }
}
