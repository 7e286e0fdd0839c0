//! How many clauses connectives have, and to what they are bound.

ghost use Rattle.std.specs.Prelude.{◌≡◌};
ghost use Rattle.df_clause.specs.Lines.{sides_count, equality_count, connective_count, bound_by};

use df_form::{Formula, Node, NodeTable, Op, Over, Sort};

fn sides_count(sort: Sort) -> usize
    ensures { result ≡ sides_count sort }
{
    match sort {
        Sort::Number => 3,
        Sort::Truth | Sort::Character => 0,
    }
}

fn equality_count(nodes: &Over, parts: &[usize]) -> usize
    ensures { result ≡ equality_count nodes.now parts.now }
{
    match parts {
        [] => 0,
        [a, ..] => sides_count(nodes.sort(*a)),
    }
}

/// How many defining clauses a node has.
pub(crate) fn connective_count(nodes: &Over, node: &Node) -> usize
    ensures { result ≡ connective_count nodes.now node.now.op node.now.parts.items }
{
    match node.op {
        Op::Not => 2,
        Op::And | Op::Or => node.parts.len() + 1,
        Op::Implies => 3,
        Op::Iff => 4,
        Op::Equal => equality_count(nodes, node.parts.as_slice()),
        Op::Number(_) | Op::Free(_) | Op::Plus | Op::Times | Op::AtMost | Op::Of(_, _) => 0,
    }
}

/// The equality to which a clause of a connective is bound.
pub(crate) fn bound_by(number: usize, op: Op) -> Option<Formula>
    ensures { result ≡ bound_by number op }
{
    match op {
        Op::Equal => Some(number),
        Op::Number(_)
        | Op::Free(_)
        | Op::Plus
        | Op::Times
        | Op::AtMost
        | Op::Not
        | Op::And
        | Op::Or
        | Op::Implies
        | Op::Iff
        | Op::Of(_, _) => None,
    }
}
