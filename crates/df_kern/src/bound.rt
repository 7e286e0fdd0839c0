//! Comparisons of a node with a number: they are made where they do not stand yet.

ghost use Rattle.std.specs.Prelude.{◌≡◌, ◌≤◌, length, IfOk};
ghost use Rattle.df_form.specs.Made.{made};
ghost use Rattle.df_form.specs.Sorting.{is_well_sorted};
ghost use Rattle.df_rules.specs.Bound.{number as number_node, made_at_least, made_at_most};
ghost use Rattle.df_rules.specs.Growth.{Grows, IsNumber};

use df_form::{Arena, Op, Over};
use df_rules::comparison;
use std::alloc::AllocError;

/// The number of a number's node.
fn number_of(nodes: &mut Over, value: i128) -> Result<usize, AllocError>
    ensures made { IfOk result (λ n. made nodes.old (number_node value) ≡ record { nodes = nodes.new; number = n }) }
    ensures grows { Grows nodes.old nodes.new }
    ensures longer { length nodes.old ≤ length nodes.new }
{
    nodes.add(Op::Number(value), &[])
}

/// The number of `bound <= node`.
pub(crate) fn at_least_of(nodes: &mut Over, bound: i128, node: usize) -> Result<usize, AllocError>
    requires { IsNumber nodes.old node }
    ensures made { IfOk result (λ n. made_at_least nodes.old bound node ≡ record { nodes = nodes.new; number = n }) }
    ensures grows { Grows nodes.old nodes.new }
    ensures longer { length nodes.old ≤ length nodes.new }
{
    let low = number_of(nodes, bound)?;
    comparison(nodes, low, node)
}

/// The number of `node <= bound`.
pub(crate) fn at_most_of(nodes: &mut Over, node: usize, bound: i128) -> Result<usize, AllocError>
    requires { IsNumber nodes.old node }
    ensures made { IfOk result (λ n. made_at_most nodes.old node bound ≡ record { nodes = nodes.new; number = n }) }
    ensures grows { Grows nodes.old nodes.new }
    ensures longer { length nodes.old ≤ length nodes.new }
{
    let high = number_of(nodes, bound)?;
    comparison(nodes, node, high)
}
