//! The clauses of connectives.

ghost use Rattle.std.specs.Prelude.{◌≡◌, take, OnErr, List};
ghost use Rattle.df_form.specs.Node.{Node};
ghost use Rattle.df_rules.specs.Connective.{Added, connective_line};
ghost use Rattle.df_rules.specs.Instance.{Instantiates};

use crate::connecting::connective_clause_of;
use df_axiom::{AxiomFault, settle};
use df_form::{Lit, NodeTable, Over};
use std::alloc::Global;

/// The clause of this number of what the connective of a node means; an equality of numbers counts as
/// the `and` of its two comparisons. It is true whatever the free terms are. Nodes that it needs are
/// made; after a fault the nodes stand as before.
pub fn connective(
    alloc: Global,
    nodes: &mut Over,
    node: usize,
    clause: usize,
) -> Result<Vec<Lit>, AxiomFault>
    ensures { Instantiates nodes.old nodes.new result (connective_line nodes.old node clause) }
{
    let before = nodes.len();
    let found = connective_clause_of(alloc, nodes, node, clause);
    settle(nodes, before, found)
}
