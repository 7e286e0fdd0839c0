//! Nodes that break congruence.

ghost use Rattle.df_table.specs.Disagreement.{TellsDisagreement};
ghost use Rattle.df_table.specs.Testing.{FindsOther, FindsTwo};

use crate::congruence::agree;
use crate::table::Table;
use df_form::{NodeTable, Over, Pair};

/// A node that disagrees with this one.
#[tactic(auto, using(crate::proofs::Below::below_more))]
fn other(nodes: &Over, table: &Table, node: usize) -> Option<usize>
    ensures { FindsOther nodes.now table.now node result }
{
    for other in 0..nodes.len() {
        if !agree(nodes, table, node, other) {
            return Some(other);
        }
    }
    None
}

/// Two nodes that disagree.
#[tactic(auto, using(crate::proofs::Below::below_more))]
fn two(nodes: &Over, table: &Table) -> Option<Pair>
    ensures { FindsTwo nodes.now table.now result }
{
    for left in 0..nodes.len() {
        if let Some(right) = other(nodes, table, left) {
            return Some(Pair { left, right });
        }
    }
    None
}

/// Two nodes of one operation whose arguments have equal numbers, and that have other numbers; `None`
/// exactly where the table is congruent.
pub fn disagreement(nodes: &Over, table: &Table) -> Option<Pair>
    ensures { TellsDisagreement nodes.now table.now result }
{
    two(nodes, table)
}
