//! Strongly connected components.

ghost use Rattle.std.specs.Prelude.{◌≡◌, ◌<◌, ◌≤◌, ◌+◌, ◌^◌, suc, [], length, map, OnOk, IfOk};
ghost use Rattle.std.specs.Option.{is_none, unwrap_or};
ghost use Rattle.df_groups2.specs.GraphView.{lists_of, targets_of};
ghost use Rattle.df_groups2.specs.Filling.{group_in, IsFilling, TakesPending, filling_work};
ghost use Rattle.df_groups2.specs.Grouping.{LooksAt, AreComponents};

use crate::finishing::finishing_order;
use crate::graph::Graph;
use df_base::{Global, Memory};

/// The groups so far.
#[derive(Drop)]
struct Grouping {
    /// The group of each vertex that has one.
    groups: Vec<Option<usize>>,
    /// How many groups there are.
    count: usize,
}

/// Whether a vertex has no group; one past the last counts as one of group 0.
fn is_free(groups: &[Option<usize>], vertex: usize) -> bool
    ensures { result ≡ is_none (group_in groups.now vertex) }
{
    vertex < groups.len() && groups[vertex].is_none()
}

impl Grouping {
    /// Takes a vertex into the next group, if it has none; then the targets of its edges are pending.
    fn take(&mut self, graph: &Graph, pending: &mut Vec<usize>, vertex: usize) -> Result<(), Memory>
        ensures keeps { OnOk result (TakesPending (targets_of graph.now) self.old.count vertex self.old.groups.items pending.old.items self.new.groups.items pending.new.items) }
        ensures falls { OnOk result (filling_work (targets_of graph.now) self.new.groups.items pending.new.items < suc (filling_work (targets_of graph.now) self.old.groups.items pending.old.items)) }
        ensures count { self.new.count ≡ self.old.count }
    {
        if is_free(&self.groups, vertex) {
            self.groups[vertex] = Some(self.count);
            pending.extend_from_slice(graph.targets(vertex))?;
        }
        Ok(())
    }

    /// Fills the next group with the vertices that are reached from the root and have none.
    fn fill(&mut self, alloc: Global, graph: &Graph, root: usize) -> Result<(), Memory>
        ensures filled { OnOk result (IsFilling (targets_of graph.now) root self.old.count self.old.groups.items self.new.groups.items []) }
        ensures count { self.new.count ≡ self.old.count }
    {
        let mut pending = vec![in alloc; root]?;
        while let Some(vertex) = pending.pop() {
            self.take(graph, &mut pending, vertex)?;
        }
        Ok(())
    }

    /// Makes the next group from a root, unless that has one.
    fn begin(&mut self, alloc: Global, graph: &Graph, root: usize) -> Result<(), Memory>
        requires { self.old.count < 2 ^ 63 }
        ensures keeps { OnOk result (LooksAt (lists_of graph.now) root self.old.count self.old.groups.items self.new.count self.new.groups.items) }
        ensures count { self.new.count ≤ self.old.count + 1 }
    {
        if is_free(&self.groups, root) {
            self.fill(alloc, graph, root)?;
            self.count += 1;
        }
        Ok(())
    }
}

/// The groups as numbers.
fn numbers(alloc: Global, groups: &[Option<usize>]) -> Result<Vec<usize>, Memory>
    ensures { IfOk result (λ numbers. numbers.items ≡ map (λ group. unwrap_or group 0) groups.now) }
{
    let mut numbers = Vec::with_capacity(alloc, groups.len())?;
    for group in groups {
        numbers.push(group.unwrap_or(0))?;
    }
    Ok(numbers)
}

/// The group of each vertex: its strongly connected component. An edge goes to a group that is no later.
pub(crate) fn components(alloc: Global, graph: &Graph) -> Result<Vec<usize>, Memory>
    ensures { IfOk result (λ groups. AreComponents (targets_of graph.now) (length (lists_of graph.now)) groups.items) }
{
    let back = graph.reversed(alloc)?;
    let order = finishing_order(alloc, &back)?;
    let mut grouping = Grouping {
        groups: vec![in alloc; None; graph.len()]?,
        count: 0,
    };
    for root in &order {
        grouping.begin(alloc, graph, *root)?;
    }
    numbers(alloc, &grouping.groups)
}
