//! Directed graphs.

ghost use Rattle.std.specs.Prelude.{◌≡◌, [], ◌∷◌, ◌++◌, length, map, replicate, slice_set, OnOk, IfOk};
ghost use Rattle.df_groups2.specs.GraphView.{lists_of, targets_of};
ghost use Rattle.df_groups2.specs.Reversed.{AddsEdges, IsReversed};

use df_base::{Global, Memory};

/// A graph: for each vertex, by its number, the targets of the edges from it.
#[derive(Drop)]
pub(crate) struct Graph {
    pub(crate) targets: Vec<Vec<usize>>,
}

/// Empty lists, so many.
fn empty_lists(alloc: Global, count: usize) -> Result<Vec<Vec<usize>>, Memory>
    ensures { IfOk result (λ lists. map (λ list. list.items) lists.items ≡ replicate count []) }
{
    let mut lists = Vec::with_capacity(alloc, count)?;
    for _vertex in 0..count {
        lists.push(Vec::new(alloc))?;
    }
    Ok(lists)
}

impl Graph {
    /// How many vertices there are.
    pub(crate) fn len(&self) -> usize
        ensures { result ≡ length (lists_of self.now) }
    {
        self.targets.len()
    }

    /// The targets of the edges from a vertex; one past the last has none.
    pub(crate) fn targets(&self, vertex: usize) -> &[usize]
        ensures { result.now ≡ targets_of self.now vertex }
    {
        match self.targets.get(vertex) {
            Some(targets) => targets,
            None => &[],
        }
    }

    /// Adds an edge, where there is such a source.
    fn add(&mut self, source: usize, target: usize) -> Result<(), Memory>
        ensures { OnOk result (lists_of self.new ≡ slice_set (lists_of self.old) source (targets_of self.old source ++ target ∷ [])) }
    {
        if source < self.targets.len() {
            self.targets[source].push(target)?;
        }
        Ok(())
    }

    /// Adds edges from these vertices to one.
    fn add_all(&mut self, sources: &[usize], target: usize) -> Result<(), Memory>
        ensures { OnOk result (AddsEdges (lists_of self.old) (lists_of self.new) sources.now target) }
    {
        for source in sources {
            self.add(*source, target)?;
        }
        Ok(())
    }

    /// The graph with its edges backwards.
    pub(crate) fn reversed(&self, alloc: Global) -> Result<Graph, Memory>
        ensures { IfOk result (λ back. IsReversed (lists_of self.now) (lists_of back)) }
    {
        let mut back = Graph {
            targets: empty_lists(alloc, self.len())?,
        };
        for (vertex, targets) in self.targets.iter().enumerate() {
            back.add_all(targets, vertex)?;
        }
        Ok(back)
    }
}
