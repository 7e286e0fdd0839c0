//! Depth-first search.

ghost use Rattle.std.specs.Prelude.{◌≡◌, ◌<◌, ℕ, suc, [], ◌++◌, length, map, Contains, OnOk, IfOk};
ghost use Rattle.df_groups2.specs.GraphView.{lists_of, targets_of};
ghost use Rattle.df_groups2.specs.Finishing.{IsFinishingOrder};
ghost use Rattle.df_groups2.specs.Searching.{IsSearch, IsSearchBefore, search_work, is_entered, EnterEach};

use crate::graph::Graph;
use df_base::{Global, Memory};

/// A step of a search.
#[derive(Clone, Copy)]
enum Step {
    /// Enters a vertex, and then those at its edges; one that was entered before is passed over.
    Enter(usize),
    /// Leaves a vertex whose edges were all followed.
    Leave(usize),
}

/// A depth-first search on its way.
#[derive(Drop)]
struct Search {
    /// Which vertices were entered.
    entered: Vec<bool>,
    /// What is to be done, the next step last.
    steps: Vec<Step>,
    /// The vertices that were left, in this order.
    finished: Vec<usize>,
}

/// Steps that enter so many vertices.
fn enter_each(alloc: Global, count: usize) -> Result<Vec<Step>, Memory>
    ensures { IfOk result (λ steps. EnterEach count steps.items) }
{
    let mut steps = Vec::with_capacity(alloc, count)?;
    for vertex in 0..count {
        steps.push(Step::Enter(vertex))?;
    }
    Ok(steps)
}

/// Whether a vertex was entered; one past the last counts as entered.
fn has_entered(entered: &[bool], vertex: usize) -> bool
    ensures { result ≡ is_entered entered.now vertex }
{
    vertex >= entered.len() || entered[vertex]
}

impl Search {
    /// Follows the edges of a vertex later.
    fn follow(&mut self, targets: &[usize]) -> Result<(), Memory>
        ensures entered { self.new.entered ≡ self.old.entered }
        ensures finished { self.new.finished ≡ self.old.finished }
        ensures steps { OnOk result (self.new.steps.items ≡ self.old.steps.items ++ map Step.Enter targets.now) }
    {
        for target in targets {
            self.steps.push(Step::Enter(*target))?;
        }
        Ok(())
    }

    /// Takes a step.
    fn take(&mut self, graph: &Graph, step: Step) -> Result<(), Memory>
        ensures keeps { OnOk result ((count : ℕ) → IsSearchBefore (targets_of graph.now) count step self.old → IsSearch (targets_of graph.now) count self.new) }
        ensures falls { OnOk result (search_work (targets_of graph.now) self.new < suc (search_work (targets_of graph.now) self.old)) }
    {
        match step {
            Step::Enter(vertex) => {
                if has_entered(&self.entered, vertex) {
                    return Ok(());
                }
                self.entered[vertex] = true;
                self.steps.push(Step::Leave(vertex))?;
                self.follow(graph.targets(vertex))?;
            }
            Step::Leave(vertex) => self.finished.push(vertex)?,
        }
        Ok(())
    }

    /// Takes steps until none is left.
    fn run(&mut self, graph: &Graph) -> Result<(), Memory>
        ensures keeps { OnOk result ((count : ℕ) → IsSearch (targets_of graph.now) count self.old → IsSearch (targets_of graph.now) count self.new) }
        ensures done { OnOk result (self.new.steps.items ≡ []) }
    {
        while let Some(step) = self.steps.pop() {
            self.take(graph, step)?;
        }
        Ok(())
    }
}

/// The vertices in the order in which a depth-first search leaves them, the last one first.
pub(crate) fn finishing_order(alloc: Global, graph: &Graph) -> Result<Vec<usize>, Memory>
    ensures order { IfOk result (λ order. IsFinishingOrder (targets_of graph.now) order.items) }
    ensures all { IfOk result (λ order. (vertex : ℕ) → vertex < length (lists_of graph.now) → Contains order.items vertex) }
{
    let count = graph.len();
    let mut search = Search {
        entered: vec![in alloc; false; count]?,
        steps: enter_each(alloc, count)?,
        finished: Vec::new(alloc),
    };
    search.run(graph)?;
    search.finished.reverse();
    Ok(search.finished)
}
