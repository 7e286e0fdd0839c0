//! The groups of a program.

ghost use Rattle.std.specs.Prelude.{IfOk};
ghost use Rattle.df_types.specs.View.{program_of};
ghost use Rattle.df_types.specs.Calls.{AreGroups};

use crate::call_graph::call_graph;
use crate::components::components;
use df_base::{Global, Memory};
use df_types::Program;

/// The number of the group of each declaration, in the order of the program: those are of one group of which
/// each comes to the other by calls, and a call goes to a group that is no later. `Memory` where memory is
/// refused.
pub fn groups(alloc: Global, program: &Program) -> Result<Vec<usize>, Memory>
    ensures { IfOk result (λ groups. AreGroups (program_of program.now) groups.items) }
{
    let graph = call_graph(alloc, program)?;
    components(alloc, &graph)
}
