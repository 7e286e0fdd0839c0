//! Comparisons: they are made where they do not stand yet.

ghost use Rattle.std.specs.Prelude.{◌≡◌, ◌≤◌, length, IfOk};
ghost use Rattle.df_form.specs.Made.{made};
ghost use Rattle.df_form.specs.Sorting.{is_well_sorted};
ghost use Rattle.df_rules.specs.Bound.{at_most};
ghost use Rattle.df_rules.specs.Growth.{Grows, IsNumber};

use df_form::{Arena, Op, Over};
use std::alloc::AllocError;

/// The number of `left <= right`, which is made where it does not stand yet.
pub fn comparison(nodes: &mut Over, left: usize, right: usize) -> Result<usize, AllocError>
    requires left { IsNumber nodes.old left }
    requires right { IsNumber nodes.old right }
    ensures made { IfOk result (λ n. made nodes.old (at_most left right) ≡ record { nodes = nodes.new; number = n }) }
    ensures grows { Grows nodes.old nodes.new }
    ensures longer { length nodes.old ≤ length nodes.new }
{
    nodes.add(Op::AtMost, &[left, right])
}
