//! Where ways join.

ghost use Rattle.std.specs.Prelude.{◌≡◌, ◌≤◌, false, length, filter, OnOk};
ghost use Rattle.df_nghost.specs.mirror.Listed.{holds};
ghost use Rattle.df_nghost.specs.mirror.Known.{Joins};

use crate::assigned::Assigned;
use df_base::{Global, Memory};

/// What is known where ways join that begin at one point.
#[derive(Drop)]
pub(crate) struct Join {
    /// Whether a path comes there.
    pub(crate) reached: bool,
    /// The locals that take a value on each way that comes there.
    pub(crate) taken: Vec<usize>,
    pub(crate) alloc: Global,
}

/// Keeps the locals that have a value.
fn keep(locals: &mut Vec<usize>, assigned: &Assigned)
    ensures { locals.new.items ≡ filter (λ local. holds assigned.now.values.listed.items local) locals.old.items }
{
    locals.retain(|local| assigned.holds(*local));
}

impl Join {
    /// No way joins yet.
    pub(crate) fn new(alloc: Global) -> Join
        ensures { result.reached ≡ false }
    {
        Join {
            reached: false,
            taken: Vec::new(alloc),
            alloc,
        }
    }

    /// A way joins that began where so many locals had taken their value.
    pub(crate) fn add(&mut self, way: &Assigned, count: usize) -> Result<(), Memory>
        requires { count ≤ length way.now.taken.items }
        ensures { OnOk result (Joins self.old self.new way.now count) }
    {
        if !way.reached {
            return Ok(());
        }
        if self.reached {
            keep(&mut self.taken, way);
            return Ok(());
        }
        self.taken = Vec::from_slice(self.alloc, &way.taken[count..])?;
        self.reached = true;
        Ok(())
    }
}
