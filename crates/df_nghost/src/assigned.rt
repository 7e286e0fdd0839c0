//! Which locals have a value at a point of a body.

ghost use Rattle.std.specs.Prelude.{◌≡◌, ◌≤◌, true, nat_lt, length, take, drop, map, IfOk, OnOk};
ghost use Rattle.df_lang.specs.StmtView.{target_of};
ghost use Rattle.df_lang.specs.Assignment as pure;
ghost use Rattle.df_nghost.specs.mirror.Listed.{holds, cleared, without};
ghost use Rattle.df_nghost.specs.mirror.Known.{assigned_of, joined_of, Extends};

use crate::join::Join;
use crate::values::Values;
use df_base::{Global, Memory};
use df_lang::Target;

/// Which locals have a value at a point of a body, by their numbers.
#[derive(Drop)]
pub(crate) struct Assigned {
    /// Whether a path comes there. Unreached code counts as assigned.
    pub(crate) reached: bool,
    /// The locals that have a value where a path comes there.
    pub(crate) values: Values,
    /// The locals that took their value in the body, in order.
    pub(crate) taken: Vec<usize>,
}

impl Assigned {
    /// Where a body opens: so many parameters have a value, and so many results behind them have none.
    pub(crate) fn at_entry(
        alloc: Global,
        parameters: usize,
        results: usize,
    ) -> Result<Assigned, Memory>
        ensures { IfOk result (λ assigned. assigned_of assigned ≡ pure.Reached (λ local. nat_lt local parameters)) }
    {
        Ok(Assigned {
            reached: true,
            values: Values::at_entry(alloc, parameters, results)?,
            taken: Vec::new(alloc),
        })
    }

    /// Whether the local has a value on each path that comes there.
    pub(crate) fn holds(&self, local: usize) -> bool
        ensures { result ≡ holds self.now.values.listed.items local }
    {
        self.values.holds(local)
    }

    /// Whether the local counts as assigned.
    pub(crate) fn has_value(&self, local: usize) -> bool
        ensures { result ≡ pure.has_value (assigned_of self.now) local }
    {
        !self.reached || self.holds(local)
    }

    /// Whether it is known without a look at each that so many results, behind so many parameters, count as assigned.
    pub(crate) fn has_results(&self, parameters: usize, results: usize) -> bool
        ensures { result ≡ true → without (pure.has_value (assigned_of self.now)) parameters results ≡ 0 }
    {
        !self.reached || self.values.has_results(parameters, results)
    }

    /// The local has a value from here on.
    pub(crate) fn assign(&mut self, local: usize) -> Result<(), Memory>
        ensures assigned { OnOk result (assigned_of self.new ≡ pure.mark true (assigned_of self.old) local) }
        ensures extends { OnOk result (Extends self.old self.new) }
    {
        if self.has_value(local) {
            return Ok(());
        }
        self.values.put(local)?;
        self.taken.push(local)?;
        Ok(())
    }

    /// The targets have a value from here on.
    pub(crate) fn assign_targets(&mut self, targets: &Vec<Target>) -> Result<(), Memory>
        ensures assigned { OnOk result (assigned_of self.new ≡ pure.assign (assigned_of self.old) (map target_of targets.now.items)) }
        ensures extends { OnOk result (Extends self.old self.new) }
    {
        for target in targets {
            self.assign(target.local)?;
        }
        Ok(())
    }

    /// No path goes on.
    pub(crate) fn leave(&mut self)
        ensures assigned { assigned_of self.new ≡ pure.Unreached }
        ensures extends { Extends self.old self.new }
    {
        self.reached = false;
    }

    /// Goes back to where so many locals had taken their value.
    pub(crate) fn back(&mut self, count: usize, reached: bool)
        requires { count ≤ length self.old.taken.items }
        ensures reached { self.new.reached ≡ reached }
        ensures values { self.new.values.listed.items ≡ cleared self.old.values.listed.items (drop count self.old.taken.items) }
        ensures taken { self.new.taken.items ≡ take count self.old.taken.items }
    {
        self.values.clear(&self.taken[count..]);
        self.taken.truncate(count);
        self.reached = reached;
    }

    /// Goes on from the point where the ways begin to where they join.
    pub(crate) fn go_on(&mut self, join: &Join) -> Result<(), Memory>
        ensures assigned { OnOk result (assigned_of self.new ≡ joined_of self.old join.now) }
        ensures extends { OnOk result (Extends self.old self.new) }
    {
        self.reached = join.reached;
        for local in &join.taken {
            self.assign(*local)?;
        }
        Ok(())
    }
}
