//! Clauses in the order in which they came, equal ones once.

ghost use Rattle.std.specs.Prelude.{◌≡◌, ◌<◌, ◌+◌, ◌^◌, ◌&&◌, [], not, map, length, if◌then◌else◌, IfOk, OnOk, OnErr};
ghost use Rattle.df_clause.specs.GroundClause.{ground_of};
ghost use Rattle.df_clause.specs.Counting.{stands, with_clause, is_instance, instance_count};

use crate::clause::GroundClause;
use indexmap::IndexSet;
use std::alloc::{AllocError, Global};
use std::marker::Model;

/// Clauses in the order in which they came. No two are equal.
#[derive(Drop)]
pub struct ClauseSet {
    set: IndexSet<GroundClause>,
    /// How many are bound to no equality.
    instances: usize,
}

impl Model for ClauseSet {
    ghost use Rattle.std.specs.Prelude.{◌≡◌, List, map};
    ghost use Rattle.df_clause.specs.GroundClause as pure;
    ghost use Rattle.df_clause.specs.Counting as counting;

    ghost Value = { List pure.GroundClause };

    ghost view = { λ s. map pure.ground_of s.set.keys };

    ghost invariant = { λ s. s.instances ≡ counting.instance_count (map pure.ground_of s.set.keys) };
}

/// Whether it is bound to no equality.
fn is_instance(clause: &GroundClause) -> bool
    ensures { result ≡ is_instance (ground_of clause.now) }
{
    match clause.bound {
        Some(_) => false,
        None => true,
    }
}

/// So many, and a new one where it counts.
fn counted(count: usize, is_new: bool, counts: bool) -> usize
    requires { count < 2 ^ 63 }
    ensures { result ≡ count + (if is_new && counts then 1 else 0) }
{
    match (is_new, counts) {
        (true, true) => count + 1,
        (true, false) => count,
        (false, true) => count,
        (false, false) => count,
    }
}

impl ClauseSet {
    /// No clauses.
    pub fn new(alloc: Global) -> ClauseSet
        ensures { result ≡ [] }
    {
        ClauseSet {
            set: IndexSet::new(alloc),
            instances: 0,
        }
    }

    /// How many there are.
    pub fn len(&self) -> usize
        ensures len { result ≡ length self.now }
        ensures small { result < 2 ^ 63 }
    {
        self.set.len()
    }

    /// How many are bound to no equality.
    pub fn instance_count(&self) -> usize
        ensures { result ≡ instance_count self.now }
    {
        self.instances
    }

    pub fn as_slice(&self) -> &[GroundClause]
        ensures { map ground_of result.now ≡ self.now }
    {
        self.set.as_slice()
    }

    /// Adds a clause last, unless the same one is there. Whether it was new.
    pub fn insert(&mut self, clause: GroundClause) -> Result<bool, AllocError>
        ensures is_new { IfOk result (λ is_new. is_new ≡ not (stands self.old (ground_of clause))) }
        ensures clauses { OnOk result (self.new ≡ with_clause self.old (ground_of clause)) }
        ensures err { OnErr result (self.new ≡ self.old) }
    {
        // It is below 2^63, and no more of them are instances.
        let _len = self.set.len();
        let counts = is_instance(&clause);
        let (_, is_new) = self.set.insert_full(clause)?;
        self.instances = counted(self.instances, is_new, counts);
        Ok(is_new)
    }

    /// The clauses in their order.
    pub fn into_vec(self, alloc: Global) -> Result<Vec<GroundClause>, AllocError>
        ensures { IfOk result (λ clauses. map ground_of clauses.items ≡ self) }
    {
        let ClauseSet { set, .. } = self;
        set.into_iter().collect(alloc)
    }
}
