//! Held literals, with the classes of their equalities.

ghost use Rattle.std.specs.Prelude.{◌≡◌, ◌<◌, ◌∷◌, ◌++◌, [], length, slice_get, IfOk, OnOk, OnErr};
ghost use Rattle.df_rules.specs.Congruence.{equality};
ghost use Rattle.df_classes.specs.mirror.Closure.{AreUsers};
ghost use Rattle.df_classes.specs.mirror.Steps.{IsReady};
ghost use Rattle.df_classes.specs.PartitionView.{state_of, Extends};
ghost use Rattle.df_classes.specs.HoldingView.{IsHolding, Equates, equality_held, Pushes, RetreatsTo, Cuts, Grows, Returns};

use crate::closing::{close, join};
use crate::lists::Lists;
use crate::partition::{Partition, counted};
use crate::reading::sides;
use df_form::{Lit, NodeTable, Over, Pair};
use std::alloc::{AllocError, Global};

/// What there was when a literal came.
#[derive(Clone, Copy, PartialEq, Eq)]
pub struct Level {
    pub changes: usize,
    pub pairs: usize,
}

/// Literals in the order in which they came, with a level for each.
#[derive(Drop)]
pub struct Holding {
    pub partition: Partition,
    pub held: Vec<Lit>,
    pub levels: Vec<Level>,
}

/// Makes the sides of an equality one class, and closes the classes.
fn equate(
    alloc: Global,
    nodes: &Over,
    users: &Lists,
    partition: &mut Partition,
    pair: Pair,
) -> Result<(), AllocError>
    requires ready { IsReady nodes.now (state_of partition.old) }
    requires users { AreUsers nodes.now users.now }
    requires left { pair.left < length nodes.now }
    requires right { pair.right < length nodes.now }
    ensures equates { OnOk result (Equates nodes.now partition.old partition.new (pair ∷ [])) }
    ensures extends { Extends partition.old partition.new }
{
    let left = partition.label(pair.left);
    let right = partition.label(pair.right);
    if left == right {
        return Ok(());
    }
    let mut waiting = Vec::new(alloc);
    join(alloc, users, partition, pair, &mut waiting)?;
    close(alloc, nodes, users, partition, waiting)
}

impl Holding {
    /// No literal is held: the classes are closed.
    pub fn new(alloc: Global, nodes: &Over, users: &Lists) -> Result<Holding, AllocError>
        requires { AreUsers nodes.now users.now }
        ensures holding { IfOk result (λ holding. IsHolding nodes.now holding.held.items holding.levels.items holding.partition) }
        ensures held { IfOk result (λ holding. holding.held.items ≡ []) }
    {
        let mut partition = Partition::new(alloc, nodes.len())?;
        let waiting = counted(alloc, nodes.len())?;
        close(alloc, nodes, users, &mut partition, waiting)?;
        Ok(Holding {
            partition,
            held: Vec::new(alloc),
            levels: Vec::new(alloc),
        })
    }

    /// Holds a literal whose equality is not in the classes yet. An error changes nothing.
    fn push(&mut self, literal: Lit) -> Result<(), AllocError>
        ensures pushes { OnOk result (Pushes self.old self.new literal) }
        ensures held { OnErr result (self.new.held.items ≡ self.old.held.items) }
        ensures levels { OnErr result (self.new.levels.items ≡ self.old.levels.items) }
        ensures partition { self.new.partition ≡ self.old.partition }
    {
        let level = Level {
            changes: self.partition.changes(),
            pairs: self.partition.pairs.len(),
        };
        self.levels.reserve(1)?;
        self.held.push(literal)?;
        self.levels.push(level)?;
        Ok(())
    }

    /// Puts the equality that a literal is into the classes.
    fn put(
        &mut self,
        alloc: Global,
        nodes: &Over,
        users: &Lists,
        literal: Lit,
    ) -> Result<(), AllocError>
        requires ready { IsReady nodes.now (state_of self.old.partition) }
        requires users { AreUsers nodes.now users.now }
        ensures equates { OnOk result (Equates nodes.now self.old.partition self.new.partition (equality_held nodes.now literal)) }
        ensures extends { Extends self.old.partition self.new.partition }
        ensures held { self.new.held.items ≡ self.old.held.items }
        ensures levels { self.new.levels.items ≡ self.old.levels.items }
    {
        if !literal.positive {
            return Ok(());
        }
        match sides(nodes, literal.node) {
            Some(pair) => equate(alloc, nodes, users, &mut self.partition, pair),
            None => Ok(()),
        }
    }

    /// Takes what the literals from this number on put into the classes out of them.
    fn retreat(&mut self, held: usize)
        ensures retreats { RetreatsTo self.old.partition self.new.partition (slice_get self.old.levels.items held) }
        ensures held { self.new.held ≡ self.old.held }
        ensures levels { self.new.levels ≡ self.old.levels }
    {
        match self.levels.get(held).copied() {
            Some(level) => self.partition.retreat(level.changes, level.pairs),
            None => (),
        }
    }

    /// Takes all literals but so many away, with what they put into the classes.
    pub fn cut(&mut self, held: usize)
        ensures { Cuts self.old self.new held }
    {
        self.retreat(held);
        self.held.truncate(held);
        self.levels.truncate(held);
    }

    /// Holds one more literal. An error leaves those that were held.
    pub fn hold(
        &mut self,
        alloc: Global,
        nodes: &Over,
        users: &Lists,
        literal: Lit,
    ) -> Result<(), AllocError>
        requires holding { IsHolding nodes.now self.old.held.items self.old.levels.items self.old.partition }
        requires users { AreUsers nodes.now users.now }
        ensures holding { IsHolding nodes.now self.new.held.items self.new.levels.items self.new.partition }
        ensures holds { OnOk result (self.new.held.items ≡ self.old.held.items ++ literal ∷ []) }
        ensures grows { OnOk result (Grows self.old self.new literal) }
        ensures err { OnErr result (self.new.held.items ≡ self.old.held.items) }
        ensures returns { OnErr result (Returns self.old self.new) }
    {
        let before = self.held.len();
        self.push(literal)?;
        match self.put(alloc, nodes, users, literal) {
            Ok(()) => Ok(()),
            Err(error) => {
                self.cut(before);
                Err(error)
            }
        }
    }
}
