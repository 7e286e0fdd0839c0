//! Classes of equal nodes, for the literals that are held.

ghost use Rattle.std.specs.Prelude.{◌≡◌, ◌≤◌, ◌∷◌, ◌++◌, [], true, length, take, IfOk, OnOk, OnErr};
ghost use Rattle.df_form.specs.Clause.{are_literals};
ghost use Rattle.df_form.specs.Sorting.{is_formula};
ghost use Rattle.df_cong.specs.Theory.{IsAnswer};
ghost use Rattle.df_classes.specs.HoldingView.{IsHolding};
ghost use Rattle.df_cong.specs.ClassesView.{Held, IsClasses};
ghost use Rattle.df_classes.specs.SignsView.{Came, IsCovered};
ghost use Rattle.df_classes.specs.mirror.Clash.{clash, AreNumbers};
ghost use Rattle.df_classes.specs.mirror.Closure.{AreUsers};
ghost use Rattle.df_classes.specs.mirror.State.{label_of};
ghost use Rattle.df_classes.specs.PartitionView.{state_of};

use crate::answer::{Answer, Mark};
use crate::clash::{do_clash, numbers};
use crate::reason::{short_reason, whole_reason};
use crate::theory::Theory;
use df_classes::{Holding, Lists, Signs, first_signs, is_surely_quiet, users_of};
use df_form::{Lit, Over};
use std::alloc::{AllocError, Global};
use std::marker::Model;

/// Literals over nodes, with the classes of nodes that the equalities among them make equal.
#[derive(Drop)]
pub struct Classes<'a> {
    nodes: Over<'a>,
    users: Lists,
    numbers: Vec<usize>,
    holding: Holding,
    signs: Signs,
    alloc: Global,
}

impl<'a> Model for Classes<'a> {
    ghost use Rattle.df_cong.specs.ClassesView.{Held, IsClasses};

    ghost Value = { Held };

    ghost view = { λ c. record { table = c.nodes; literals = c.holding.held.items } };

    ghost invariant = { λ c. IsClasses c.nodes c.users c.numbers.items c.holding c.signs };
}

/// The conflict of held literals that clash. All nodes that are numbers are given.
fn conflict(
    alloc: Global,
    nodes: &Over,
    numbers: &[usize],
    holding: &Holding,
) -> Result<Answer, AllocError>
    requires holding { IsHolding nodes.now holding.now.held.items holding.now.levels.items holding.now.partition }
    requires literals { are_literals nodes.now holding.now.held.items ≡ true }
    requires clash { clash nodes.now (label_of (state_of holding.now.partition)) numbers.now holding.now.held.items ≡ true }
    ensures { IfOk result (IsAnswer nodes.now holding.now.held.items) }
{
    match short_reason(alloc, nodes, numbers, holding)? {
        Some(reason) => Ok(Answer::Conflict(reason)),
        None => Ok(Answer::Conflict(whole_reason(alloc, holding)?)),
    }
}

/// What held literals come to, where all nodes that are numbers are given.
pub(crate) fn answer_for(
    alloc: Global,
    nodes: &Over,
    numbers: &[usize],
    holding: &Holding,
) -> Result<Answer, AllocError>
    requires holding { IsHolding nodes.now holding.now.held.items holding.now.levels.items holding.now.partition }
    requires numbers { AreNumbers nodes.now numbers.now }
    requires literals { are_literals nodes.now holding.now.held.items ≡ true }
    ensures { IfOk result (IsAnswer nodes.now holding.now.held.items) }
{
    if do_clash(alloc, nodes, &holding.partition, numbers, &holding.held)? {
        conflict(alloc, nodes, numbers, holding)
    } else {
        Ok(Answer::Quiet)
    }
}

/// What held literals come to, where the last of them came when there were so many changes.
fn answer_after(
    alloc: Global,
    nodes: &Over,
    users: &Lists,
    numbers: &[usize],
    holding: &Holding,
    signs: &mut Signs,
    from: usize,
    literal: Lit,
) -> Result<Answer, AllocError>
    requires holding { IsHolding nodes.now holding.now.held.items holding.now.levels.items holding.now.partition }
    requires users { AreUsers nodes.now users.now }
    requires numbers { AreNumbers nodes.now numbers.now }
    requires literals { are_literals nodes.now holding.now.held.items ≡ true }
    requires came { Came holding.now literal from }
    requires covered { IsCovered nodes.now holding.now signs.old }
    ensures answer { IfOk result (IsAnswer nodes.now holding.now.held.items) }
    ensures covered { IsCovered nodes.now holding.now signs.new }
{
    if is_surely_quiet(nodes, users, holding, signs, from, literal)? {
        return Ok(Answer::Quiet);
    }
    answer_for(alloc, nodes, numbers, holding)
}

/// Holds one more literal, and answers. An error leaves what was held.
fn assert_on(
    alloc: Global,
    nodes: &Over,
    users: &Lists,
    numbers: &[usize],
    holding: &mut Holding,
    signs: &mut Signs,
    literal: Lit,
) -> Result<Answer, AllocError>
    requires holding { IsHolding nodes.now holding.old.held.items holding.old.levels.items holding.old.partition }
    requires users { AreUsers nodes.now users.now }
    requires numbers { AreNumbers nodes.now numbers.now }
    requires literals { are_literals nodes.now holding.old.held.items ≡ true }
    requires literal { is_formula nodes.now literal.node ≡ true }
    requires covered { IsCovered nodes.now holding.old signs.old }
    ensures answer { IfOk result (IsAnswer nodes.now holding.new.held.items) }
    ensures holding { IsHolding nodes.now holding.new.held.items holding.new.levels.items holding.new.partition }
    ensures holds { OnOk result (holding.new.held.items ≡ holding.old.held.items ++ literal ∷ []) }
    ensures err { OnErr result (holding.new.held.items ≡ holding.old.held.items) }
    ensures covered { IsCovered nodes.now holding.new signs.new }
{
    let before = holding.held.len();
    let from = holding.partition.changes();
    holding.hold(alloc, nodes, users, literal)?;
    match answer_after(alloc, nodes, users, numbers, holding, signs, from, literal) {
        Ok(answer) => Ok(answer),
        Err(error) => {
            holding.cut(before);
            signs.forget(before);
            Err(error)
        }
    }
}

impl<'a> Classes<'a> {
    /// Classes over these nodes, with no literal held.
    pub fn new(alloc: Global, nodes: &Over<'a>) -> Result<Classes<'a>, AllocError>
        ensures { IfOk result (λ classes. classes ≡ record { table = nodes.now; literals = [] }) }
    {
        let users = users_of(alloc, nodes)?;
        let numbers = numbers(alloc, nodes)?;
        let holding = Holding::new(alloc, nodes, &users)?;
        let signs = first_signs(alloc, nodes, &numbers, &holding)?;
        let copy = nodes.copy(alloc)?;
        Ok(Classes {
            nodes: copy,
            users,
            numbers,
            holding,
            signs,
            alloc,
        })
    }
}

impl<'a> Theory for Classes<'a> {
    ghost table = { λ classes. classes.table };

    ghost literals = { λ classes. classes.literals };

    fn assert_lit(&mut self, literal: Lit) -> Result<Answer, AllocError> {
        assert_on(
            self.alloc,
            &self.nodes,
            &self.users,
            &self.numbers,
            &mut self.holding,
            &mut self.signs,
            literal,
        )
    }

    fn mark(&self) -> Mark {
        Mark {
            held: self.holding.held.len(),
        }
    }

    fn undo(&mut self, mark: Mark) {
        self.holding.cut(mark.held);
        self.signs.forget(mark.held);
    }
}
