//! Sequents: hypotheses and a goal.

ghost use Rattle.df_form.specs.World.{world_of};
ghost use Rattle.df_form.specs.Sequent.{IsSequent, IsNumbered};

use crate::formulas::Formulas;
use crate::front::Front;
use crate::node::Formula;
use crate::world::World;

/// Formulas of a program, by the numbers of their nodes: a goal, and the hypotheses
/// that it stands under. The nodes are numbered in postorder of first occurrence, those of the
/// hypotheses in order and then those of the goal.
#[derive(Drop)]
pub struct Sequent<'a> {
    /// What they know of the program.
    pub world: World<'a>,
    pub nodes: Front,
    pub hypotheses: Formulas,
    pub goal: Formula,
    pub ghost is_sequent: { IsSequent (record { world = world_of world; nodes = nodes; hypotheses = hypotheses; goal = goal }) },
    pub ghost is_numbered: { ∥ IsNumbered (record { world = world_of world; nodes = nodes; hypotheses = hypotheses; goal = goal }) ∥₁ },
}
