//! Obligations as sequents.

ghost use Rattle.std.specs.Prelude.{◌≡◌, IfOk};
ghost use Rattle.df_form.specs.SequentView.{sequent_of};
ghost use Rattle.df_form.specs.World.{world_of, of_program};
ghost use Rattle.df_lang.specs.View.{program_of};
ghost use Rattle.df_nowed.specs.Laws.{obligation_of};
ghost use Rattle.df_nowed.specs.Owed.{IsOwed};
ghost use Rattle.df_nowed.specs.Obligation.{obligation_in};

use crate::obligation::{MethodObligations, Obligation};
use df_form::{Sequent, World};
use df_lang::Program;
use std::alloc::AllocError;

impl MethodObligations {
    /// An obligation as a sequent over the program: that its goal is true where the formulas are that are known there. Its
    /// nodes and hypotheses lie where those of the others do.
    pub fn sequent<'a>(
        &self,
        program: &'a Program,
        obligation: &Obligation,
    ) -> Result<Sequent<'a>, AllocError>
        requires { IsOwed self.now.known obligation.now }
        ensures world { IfOk result (λ sequent. world_of sequent.world ≡ of_program (program_of program.now)) }
        ensures owed { IfOk result (λ sequent. obligation_of self.now.declaration obligation.now.pos obligation.now.kind (sequent_of sequent) ≡ obligation_in self.now.declaration self.now.nodes self.now.known obligation.now) }
    {
        let mut nodes = self.nodes.copy()?;
        nodes.cut(self.counts[obligation.front()]);
        Ok(Sequent {
            world: World { program },
            nodes,
            hypotheses: self.known.front(obligation.hypothesis_count)?,
            goal: obligation.goal,
        })
    }
}
