//! Whatever gives the clauses of schemas.

ghost use Rattle.df_form.specs.World.{world_of};
ghost use Rattle.df_axiom.specs.Line.{instance_line};
ghost use Rattle.df_axiom.specs.Answers.{Instantiates};

use crate::instances::{AxiomFault, instance};
use df_form::{Arena, Lit, Term, World};
use std::alloc::Global;

/// Whatever gives the clauses of schemas.
pub trait Schemas {
    /// The clause of this number of a schema for the terms that its pattern matches. Nodes that it needs
    /// are made; after a fault the nodes stand as before. `NoSuch` comes exactly where there is no such
    /// clause.
    fn instance<A: Arena>(
        &self,
        alloc: Global,
        world: World,
        nodes: &mut A,
        schema: u8,
        number: u32,
        terms: &[Term],
    ) -> Result<Vec<Lit>, AxiomFault>
        ensures { Instantiates (A.nodes nodes.old) (A.nodes nodes.new) result (instance_line (world_of world.entry) (A.nodes nodes.old) schema number terms.now) };
}

/// The schemas as templates have them.
#[derive(Clone, Copy, PartialEq, Eq)]
pub struct Written {}

impl Schemas for Written {
    fn instance<A: Arena>(
        &self,
        alloc: Global,
        world: World,
        nodes: &mut A,
        schema: u8,
        number: u32,
        terms: &[Term],
    ) -> Result<Vec<Lit>, AxiomFault> {
        instance(alloc, world, nodes, schema, number, terms)
    }
}
