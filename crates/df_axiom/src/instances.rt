//! Instances of schemas.

ghost use Rattle.std.specs.Prelude.{◌≡◌, List, Option, length, take};
ghost use Rattle.std.specs.Option.{option_and_then};
ghost use Rattle.df_form.specs.World.{world_of};
ghost use Rattle.df_form.specs.Node.{Node};
ghost use Rattle.df_axiom.specs.Template.{template_of};
ghost use Rattle.df_axiom.specs.Instance.{Added, instantiated};
ghost use Rattle.df_axiom.specs.Line.{first_op, instance_line};
ghost use Rattle.df_axiom.specs.Answers.{Gives, Adds, Instantiates};

use crate::building::{build, clause_at};
use crate::choosing::schema_template;
use crate::matching::find;
use crate::templates::Template;
use df_form::{Arena, Lit, Op, Term, World};
use std::alloc::{AllocError, Global};

/// Why there is no clause.
#[derive(Clone, Copy, Debug, PartialEq, Eq)]
pub enum AxiomFault {
    /// There is no such clause for these nodes.
    NoSuch,
    /// Memory was refused.
    Memory,
}

/// The clause of a template for the named terms. Nodes may be made even where there is none.
fn instantiate<A: Arena>(
    alloc: Global,
    nodes: &mut A,
    terms: &[Term],
    template: &Template,
) -> Result<Option<Vec<Lit>>, AllocError>
    ensures gives { Gives (A.nodes nodes.new) result (instantiated (A.nodes nodes.old) terms.now (template_of template.now)) }
    ensures grows { take (length (A.nodes nodes.old)) (A.nodes nodes.new) ≡ (A.nodes nodes.old) }
{
    let Some(mut places) = find(alloc, nodes, terms, template)? else {
        return Ok(None);
    };
    if !build(alloc, nodes, &mut places, &template.needed)? {
        return Ok(None);
    }
    let clause = clause_at(alloc, &places, &template.clause)?;
    if nodes.are_literals(&clause) {
        Ok(Some(clause))
    } else {
        Ok(None)
    }
}

/// The operation of the first term.
fn first_op<A: Arena>(nodes: &A, terms: &[Term]) -> Option<Op>
    ensures { result ≡ first_op (A.nodes nodes.now) terms.now }
{
    match terms {
        [] => None,
        [first, ..] => Some(nodes.get(*first)?.op),
    }
}

fn clause_of<A: Arena>(
    alloc: Global,
    world: World,
    nodes: &mut A,
    schema: u8,
    clause: u32,
    terms: &[Term],
) -> Result<Option<Vec<Lit>>, AllocError>
    ensures gives { Gives (A.nodes nodes.new) result (instance_line (world_of world.entry) (A.nodes nodes.old) schema clause terms.now) }
    ensures grows { take (length (A.nodes nodes.old)) (A.nodes nodes.new) ≡ (A.nodes nodes.old) }
{
    let Some(op) = first_op(nodes, terms) else {
        return Ok(None);
    };
    let Some(template) = schema_template(alloc, world, op, schema, clause)? else {
        return Ok(None);
    };
    instantiate(alloc, nodes, terms, &template)
}

/// The clause of this number of a schema for the terms that its pattern matches, if there is one. It is
/// true whatever the free terms are. Nodes that it needs are made; where there is none the nodes stand as
/// before, and for want of memory they do up to those that were made.
pub fn clause<A: Arena>(
    alloc: Global,
    world: World,
    nodes: &mut A,
    schema: u8,
    clause: u32,
    terms: &[Term],
) -> Result<Option<Vec<Lit>>, AllocError>
    ensures adds { Adds (A.nodes nodes.old) (A.nodes nodes.new) result (instance_line (world_of world.entry) (A.nodes nodes.old) schema clause terms.now) }
    ensures grows { take (length (A.nodes nodes.old)) (A.nodes nodes.new) ≡ (A.nodes nodes.old) }
{
    let before = nodes.len();
    match clause_of(alloc, world, nodes, schema, clause, terms)? {
        Some(clause) => Ok(Some(clause)),
        None => {
            nodes.cut(before);
            Ok(None)
        }
    }
}

/// The clause, or why there is none: the nodes after the first ones are then taken away.
pub fn settle<A: Arena>(
    nodes: &mut A,
    before: usize,
    clause: Result<Option<Vec<Lit>>, AllocError>,
) -> Result<Vec<Lit>, AxiomFault>
    ensures { (old : List Node) (line : Option Added) → length old ≡ before → Adds old (A.nodes nodes.old) clause line → Instantiates old (A.nodes nodes.new) result line }
{
    match clause {
        Ok(Some(clause)) => Ok(clause),
        Ok(None) => Err(AxiomFault::NoSuch),
        Err(_) => {
            nodes.cut(before);
            Err(AxiomFault::Memory)
        }
    }
}

/// The clause of this number of a schema for the terms that its pattern matches. It is true whatever the
/// free terms are. Nodes that it needs are made; after a fault the nodes stand as before. `NoSuch` comes
/// exactly where there is no such clause.
pub fn instance<A: Arena>(
    alloc: Global,
    world: World,
    nodes: &mut A,
    schema: u8,
    number: u32,
    terms: &[Term],
) -> Result<Vec<Lit>, AxiomFault>
    ensures { Instantiates (A.nodes nodes.old) (A.nodes nodes.new) result (instance_line (world_of world.entry) (A.nodes nodes.old) schema number terms.now) }
{
    let before = nodes.len();
    let found = clause(alloc, world, nodes, schema, number, terms);
    settle(nodes, before, found)
}
