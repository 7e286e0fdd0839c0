//! The nodes that a clause needs.

ghost use Rattle.std.specs.Prelude.{◌≡◌, [], map, take, length, IfOk};
ghost use Rattle.std.specs.Option.{option_map};
ghost use Rattle.df_axiom.specs.Template.{need_of};
ghost use Rattle.df_axiom.specs.Instance.{numbers_at, placed, built, literal_at};
ghost use Rattle.df_axiom.specs.Answers.{Makes, Builds};

use crate::matching::place_at;
use crate::templates::Need;
use df_form::{Arena, Lit, Op, Term};
use std::alloc::{AllocError, Global};

/// The operation of a node that is needed.
fn op_of(need: Need) -> Op
    ensures { result ≡ (need_of need).op }
{
    match need {
        Need::Number(number) => Op::Number(number),
        Need::One(op, _) | Need::Two(op, _, _) => op,
    }
}

/// The parts of a node that is needed, if each of their places is there.
fn parts_at(alloc: Global, places: &[Term], need: Need) -> Result<Option<Vec<Term>>, AllocError>
    ensures { IfOk result (λ found. option_map (λ parts. parts.items) found ≡ numbers_at places.now [] (need_of need).parts) }
{
    match need {
        Need::Number(_) => Ok(Some(Vec::new(alloc))),
        Need::One(_, part) => match places.get(part) {
            Some(part) => Ok(Some(vec![in alloc; *part]?)),
            None => Ok(None),
        },
        Need::Two(_, left, right) => match (places.get(left), places.get(right)) {
            (Some(left), Some(right)) => Ok(Some(vec![in alloc; *left, *right]?)),
            (None, _) | (Some(_), None) => Ok(None),
        },
    }
}

/// The number of a node that is needed, if its parts are there and of its sorts. It is made where it
/// does not stand yet.
fn make<A: Arena>(
    alloc: Global,
    nodes: &mut A,
    places: &[Term],
    need: Need,
) -> Result<Option<Term>, AllocError>
    ensures makes { Makes (A.nodes nodes.new) result (placed (A.nodes nodes.old) places.now (need_of need)) }
    ensures grows { take (length (A.nodes nodes.old)) (A.nodes nodes.new) ≡ (A.nodes nodes.old) }
{
    let Some(parts) = parts_at(alloc, places, need)? else {
        return Ok(None);
    };
    let op = op_of(need);
    if !nodes.admits(op, &parts) {
        return Ok(None);
    }
    Ok(Some(nodes.add(op, &parts)?))
}

/// Makes the nodes that are needed, and gives them places. Whether it could.
pub(crate) fn build<A: Arena>(
    alloc: Global,
    nodes: &mut A,
    places: &mut Vec<Term>,
    needed: &[Need],
) -> Result<bool, AllocError>
    ensures builds { Builds (A.nodes nodes.new) places.new.items result (built (A.nodes nodes.old) places.old.items (map need_of needed.now)) }
    ensures grows { take (length (A.nodes nodes.old)) (A.nodes nodes.new) ≡ (A.nodes nodes.old) }
{
    for need in needed {
        let Some(number) = make(alloc, nodes, places.as_slice(), *need)? else {
            return Ok(false);
        };
        places.push(number)?;
    }
    Ok(true)
}

fn literal_at(places: &[Term], literal: Lit) -> Lit
    ensures { result ≡ literal_at places.now literal }
{
    Lit {
        positive: literal.positive,
        node: place_at(places, literal.node),
    }
}

/// The clause of these places.
pub(crate) fn clause_at(
    alloc: Global,
    places: &[Term],
    literals: &[Lit],
) -> Result<Vec<Lit>, AllocError>
    ensures { IfOk result (λ clause. clause.items ≡ map (literal_at places.now) literals.now) }
{
    let mut clause = Vec::new(alloc);
    for literal in literals {
        clause.push(literal_at(places, *literal))?;
    }
    Ok(clause)
}
