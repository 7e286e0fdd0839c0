//! The nodes that a template finds.

ghost use Rattle.std.specs.Prelude.{◌≡◌, ◌==◌, [], IfOk, slice_get};
ghost use Rattle.std.specs.List.{list_all};
ghost use Rattle.std.specs.Option.{option_map};
ghost use Rattle.df_form.specs.Node.{same_op};
ghost use Rattle.df_axiom.specs.Template.{template_of};
ghost use Rattle.df_axiom.specs.Instance.{place_at, part_at, source_at, is_literal, suits, passes, found_from, agree, found};

use crate::templates::{Piece, Source, Template, Test};
use df_form::{Arena, Op, Pair, Term};
use std::alloc::{AllocError, Global};

/// The node at a place; node 0 past the end.
pub(crate) fn place_at(places: &[Term], place: usize) -> Term
    ensures { result ≡ place_at places.now place }
{
    match places.get(place) {
        Some(node) => *node,
        None => 0,
    }
}

fn part_at<A: Arena>(nodes: &A, node: Term, part: usize) -> Option<Term>
    ensures { result ≡ part_at (A.nodes nodes.now) node part }
{
    match nodes.get(node)?.parts.get(part) {
        Some(part) => Some(*part),
        None => None,
    }
}

fn named(terms: &[Term], term: usize) -> Option<Term>
    ensures { result ≡ slice_get terms.now term }
{
    match terms.get(term) {
        Some(term) => Some(*term),
        None => None,
    }
}

/// A named term, or a part of what was found.
fn source_at<A: Arena>(nodes: &A, terms: &[Term], places: &[Term], source: Source) -> Option<Term>
    ensures { result ≡ source_at (A.nodes nodes.now) terms.now places.now source }
{
    match source {
        Source::Named(term) => named(terms, term),
        Source::Part(place, part) => part_at(nodes, named(places, place)?, part),
    }
}

#[tactic(auto, unfolding(df_form::specs::Symbol::same_symbol))]
pub(crate) fn is_same_op(a: Op, b: Op) -> bool
    ensures { result ≡ same_op a b }
{
    a == b
}

fn is_literal(op: Op) -> bool
    ensures { result ≡ is_literal op }
{
    match op {
        Op::Number(_) => true,
        Op::Free(_)
        | Op::Plus
        | Op::Times
        | Op::Equal
        | Op::AtMost
        | Op::Not
        | Op::And
        | Op::Or
        | Op::Implies
        | Op::Iff
        | Op::Of(_, _) => false,
    }
}

fn suits(test: Test, op: Op) -> bool
    ensures { result ≡ suits test op }
{
    match test {
        Test::Any => true,
        Test::Literal => is_literal(op),
        Test::Of(wanted) => is_same_op(wanted, op),
    }
}

/// Whether a node stands there, as the test wants it.
fn passes<A: Arena>(nodes: &A, test: Test, node: Term) -> bool
    ensures { result ≡ passes (A.nodes nodes.now) test node }
{
    match nodes.get(node) {
        Some(node) => suits(test, node.op),
        None => false,
    }
}

/// The nodes of the pieces.
fn pieces<A: Arena>(
    alloc: Global,
    nodes: &A,
    terms: &[Term],
    pieces: &[Piece],
) -> Result<Option<Vec<Term>>, AllocError>
    ensures { IfOk result (λ found. option_map (λ places. places.items) found ≡ found_from (A.nodes nodes.now) terms.now [] pieces.now) }
{
    let mut places = Vec::new(alloc);
    for piece in pieces {
        let Some(node) = source_at(nodes, terms, &places, piece.source) else {
            return Ok(None);
        };
        if !passes(nodes, piece.test, node) {
            return Ok(None);
        }
        places.push(node)?;
    }
    Ok(Some(places))
}

/// Whether two places have one node.
fn agree(places: &[Term], pair: Pair) -> bool
    ensures { result ≡ agree places.now pair }
{
    match (places.get(pair.left), places.get(pair.right)) {
        (Some(left), Some(right)) => *left == *right,
        (None, _) | (Some(_), None) => false,
    }
}

fn all_agree(places: &[Term], same: &[Pair]) -> bool
    ensures { result ≡ list_all (agree places.now) same.now }
{
    same.iter().all(|pair| agree(places, *pair))
}

/// The nodes of all pieces, where so many terms are named and the places that are to be one node are.
pub(crate) fn find<A: Arena>(
    alloc: Global,
    nodes: &A,
    terms: &[Term],
    template: &Template,
) -> Result<Option<Vec<Term>>, AllocError>
    ensures { IfOk result (λ places. option_map (λ places. places.items) places ≡ found (A.nodes nodes.now) terms.now (template_of template.now)) }
{
    if terms.len() != template.terms {
        return Ok(None);
    }
    let Some(places) = pieces(alloc, nodes, terms, &template.pieces)? else {
        return Ok(None);
    };
    if all_agree(&places, &template.same) {
        Ok(Some(places))
    } else {
        Ok(None)
    }
}
