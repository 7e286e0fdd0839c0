//! Classes of equal nodes by hand: which literals contradict one another, which nodes they make equal, and what is
//! taken back.

ghost use Rattle.std.specs.Prelude.{◌≡◌, []};

use crate::expecting::expect;
use df_cases::{Signed, literals, nodes_of};
use df_cong::{Answer, Classes, Congruence, Theory, congruence};
use df_form::{Lit, NodeTable, Over};
use std::alloc::Global;
use std::test::Fail;

/// x is 0, y 1, and z 2.
/// 5: x = y, and 6: x * z = y * z.
/// 9: x = 2, and 10: y = 3.
/// 11: x is of i8, and 12: y is.
const NODES: &str =
    "x; y; z; times 0 2; times 1 2; eq 0 1; eq 3 4; 2; 3; eq 0 7; eq 1 8; is:i8 0; is:i8 1";

/// Three literals, and how many of them are held when the next one contradicts them.
type Case = (Signed, Signed, Signed, usize);

const CASES: [Case; 6] = [
    // products of equal numbers are equal
    ((true, 5), (false, 6), (true, 9), 1),
    ((false, 6), (true, 9), (true, 5), 2),
    // numbers of equal products may differ
    ((true, 6), (false, 5), (true, 9), 3),
    // two different numbers are equal
    ((true, 9), (true, 10), (true, 5), 2),
    // of two equal numbers one is of a type and the other is not
    ((true, 11), (false, 12), (true, 5), 2),
    // a literal and its negation
    ((true, 5), (true, 5), (false, 5), 2),
];

/// Holds a further literal. Whether there is a conflict then; nothing where the node is no formula, or memory is
/// refused, as below.
fn hold(classes: &mut Classes, nodes: &Over, signed: Signed) -> Option<bool>
    requires { classes.old.table ≡ nodes.now }
    ensures { classes.new.table ≡ nodes.now }
{
    let (positive, node) = signed;
    if !nodes.is_formula(node) {
        return None;
    }
    match classes.assert_lit(Lit { positive, node }) {
        Ok(Answer::Conflict(_reason)) => Some(true),
        Ok(Answer::Quiet) => Some(false),
        Err(_) => None,
    }
}

/// How many of the literals are held when the next one contradicts them.
fn quiet_count(classes: &mut Classes, nodes: &Over, case: Case) -> Option<usize>
    requires { classes.old.table ≡ nodes.now }
{
    let (first, second, third, _) = case;
    if hold(classes, nodes, first)? {
        return Some(0);
    }
    if hold(classes, nodes, second)? {
        return Some(1);
    }
    if hold(classes, nodes, third)? {
        return Some(2);
    }
    Some(3)
}

/// Whether as many of the literals are held as the case says.
fn is_right(alloc: Global, nodes: &Over, case: Case) -> bool {
    let (_, _, _, wanted) = case;
    match Classes::new(alloc, nodes) {
        Ok(mut classes) => quiet_count(&mut classes, nodes, case) == Some(wanted),
        Err(_) => false,
    }
}

#[test]
fn tells_of_conflicts(rt: HostRuntime) -> Result<(), Fail> {
    let nodes = nodes_of(rt.alloc(), NODES)?;
    let nodes = Over::new(rt.alloc(), &nodes);
    for (number, case) in CASES.iter().enumerate() {
        expect(&rt, number, is_right(rt.alloc(), &nodes, *case));
    }
    Ok(())
}

/// Whether a literal contradicts another one that is held, and no more once that one is taken back.
fn goes_back(classes: &mut Classes, nodes: &Over) -> Option<bool>
    requires table { classes.old.table ≡ nodes.now }
    requires literals { classes.old.literals ≡ [] }
{
    let mark = classes.mark();
    let is_first = hold(classes, nodes, (true, 5))?;
    let is_second = hold(classes, nodes, (false, 6))?;
    classes.undo(mark);
    let is_again = hold(classes, nodes, (false, 6))?;
    Some(!is_first && is_second && !is_again)
}

/// Whether what is held is taken back.
fn is_taken_back(alloc: Global, nodes: &Over) -> bool {
    match Classes::new(alloc, nodes) {
        Ok(mut classes) => goes_back(&mut classes, nodes) == Some(true),
        Err(_) => false,
    }
}

#[test]
fn takes_literals_back(rt: HostRuntime) -> Result<(), Fail> {
    let nodes = nodes_of(rt.alloc(), NODES)?;
    let nodes = Over::new(rt.alloc(), &nodes);
    assert!(rt; is_taken_back(rt.alloc(), &nodes));
    Ok(())
}

/// Literals, two nodes, and whether the literals make these equal, if they don't contradict one another.
type List<'a> = (&'a [Signed], usize, usize, Option<bool>);

const LISTS: [List; 8] = [
    (&[], 0, 1, Some(false)),
    // products of equal numbers
    (&[(true, 5)], 3, 4, Some(true)),
    // numbers of equal products
    (&[(true, 6)], 0, 1, Some(false)),
    // a number that is 2
    (&[(true, 9)], 0, 7, Some(true)),
    // tests of equal numbers
    (&[(true, 5)], 11, 12, Some(true)),
    (&[(true, 9), (true, 10)], 3, 4, Some(false)),
    (&[(true, 5), (false, 6)], 3, 4, None),
    (&[(true, 9), (true, 10), (true, 5)], 0, 1, None),
];

fn have_one_label(labels: &[usize], left: usize, right: usize) -> bool {
    labels.get(left).copied() == labels.get(right).copied()
}

/// Whether literals make two nodes equal as wanted.
fn tells(
    alloc: Global,
    nodes: &Over,
    literals: &[Lit],
    left: usize,
    right: usize,
    wanted: Option<bool>,
) -> bool {
    if !nodes.are_literals(literals) {
        return false;
    }
    match congruence(alloc, nodes, literals) {
        Ok(Congruence::Labels(labels)) => { wanted == Some(have_one_label(&labels, left, right)) }
        Ok(Congruence::Contradicted(_reason)) => wanted.is_none(),
        Err(_) => false,
    }
}

fn is_told(alloc: Global, nodes: &Over, list: List) -> bool {
    let (signed, left, right, wanted) = list;
    match literals(alloc, signed) {
        Some(literals) => tells(alloc, nodes, &literals, left, right, wanted),
        None => false,
    }
}

#[test]
fn tells_of_equal_nodes(rt: HostRuntime) -> Result<(), Fail> {
    let nodes = nodes_of(rt.alloc(), NODES)?;
    let nodes = Over::new(rt.alloc(), &nodes);
    for (number, list) in LISTS.iter().enumerate() {
        expect(&rt, number, is_told(rt.alloc(), &nodes, *list));
    }
    Ok(())
}
