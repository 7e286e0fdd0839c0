//! Ground sets that are listed by hand.

use crate::expecting::expect;
use df_axiom::Written;
use df_cases::{P, Q, assume, conclude, draft, push_literals, sequent_of};
use df_clause::{Ground, GroundClause, clauses};
use df_form::{Draft, NodeTable, Op, Over, Sequent, Step};
use df_kern::Checker;
use df_trig::instances;
use std::alloc::{AllocError, Global};

/// A sequent, the clauses of its ground set, how many nodes there are with those that these make, and some nodes that are
/// numbers. The literals of a clause stand in parentheses, with the equality behind `@` to which it is bound.
type Sheet<'a> = (&'a str, &'a str, usize, &'a [(usize, i128)]);

const SHEETS: [Sheet; 7] = [
    // x is 0, 3 is 1, x <= 3 is 2, 1 is 3, x + 1 is 4, 4 is 5, and x + 1 <= 4 is 6
    (
        "x 3 le | x 1 plus 4 le",
        "(+2)(-6)",
        7,
        &[(1, 3), (3, 1), (5, 4)],
    ),
    // x is 0, "x is of i8" is 1, and of a newtype that is not declared 2; -128 becomes 3, -128 <= x 4, 127 5,
    // and x <= 127 6
    (
        "x is:i8 | x is:other",
        "(+1)(-2)(-1 +4)(-1 +6)(+1 -4 -6)",
        7,
        &[(3, -128), (5, 127)],
    ),
    // of byte 2; 0 becomes 7, 0 <= x 8, 255 9, and x <= 255 10
    (
        "x is:i8 | x is:byte",
        "(+1)(-2)(-1 +4)(-1 +6)(+1 -4 -6)(-2 +8)(-2 +10)(+2 -8 -10)",
        11,
        &[(3, -128), (5, 127), (7, 0), (9, 255)],
    ),
    // x is 0, "x is a nat" is 1, and "x is an int" 2; 0 becomes 3, and 0 <= x 4
    (
        "x is:nat | x is:int",
        "(+1)(-2)(-1 +4)(+1 -4)(+2)",
        5,
        &[(3, 0)],
    ),
    // p is 0, 65 1, its character 2, and that this is a char 3; 0 becomes 4, 0 <= 65 5, 127 6, 65 <= 127 7, the
    // character's code 8, that this is 65 9, and its comparisons 10 and 11
    (
        "p | 65 chr is:char",
        "(+0)(-3)(-5 -7 +9)(+3)(-9 +10 @9)(-9 +11 @9)(+9 -10 -11 @9)",
        12,
        &[(1, 65), (4, 0), (6, 127)],
    ),
    // x is 0, y 1, x = y 2, and x <= y 3; y <= x becomes 7; an equality of characters, 6, has no clauses; 0
    // becomes 8, 0 <= x 9, 127 10, x <= 127 11, the code of x's character 12, that this is x 13, and the same
    // of y from 14 to 17, and then their comparisons
    (
        "x y eq, x y le | x chr y chr eq",
        "(+2)(+3)(-6)(-2 +3 @2)(-2 +7 @2)(+2 -3 -7 @2)(-9 -11 +13)(-14 -15 +17)(-13 +18 @13)(-13 +19 @13)\
         (+13 -18 -19 @13)(-17 +20 @17)(-17 +21 @17)(+17 -20 -21 @17)",
        22,
        &[(8, 0), (10, 127)],
    ),
    // p is 0, q 1, and then come their connectives from 2 to 6
    (
        "p q and, p q or, p q imp, p q iff | p not",
        "(+2)(+3)(+4)(+5)(-6)(-2 +0)(-2 +1)(+2 -0 -1)(-3 +0 +1)(+3 -0)(+3 -1)(-4 -0 +1)(+4 +0)(+4 -1)\
         (-5 -0 +1)(-5 +0 -1)(+5 +0 +1)(+5 -0 -1)(-6 -0)(+6 +0)",
        7,
        &[],
    ),
];

fn push_bound(alloc: Global, text: &mut String, bound: usize) -> Result<(), AllocError> {
    let word = format!(in alloc; " @{bound}")?;
    text.push_str(word.as_str())
}

fn push_clause(alloc: Global, text: &mut String, clause: &GroundClause) -> Result<(), AllocError> {
    text.push_str("(")?;
    push_literals(alloc, text, &clause.literals)?;
    if let Some(bound) = clause.bound {
        push_bound(alloc, text, bound)?;
    }
    text.push_str(")")
}

fn push_clauses(
    alloc: Global,
    text: &mut String,
    clauses: &[GroundClause],
) -> Result<(), AllocError> {
    for clause in clauses {
        push_clause(alloc, text, clause)?;
    }
    Ok(())
}

/// Whether these are the clauses, in this order.
fn are_listed(alloc: Global, clauses: &[GroundClause], wanted: &str) -> bool {
    let mut text = String::new(alloc);
    if push_clauses(alloc, &mut text, clauses).is_err() {
        return false;
    }
    text.as_str() == wanted
}

fn is_number(nodes: &Over, node: usize, value: i128) -> bool {
    match nodes.get(node) {
        Some(made) => made.op == Op::Number(value),
        None => false,
    }
}

/// Whether these nodes are these numbers.
fn are_numbers(nodes: &Over, numbers: &[(usize, i128)]) -> bool {
    for (node, value) in numbers {
        if !is_number(nodes, *node, *value) {
            return false;
        }
    }
    true
}

fn takes_all(checker: &mut Checker, lines: &[Step]) -> bool {
    for line in lines {
        if checker.take(line).is_err() {
            return false;
        }
    }
    true
}

/// Whether the kernel takes the lines of a ground set, one for each clause, and makes its nodes.
fn takes_lines(checker: &mut Checker, set: &Ground) -> bool {
    takes_all(checker, set.lines.as_slice())
        && set.lines.len() == set.clauses.len()
        && checker.nodes.len() == set.nodes.len()
}

/// Whether a ground set has a line for each clause, and the kernel takes these and makes its nodes.
pub(crate) fn has_lines(alloc: Global, sequent: &Sequent, set: &Ground) -> bool {
    match Checker::new(alloc, sequent) {
        Ok(mut checker) => takes_lines(&mut checker, set),
        Err(_) => false,
    }
}

fn is_set_listed(alloc: Global, set: &Ground, sheet: Sheet) -> bool {
    let (_, clauses, made, numbers) = sheet;
    are_listed(alloc, set.clauses.as_slice(), clauses)
        && set.nodes.len() == made
        && are_numbers(&set.nodes, numbers)
}

fn is_set_met(alloc: Global, sequent: &Sequent, set: &Ground, sheet: Sheet) -> bool {
    is_set_listed(alloc, set, sheet) && has_lines(alloc, sequent, set)
}

fn is_as_listed(alloc: Global, sequent: &Sequent, sheet: Sheet) -> bool {
    match instances(alloc, sequent, &Written {}, 1) {
        Ok(set) => is_set_met(alloc, sequent, &set, sheet),
        Err(_) => false,
    }
}

/// Whether the ground set of a sheet's sequent is as it says.
fn is_met(alloc: Global, sheet: Sheet) -> bool {
    let (text, ..) = sheet;
    match sequent_of(alloc, text) {
        Some(sequent) => is_as_listed(alloc, &sequent, sheet),
        None => false,
    }
}

#[test]
fn lists_clauses(rt: HostRuntime) {
    for (number, sheet) in SHEETS.iter().enumerate() {
        expect(&rt, number, is_met(rt.alloc(), *sheet));
    }
}

/// Puts the hypothesis p so many times.
fn assume_repeated(draft: &mut Draft, count: usize) -> bool {
    for _ in 0..count {
        if !assume(draft, &[(P, 0)]) {
            return false;
        }
    }
    true
}

/// The hypothesis p so many times, and the goal q.
fn repeated_in<'a>(alloc: Global, draft: &mut Draft<'a>, count: usize) -> Option<Sequent<'a>> {
    if assume_repeated(draft, count) {
        conclude(alloc, draft, &[(Q, 0)])
    } else {
        None
    }
}

fn repeated(alloc: Global, count: usize) -> Option<Sequent<'static>> {
    match draft(alloc) {
        Some(mut draft) => repeated_in(alloc, &mut draft, count),
        None => None,
    }
}

/// How many clauses there are for a sequent.
fn clause_count(alloc: Global, sequent: &Sequent) -> Option<usize> {
    match clauses(alloc, sequent) {
        Ok(set) => Some(set.clauses.len()),
        Err(_) => None,
    }
}

/// Whether there are two clauses for it.
fn are_two(alloc: Global, count: usize) -> bool {
    match repeated(alloc, count) {
        Some(sequent) => clause_count(alloc, &sequent) == Some(2),
        None => false,
    }
}

#[test]
fn counts_equal_clauses_once(rt: HostRuntime) {
    for count in [1, 1_000] {
        expect(&rt, count, are_two(rt.alloc(), count));
    }
}
