//! The kernel: which logs it accepts, and where it refuses the others.

use crate::expecting::{expect, expect_no_row};
use crate::lines::steps_of;
use df_axiom::instance;
use df_cases::{P, X, are_literals, nodes_of, sequent_of, trimmed, world};
use df_form::{Node, NodeTable, Nodes, Op, Over, Sequent, Step, World};
use df_kern::{Checker, KernFault, check};
use df_rules::connective;
use std::alloc::Global;
use std::process::Abort;
use std::test::Fail;

/// A sequent, the first lines of its logs, and a row for each log: its last lines and, behind `|`, the numbers of the step
/// and of the row of the table of lines that refuse it, or that it is taken. Behind `#` a row says nothing.
type Sheet<'a> = (&'a str, &'a str, &'a str);

/// Lines over p alone, which is 0.
const PLACES: &str = "h 0 | 1 1\n\
    x 0 0 | 1 2\n\
    a 74 0 0 | 1 5\n\
    u 0 : +0 | 1 6\n\
    l : | 1 8\n\
    s 0 1 | 1 9\n\
    n num 5; n num 5 | 2 10\n\
    g | 2 0\n\
    g; n num 5 | 3 0\n\
    g; h 0 | 2 1\n\
    | 1 0";

/// The goal is the `and` of not p, p and q, p or q, p implies q, p iff q, x = y, x is i8, and y is i8.
/// Their nodes: p 0, not p 1, q 2, then 3 to 6, x 7, y 8, then 9 to 12.
const EACH: &str = "| p not p q and p q or p q imp p q iff x y eq x is:i8 y is:i8 and:8";

/// The same beside the hypotheses p and not p.
const BESIDE_BOTH: &str =
    "p, p not | p not p q and p q or p q imp p q iff x y eq x is:i8 y is:i8 and:8";

/// Lines over these terms, one after another, with the clauses that they add.
const ADDED: &str = "g | -12\n\
    x 1 0 | -1 -0\n\
    x 1 1 | +1 +0\n\
    x 3 0 | -3 +0\n\
    x 3 1 | -3 +2\n\
    x 3 2 | +3 -0 -2\n\
    x 4 0 | -4 +0 +2\n\
    x 4 1 | +4 -0\n\
    x 4 2 | +4 -2\n\
    x 5 0 | -5 -0 +2\n\
    x 5 1 | +5 +0\n\
    x 5 2 | +5 -2\n\
    x 6 0 | -6 -0 +2\n\
    x 6 1 | -6 +0 -2\n\
    x 6 2 | +6 +0 +2\n\
    x 6 3 | +6 -0 -2\n\
    # x <= y becomes 13, and y <= x 14\n\
    x 9 0 | -9 +13\n\
    x 9 1 | -9 +14\n\
    x 9 2 | +9 -13 -14\n\
    # -128 becomes 15, -128 <= x 16, 127 17, and x <= 127 18\n\
    a 74 0 10 | -10 +16\n\
    a 74 1 10 | -10 +18\n\
    a 74 2 10 | +10 -16 -18\n\
    # 3 becomes 19, x <= 3 20, 4 21, and 4 <= x 22\n\
    s 7 3 | +20 +22\n\
    # x <= 4 becomes 23, 5 24, and 5 <= x 25\n\
    s 7 4 | +23 +25\n\
    u 2 : +0 +1 | +0 +1\n\
    l -20 -25 : 1 1*0+1*1 | -20 -25\n\
    l -25 -20 : 2 1*0+1*1 | -25 -20";

/// Lines over the same terms, beside the hypotheses p and not p.
const KINDS: &str = "h 0 | 2 0\n\
    h 1 | 2 0\n\
    h 2 | 1 1\n\
    x 1 2 | 1 2\n\
    x 3 3 | 1 2\n\
    x 4 3 | 1 2\n\
    x 5 3 | 1 2\n\
    x 6 4 | 1 2\n\
    x 9 3 | 1 2\n\
    # an equality of characters, a free term, a type, a number that no node has\n\
    n chr 7; n chr 8; n eq 13 14; x 15 0 | 4 2\n\
    x 0 0 | 1 2\n\
    x 10 0 | 1 2\n\
    x 13 0 | 1 2";

/// Instances and splits over the same terms.
const INSTANCES: &str = "a 74 3 10 | 1 5\n\
    a 73 0 10 | 1 5\n\
    a 74 0 10 10 | 1 5\n\
    a 74 0 | 1 5\n\
    a 74 0 7 | 1 5\n\
    a 74 0 13 | 1 5\n\
    # a newtype that is not declared: no line makes its test\n\
    n is:other 7 | 1 10\n\
    n is:byte 8; a 74 0 13 | 3 0\n\
    # x - 5 and x - 4, by a factor below 0\n\
    s 7 3; s 7 4; l -19 -16 : 1 1*0+-1*1 | 3 8\n\
    s 7 -170141183460469231731687303715884105728 | 2 0\n\
    s 7 170141183460469231731687303715884105726 | 2 0\n\
    s 7 170141183460469231731687303715884105727 | 1 9\n\
    s 0 3 | 1 9\n\
    s 13 3 | 1 9";

/// Nodes over the same terms.
const MADE: &str = "n plus 7 8 | 2 0\n\
    n plus 7 8; s 13 0 | 3 0\n\
    n plus 7 0 | 1 10\n\
    n plus 7 13 | 1 10\n\
    n plus 7 | 1 10\n\
    n times 8 8 | 2 0\n\
    n num 5 7 | 1 10\n\
    n is:i8 0 | 1 10\n\
    n is:i8 7 | 1 10\n\
    n eq 0 7 | 1 10\n\
    n eq 0 2 | 1 10\n\
    n eq 7 8 | 1 10\n\
    n eq 8 7 | 2 0\n\
    n le 0 2 | 1 10\n\
    n not 2 | 2 0\n\
    n not 7 | 1 10\n\
    n or | 2 0\n\
    n and 0 2 | 1 10\n\
    n and 0 8 | 1 10\n\
    n imp 0 2 2 | 1 10\n\
    n or; x 13 0; x 13 1 | 3 2";

/// x + x becomes 13, y + y 14, twice these 15 and 16, and the equality of the last two 17; y * y becomes 18, 1 19, 2 20,
/// and the equalities of x with these 21 and 22.
const DOUBLES: &str = "n plus 7 7; n plus 8 8; n plus 13 13; n plus 14 14; n eq 15 16; \
    n times 8 8; n num 1; n num 2; n eq 7 19; n eq 7 20";

/// Clauses over these terms that hold by congruence, and then others.
const CONGRUENCES: &str = "e -9 +9 : | 12 0\n\
    e -2 +2 : | 12 0\n\
    # x = y, and what holds of x holds of y, and of x what holds of y\n\
    e -9 -10 +11 : 10 11 | 12 0\n\
    e +10 -11 -9 : 11 10 | 12 0\n\
    # x = y makes their doubles equal, and then the doubles of these\n\
    e -9 +17 : 13 14 15 16 | 12 0\n\
    e +17 -9 : 14 13 16 15 | 12 0\n\
    # x is 1 and 2\n\
    e -21 -22 : | 12 0\n\
    e -9 +9 : 7 7 | 12 0\n\
    # not in this order, and not without the equality or the first pair\n\
    e -9 +17 : 15 16 13 14 | 11 7\n\
    e +17 : 13 14 15 16 | 11 7\n\
    e -9 +17 : 13 14 | 11 7\n\
    # two operations\n\
    e -9 +9 : 14 18 | 11 7\n\
    e -9 +9 : 7 8 | 11 7\n\
    # nothing that can't be\n\
    e : | 11 7\n\
    e -9 : | 11 7\n\
    e -21 : | 11 7\n\
    e -0 +2 : | 11 7\n\
    # no formula, and no node\n\
    e -9 +9 +7 : | 11 7\n\
    e -9 +9 : 23 23 | 11 7";

/// p (0), and p implies q (2), whose clauses are 0 to 3 with the negation of q (1).
const FIRST: &str = "h 0; h 1; x 2 0; g";

/// Numbers of clauses and conclusions that follow, and then others.
const PROPAGATIONS: &str = "u 0 1 2 3 : | taken\n\
    u 3 0 1 2 : | taken\n\
    u 0 3 2 1 : | taken\n\
    u 0 0 1 2 3 : | taken\n\
    u 0 1 2 : +1 | 6 0\n\
    u 2 : -2 +1 -0 | 6 0\n\
    # two literals are left on the way\n\
    u 1 2 3 : | 5 6\n\
    u 0 2 3 : | 5 6\n\
    u 3 2 1 0 : | 5 6\n\
    # and at the end one or two\n\
    u 0 1 2 : | 5 6\n\
    u 0 1 3 : | 5 6\n\
    u 0 2 : | 5 6\n\
    # none on the way\n\
    u 0 1 2 3 3 : | 5 6\n\
    u 0 1 2 2 : +1 | 5 6\n\
    u 0 1 4 : | 5 6\n\
    u 4 0 1 2 3 : | 5 6\n\
    u : | 5 6\n\
    u : +1 | 5 6\n\
    # no formula\n\
    u 0 1 2 : +1 +3 | 5 6";

/// p and p implies q, so q.
const MODUS_PONENS: &str = "p, p q imp | q";

/// Logs of each kind of line.
const SHEETS: [Sheet; 6] = [
    ("| p", "", PLACES),
    (BESIDE_BOTH, "", KINDS),
    (BESIDE_BOTH, "", INSTANCES),
    (BESIDE_BOTH, "", MADE),
    (EACH, DOUBLES, CONGRUENCES),
    (MODUS_PONENS, FIRST, PROPAGATIONS),
];

/// Logs of sums, splits and instances of schemas.
const ARITHMETIC: [Sheet; 4] = [
    // 2 * x <= 2 * y + 1, y <= z |- x <= z, whose formulas are 7, 9 and 10. The rows are 2y + 1 - 2x, z - y and
    // x - z - 1; halved, the first is y - x.
    (
        "2 x times 2 y times 1 plus le, y z le | x z le",
        "h 0; h 1; g",
        "l -7 -9 +10 : 2 1*0 1 1*3+1*1+1*2; u 0 1 2 3 : | taken\n\
         # twice the other rows do as well\n\
         l -7 -9 +10 : 1 1*0+2*1+2*2 | 5 0",
    ),
    // x <= 3 implies p, 7 <= 2 * x implies p |- p. The formulas: x <= 3 is 2, p 3, the first hypothesis 4,
    // 7 <= 2 * x 8, the second hypothesis 9, and 4 <= x becomes 11. The rows are x - 4 and 6 - 2x.
    (
        "x 3 le p imp, 7 2 x times le p imp | p",
        "h 0; h 1; g; s 0 3",
        "x 4 0; x 9 0; l -11 +8 : 1 2*0+1*1; u 0 1 2 4 5 6 3 : | taken",
    ),
    // Instances of schemas: x is 0, y 1, x * y 2, y * x 3, and the goal x * y = y * x 4.
    (
        "| x y times y x times eq",
        "g",
        "a 5 0 2; u 0 1 : | taken\n\
         a 5 1 2 | 2 5\n\
         a 5 0 0 | 2 5\n\
         a 5 0 2 3 | 2 5\n\
         a 5 0 | 2 5\n\
         a 5 0 9 | 2 5\n\
         # no literal, no product in a product, no sum\n\
         a 8 0 2 | 2 5\n\
         a 6 0 2 | 2 5\n\
         a 7 0 2 | 2 5\n\
         # two products with one second factor\n\
         a 10 0 2 3 | 2 5\n\
         a 10 0 2 2 | 3 0\n\
         a 11 0 2 | 2 5",
    ),
    // x is 0, 7 1, x mod 7 2, 6 3, and the goal x mod 7 <= 6 4. 1 becomes 5, 1 <= 7 6, x mod 7 + 1 7, and
    // x mod 7 + 1 <= 7 8.
    (
        "| x 7 mod 6 le",
        "g; a 3 0 2",
        "l +6 : 1 1*0; l -8 +4 : 1 1*0+1*1; u 0 3 2 1 : | taken\n\
         a 3 0 0 | 3 5\n\
         a 1 0 0 | 3 5\n\
         a 1 0 2 | 4 0\n\
         a 1 1 2 | 3 5",
    ),
];

/// Logs of types and characters.
const TYPES: [Sheet; 5] = [
    // x is i8, 127 <= x |- x = 127, whose formulas are 1, 3 and 4; x <= 127 becomes 5.
    (
        "x is:i8, 127 x le | x 127 eq",
        "h 0; h 1; g",
        "a 74 1 1; x 4 2; u 0 3 1 2 4 : | taken",
    ),
    // 65 is 0, its character 1, the code of this 2, and the goal that it is 65 3. 0 becomes 4, 0 <= 65 5,
    // 127 6, and 65 <= 127 7.
    (
        "| 65 chr code 65 eq",
        "g; a 110 0 1",
        "l +5 : 1 1*0; l +7 : 1 1*0; u 0 2 3 1 : | taken\n\
         a 110 0 2 | 3 5\n\
         a 109 2 2 | 4 0\n\
         a 109 3 2 | 3 5",
    ),
    // 3 is 0, x 1, 3 <= x 2, and the goal that x is a nat 3. 0 becomes 4, and 0 <= x 5.
    (
        "3 x le | x is:nat",
        "h 0; g",
        "a 74 1 3; l -2 +5 : 1 1*0+1*1; u 0 3 2 1 : | taken\n\
         a 74 0 3 | 4 0\n\
         a 74 2 3 | 3 5",
    ),
    // x is 0, and the goal that it is an int 1.
    (
        "| x is:int",
        "g",
        "a 74 0 1; u 0 1 : | taken\n\
         a 74 1 1 | 2 5",
    ),
    // 65 is 0, its character 1, and the goal that this is a char 2.
    (
        "| 65 chr is:char",
        "g",
        "a 74 0 2; u 0 1 : | taken\n\
         a 74 1 2 | 2 5",
    ),
];

/// The refusal at the step and the row of these numbers, if they are some.
fn refused_at(place: &str) -> Option<KernFault> {
    let (at, broken) = place.split_once(' ')?;
    let at = at.parse::<u64>().ok()?;
    let broken = broken.parse::<u8>().ok()?;
    Some(KernFault::Refused { at, broken })
}

/// Whether the log of the first lines and the last ones is accepted, or refused at this place.
fn is_refused_at(alloc: Global, sequent: &Sequent, first: &str, last: &str, place: &str) -> bool {
    match steps_of(alloc, first, last) {
        Some(log) => check(alloc, sequent, &log).err() == refused_at(place),
        None => false,
    }
}

/// Whether the log of a row is accepted, or refused at its place.
fn is_told(alloc: Global, sequent: &Sequent, first: &str, row: &str) -> bool {
    match row.split_once('|') {
        Some((last, place)) => is_refused_at(alloc, sequent, first, last, trimmed(place)),
        None => row.starts_with('#'),
    }
}

/// The first row that is not as it says, if there is one.
fn wrong_row(alloc: Global, sequent: &Sequent, first: &str, rows: &str) -> Option<usize> {
    for (number, row) in rows.lines().enumerate() {
        if !is_told(alloc, sequent, first, row) {
            return Some(number);
        }
    }
    None
}

/// The first row of a sheet that is not as it says, if there is one, or if there is no sequent.
fn wrong_in(alloc: Global, sheet: Sheet) -> Option<usize> {
    let (text, first, rows) = sheet;
    match sequent_of(alloc, text) {
        Some(sequent) => wrong_row(alloc, &sequent, first, rows),
        None => Some(0),
    }
}

/// All rows of the sheets are as they say.
fn expect_sheets(rt: &impl Abort, alloc: Global, sheets: &[Sheet]) {
    for (number, sheet) in sheets.iter().enumerate() {
        expect_no_row(rt, number, wrong_in(alloc, *sheet));
    }
}

#[test]
fn accepts_logs_or_tells_where_they_are_refused(rt: HostRuntime) {
    expect_sheets(&rt, rt.alloc(), &SHEETS);
}

#[test]
fn accepts_logs_of_arithmetic_or_tells_where_they_are_refused(rt: HostRuntime) {
    expect_sheets(&rt, rt.alloc(), &ARITHMETIC);
}

#[test]
fn accepts_logs_of_types_or_tells_where_they_are_refused(rt: HostRuntime) {
    expect_sheets(&rt, rt.alloc(), &TYPES);
}

/// A log that makes a free term, which no text of a log does.
fn making(alloc: Global, op: Op) -> Option<Vec<Step>> {
    let mut log = Vec::new(alloc);
    let parts = Vec::new(alloc);
    match log.push(Step::Make(Node { op, parts })) {
        Ok(()) => Some(log),
        Err(_) => None,
    }
}

fn is_making_refused(alloc: Global, sequent: &Sequent, op: Op) -> bool {
    match making(alloc, op) {
        Some(log) => check(alloc, sequent, &log).err() == refused_at("1 10"),
        None => false,
    }
}

/// Whether a log for p that makes the free term is refused.
fn is_free_refused(alloc: Global, op: Op) -> bool {
    match sequent_of(alloc, "| p") {
        Some(sequent) => is_making_refused(alloc, &sequent, op),
        None => false,
    }
}

#[test]
fn no_line_makes_a_free_term(rt: HostRuntime) {
    assert!(rt; is_free_refused(rt.alloc(), P));
    assert!(rt; is_free_refused(rt.alloc(), X));
}

/// Whether the checker takes all steps.
fn takes_all(checker: &mut Checker, steps: &[Step]) -> bool {
    for step in steps {
        if checker.take(step).is_err() {
            return false;
        }
    }
    true
}

/// Whether the checker takes the line.
fn takes(alloc: Global, checker: &mut Checker, line: &str) -> bool {
    match steps_of(alloc, line, "") {
        Some(steps) => takes_all(checker, &steps),
        None => false,
    }
}

/// Whether the last clause is of these literals.
fn ends_with(alloc: Global, checker: &Checker, wanted: &str) -> bool {
    match checker.clauses.last() {
        Some(clause) => are_literals(alloc, clause.as_slice(), wanted),
        None => false,
    }
}

/// Whether the line of a row adds its clause.
fn adds(alloc: Global, checker: &mut Checker, row: &str) -> bool {
    match row.split_once('|') {
        Some((line, added)) => {
            takes(alloc, checker, line) && ends_with(alloc, checker, trimmed(added))
        }
        None => row.starts_with('#'),
    }
}

/// Each line adds its clause.
fn adds_each(rt: &impl Abort, alloc: Global, checker: &mut Checker) {
    for (number, row) in ADDED.lines().enumerate() {
        expect(rt, number, adds(alloc, checker, row));
    }
}

/// Each line adds its clause. This is how many nodes there are then.
fn count_added(rt: &impl Abort, alloc: Global, sequent: &Sequent) -> Option<usize> {
    match Checker::new(alloc, sequent) {
        Ok(mut checker) => {
            adds_each(rt, alloc, &mut checker);
            Some(checker.nodes.len())
        }
        Err(_) => None,
    }
}

/// Whether so many nodes are there where each line has added its clause.
fn adds_up_to(rt: &impl Abort, alloc: Global, count: usize) -> bool {
    match sequent_of(alloc, EACH) {
        Some(sequent) => count_added(rt, alloc, &sequent) == Some(count),
        None => false,
    }
}

#[test]
fn adds_clauses(rt: HostRuntime) {
    assert!(rt; adds_up_to(&rt, rt.alloc(), 26));
}

/// A hypothesis, and what follows from it alone.
const REPEATED: &str = "h 0; u 0 : +0";

/// Whether the checker takes these steps ten thousand times.
fn takes_often(checker: &mut Checker, steps: &[Step]) -> bool {
    for _ in 0..10_000 {
        if !takes_all(checker, steps) {
            return false;
        }
    }
    true
}

/// Whether the log is refused at this place where it ends after ten thousand times these steps.
fn ends_at(alloc: Global, sequent: &Sequent, steps: &[Step], place: &str) -> bool {
    match Checker::new(alloc, sequent) {
        Ok(mut checker) => {
            takes_often(&mut checker, steps) && checker.finish().err() == refused_at(place)
        }
        Err(_) => false,
    }
}

fn repeated_ends_at(alloc: Global, sequent: &Sequent, place: &str) -> bool {
    match steps_of(alloc, REPEATED, "") {
        Some(steps) => ends_at(alloc, sequent, &steps, place),
        None => false,
    }
}

/// Whether the repeated lines are taken, and the log is refused at its end.
fn are_repeated_taken(alloc: Global) -> bool {
    match sequent_of(alloc, MODUS_PONENS) {
        Some(sequent) => repeated_ends_at(alloc, &sequent, "20001 0"),
        None => false,
    }
}

#[test]
fn takes_twenty_thousand_lines(rt: HostRuntime) {
    assert!(rt; are_repeated_taken(rt.alloc()));
}

/// x, that it is i8, and the negation of this. -128 becomes 3, -128 <= x 4, 127 5, and x <= 127 6.
const NO_I8: &str = "x; is:i8 0; not 1";

fn no_i8(alloc: Global) -> Result<Nodes, &'static str> {
    nodes_of(alloc, NO_I8)
}

/// Whether the last clause of what i8 means, for node 1, is of these literals, and four nodes are made for it.
fn is_type_clause(world: World, alloc: Global, nodes: &mut Over, wanted: &str) -> bool {
    match instance(alloc, world, nodes, 74, 2, &[1]) {
        Ok(clause) => are_literals(alloc, clause.as_slice(), wanted) && nodes.len() == 7,
        Err(_) => false,
    }
}

/// Whether the type's clause is of these literals.
fn has_type_clause_in(world: World, alloc: Global, wanted: &str) -> bool {
    match no_i8(alloc) {
        Ok(nodes) => is_type_clause(world, alloc, &mut Over::new(alloc, &nodes), wanted),
        Err(_) => false,
    }
}

fn has_type_clause(alloc: Global, wanted: &str) -> bool {
    match world(alloc) {
        Some(world) => has_type_clause_in(world, alloc, wanted),
        None => false,
    }
}

#[test]
fn gives_clauses_of_types(rt: HostRuntime) {
    assert!(rt; has_type_clause(rt.alloc(), "+1 -4 -6"));
}

/// Whether the second clause of node 2 is of these literals.
fn is_connective_clause(alloc: Global, nodes: &mut Over, wanted: &str) -> bool {
    match connective(alloc, nodes, 2, 1) {
        Ok(clause) => are_literals(alloc, clause.as_slice(), wanted),
        Err(_) => false,
    }
}

#[test]
fn gives_clauses_of_connectives(rt: HostRuntime) -> Result<(), Fail> {
    let nodes = no_i8(rt.alloc())?;
    let mut nodes = Over::new(rt.alloc(), &nodes);
    assert!(rt; is_connective_clause(rt.alloc(), &mut nodes, "+2 +1"));
    Ok(())
}
