//! Tables by hand: those that are models of ground sets and those that are not, and those of assignments.

use crate::expecting::{expect, expect_no_row};
use df_cases::{add_line, nodes_of, sequent_of, trimmed, world};
use df_clause::{Ground, clauses};
use df_form::{Lit, Nodes, Over, Sequent, World};
use df_model::{Valuation, valuation};
use df_rules::Known;
use df_table::{Table, is_model};
use std::alloc::Global;
use std::process::Abort;

/// A sequent, and a row for each table: its numbers and, behind `|`, whether it is a model of the ground set without
/// instances. Behind `#` a row says nothing.
type Sheet<'a> = (&'a str, &'a str);

const SHEETS: [Sheet; 3] = [
    // x <= 3 does not make x + 1 <= 3: x is 0, 3 is 1, x <= 3 is 2, 1 is 3, x + 1 is 4, and x + 1 <= 3 is 5
    (
        "x 3 le | x 1 plus 3 le",
        "3 3 1 1 4 0 | a model\n\
         # a truth may have any number of at least 1, and a falsehood any below\n\
         3 3 7 1 4 -5 | a model\n\
         # a node without a number, or a number without a node\n\
         3 3 1 1 4 | none\n\
         3 3 1 1 4 0 0 | none\n\
         # a literal that is wrong\n\
         3 4 1 1 5 0 | none\n\
         # a sum that is wrong\n\
         3 3 1 1 5 0 | none\n\
         # a sum that does not fit\n\
         170141183460469231731687303715884105727 3 1 1 -170141183460469231731687303715884105728 0 | none\n\
         # a comparison that is true and said to be false\n\
         2 3 1 1 3 0 | none\n\
         # a hypothesis that is false\n\
         4 3 0 1 5 0 | none",
    ),
    // x * y differs from y * x: x is 0, y 1, x * y 2, y * x 3, and x * y = y * x 4; 2 <= 3 becomes 5, and
    // 3 <= 2 6
    (
        "| x y times y x times eq",
        "# other products are not looked into\n\
         2 3 6 7 0 1 0 | a model\n\
         # equal arguments with other results\n\
         2 2 6 7 0 1 0 | none\n\
         # an equality of different numbers that is true\n\
         2 3 6 7 1 1 0 | none\n\
         # the goal is true\n\
         2 3 6 6 1 1 1 | none\n\
         # a clause of an equality is false, where its comparisons are not those of the numbers\n\
         2 3 6 6 0 1 1 | none",
    ),
    // 2 * x <= 7 or p: 2 is 0, x 1, 2 * x 2, 7 is 3, 2 * x <= 7 is 4, p 5, and the `or` 6
    (
        "| 2 x times 7 le p or",
        "2 4 8 7 0 0 0 | a model\n\
         # a multiple that is wrong\n\
         2 4 9 7 0 0 0 | none\n\
         # a part of a false `or` that is true\n\
         2 4 8 7 0 1 0 | none\n\
         # the goal is true\n\
         2 4 8 7 0 1 1 | none",
    ),
];

fn push_number(numbers: &mut Vec<i128>, word: &str) -> bool {
    match word.parse::<i128>() {
        Ok(number) => numbers.push(number).is_ok(),
        Err(_) => false,
    }
}

fn push_numbers(numbers: &mut Vec<i128>, words: &str) -> bool {
    for word in words.split(' ') {
        if !word.is_empty() && !push_number(numbers, word) {
            return false;
        }
    }
    true
}

/// The table of numbers.
fn table_by(alloc: Global, words: &str) -> Option<Table> {
    let mut numbers = Vec::new(alloc);
    if push_numbers(&mut numbers, words) {
        Some(Table::new(numbers))
    } else {
        None
    }
}

/// Whether a table of these numbers is a model of the ground set or not, as it says.
fn is_modelled_so(alloc: Global, set: &Ground, words: &str, told: &str) -> bool {
    match table_by(alloc, words) {
        Some(table) => is_model(set, &table) == (told == "a model"),
        None => false,
    }
}

fn is_row_told(alloc: Global, set: &Ground, row: &str) -> bool {
    match row.split_once('|') {
        Some((words, told)) => is_modelled_so(alloc, set, words, trimmed(told)),
        None => row.starts_with('#'),
    }
}

/// The first row that is not as it says, if there is one.
fn wrong_row(alloc: Global, set: &Ground, rows: &str) -> Option<usize> {
    for (number, row) in rows.lines().enumerate() {
        if !is_row_told(alloc, set, row) {
            return Some(number);
        }
    }
    None
}

fn wrong_of(alloc: Global, sequent: &Sequent, rows: &str) -> Option<usize> {
    match clauses(alloc, sequent) {
        Ok(set) => wrong_row(alloc, &set, rows),
        Err(_) => Some(0),
    }
}

/// The first row of a sheet that is not as it says, if there is one, or if there is no ground set.
fn wrong_in(alloc: Global, sheet: Sheet) -> Option<usize> {
    let (text, rows) = sheet;
    match sequent_of(alloc, text) {
        Some(sequent) => wrong_of(alloc, &sequent, rows),
        None => Some(0),
    }
}

#[test]
fn tells_models(rt: HostRuntime) {
    for (number, sheet) in SHEETS.iter().enumerate() {
        expect_no_row(&rt, number, wrong_in(rt.alloc(), *sheet));
    }
}

/// Nodes with their numbers, where the first two free numbers are 5 and -3, and node 2 alone is known
/// to be true.
const TABLE: &str = "x = 5\n\
    y = -3\n\
    p = 1\n\
    q = 0\n\
    # past the end of the numbers\n\
    z = 0\n\
    2 = 2\n\
    plus 0 1 = 2\n\
    times 0 1 = -15\n\
    times 7 7 = 225\n\
    is:i8 7 = 1\n\
    is:i8 8 = 0\n\
    is:other 7 = 0\n\
    eq 5 6 = 1\n\
    eq 0 1 = 0\n\
    # truths are compared by `iff`\n\
    iff 3 13 = 1\n\
    le 5 6 = 1\n\
    le 0 1 = 0\n\
    not 2 = 0\n\
    not 3 = 1\n\
    and = 1\n\
    and 2 3 = 0\n\
    or = 0\n\
    or 3 2 = 1\n\
    imp 2 3 = 0\n\
    imp 3 3 = 1\n\
    iff 2 3 = 0\n\
    iff 3 3 = 1\n\
    # 27: quotients and remainders, also by 0\n\
    div 0 1 = -1\n\
    mod 0 1 = 2\n\
    div 1 5 = -2\n\
    mod 1 5 = 1\n\
    div 0 4 = 0\n\
    mod 0 4 = 0\n\
    # 33: characters, `D` of a number that none has\n\
    chr 0 = 5\n\
    chr 8 = 68\n\
    code 33 = 5\n\
    eq 33 34 = 0\n\
    # 37: types\n\
    is:nat 0 = 1\n\
    is:nat 1 = 0\n\
    is:int 1 = 1\n\
    is:char 34 = 1";

/// Adds the node of a row.
fn add_row(alloc: Global, nodes: &mut Nodes, row: &str) -> bool {
    match row.split_once('=') {
        Some((node, _)) => add_line(alloc, nodes, trimmed(node)),
        None => row.starts_with('#'),
    }
}

fn add_rows(alloc: Global, nodes: &mut Nodes, rows: &str) -> bool {
    for row in rows.lines() {
        if !add_row(alloc, nodes, row) {
            return false;
        }
    }
    true
}

/// The nodes of rows.
fn tabulated(alloc: Global, rows: &str) -> Option<Nodes> {
    let mut nodes = Nodes::new(alloc);
    if add_rows(alloc, &mut nodes, rows) {
        Some(nodes)
    } else {
        None
    }
}

/// The table of nodes where node 2 is true.
fn table_of(world: World, alloc: Global, nodes: &Over) -> Option<Table> {
    let mut known = Known::new(alloc);
    let second = Lit {
        positive: true,
        node: 2,
    };
    if known.insert(second).is_err() {
        return None;
    }
    match valuation(alloc, world, nodes, &[5, -3], &known) {
        Ok(Valuation::Table(table)) => Some(table),
        Ok(Valuation::Wide) | Err(_) => None,
    }
}

fn table_in(world: World, alloc: Global, rows: &str) -> Option<Table> {
    match tabulated(alloc, rows) {
        Some(nodes) => table_of(world, alloc, &Over::new(alloc, &nodes)),
        None => None,
    }
}

/// The numbers of these nodes.
fn made_table(alloc: Global, rows: &str) -> Option<Table> {
    match world(alloc) {
        Some(world) => table_in(world, alloc, rows),
        None => None,
    }
}

/// Whether the node of this number has the number of its row.
fn has_number(table: &Table, node: usize, number: &str) -> bool {
    match number.parse::<i128>() {
        Ok(number) => table.number(node) == number,
        Err(_) => false,
    }
}

/// Each node has the number of its row. This is how many there are.
fn count_numbers(rt: &impl Abort, table: &Table, rows: &str) -> usize {
    let mut node = 0usize;
    for row in rows.lines() {
        if let Some((_, number)) = row.split_once('=') {
            expect(rt, node, has_number(table, node, trimmed(number)));
            node = node.saturating_add(1);
        }
    }
    node
}

/// Each node has its number. Whether there are just so many.
fn tabulates(rt: &impl Abort, alloc: Global, rows: &str) -> bool {
    match made_table(alloc, rows) {
        Some(table) => count_numbers(rt, &table, rows) == table.len(),
        None => false,
    }
}

#[test]
fn tabulates_each_operation(rt: HostRuntime) {
    assert!(rt; tabulates(&rt, rt.alloc(), TABLE));
}

/// Nodes with an operation on two numbers, these, and whether the result is past 128 bits.
const WIDE: [(&str, [i128; 2], bool); 10] = [
    ("x; y; plus 0 1", [i128::MAX, 0], false),
    ("x; y; plus 0 1", [i128::MAX, 1], true),
    ("x; y; plus 0 1", [i128::MIN, -1], true),
    ("x; y; times 0 1", [1 << 126, 1], false),
    ("x; y; times 0 1", [1 << 126, 2], true),
    ("x; y; times 0 1", [1 << 126, -2], false),
    ("x; y; times 0 1", [i128::MIN, -1], true),
    ("x; y; div 0 1", [i128::MIN, 1], false),
    ("x; y; div 0 1", [i128::MIN, -1], true),
    ("x; y; mod 0 1", [i128::MIN, -1], false),
];

/// Whether the nodes of the operation on the numbers have no numbers, since one is past 128 bits.
fn are_wide(world: World, alloc: Global, nodes: &Over, numbers: &[i128]) -> Option<bool> {
    let known = Known::new(alloc);
    match valuation(alloc, world, nodes, numbers, &known) {
        Ok(valuation) => Some(matches!(valuation, Valuation::Wide)),
        Err(_) => None,
    }
}

fn is_wide_in(world: World, alloc: Global, lines: &str, numbers: &[i128]) -> Option<bool> {
    match nodes_of(alloc, lines) {
        Ok(nodes) => are_wide(world, alloc, &Over::new(alloc, &nodes), numbers),
        Err(_) => None,
    }
}

/// Whether the result of the operation on the numbers is past 128 bits.
fn is_wide(alloc: Global, lines: &str, numbers: &[i128]) -> Option<bool> {
    match world(alloc) {
        Some(world) => is_wide_in(world, alloc, lines, numbers),
        None => None,
    }
}

#[test]
fn tells_of_wide_numbers(rt: HostRuntime) {
    for (case, (lines, numbers, wide)) in WIDE.iter().enumerate() {
        let found = is_wide(rt.alloc(), *lines, numbers);
        expect(&rt, case, found == Some(*wide));
    }
}
