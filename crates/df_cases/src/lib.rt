//! What tests are about, built of plain data: sequents of operations on a stack or of texts, nodes of texts, literals, and rows by
//! their entries.
#![tactic(auto)]

mod texts;

use df_base::Pos;
use df_form::{
    Combination, Draft, Free, Lit, Multiple, NodeTable, Op, Payload, Sequent, Sort, Symbol, World,
};
use df_lang::{Decl, Declared, Interval, Newtype, Program, Ty};
use df_level::Row;
use std::alloc::{AllocError, Global};
pub use texts::{add_line, are_literals, nodes_of, push_literals, sequent_of, trimmed};

/// Operations with how many terms of a stack each takes.
pub type Terms<'a> = &'a [(Op, usize)];

/// A literal: whether it is positive, and its node.
pub type Signed = (bool, usize);

/// A divisor, and factors with the numbers of their rows.
pub type Sum<'a> = (i128, &'a [(i128, usize)]);

/// The coefficients of a row by node, and its constant.
pub type Sparse<'a> = (&'a [(usize, i128)], i128);

pub const P: Op = Op::Free(Free {
    number: 0,
    sort: Sort::Truth,
});

pub const Q: Op = Op::Free(Free {
    number: 1,
    sort: Sort::Truth,
});

pub const X: Op = Op::Free(Free {
    number: 2,
    sort: Sort::Number,
});

pub const Y: Op = Op::Free(Free {
    number: 3,
    sort: Sort::Number,
});

pub const Z: Op = Op::Free(Free {
    number: 4,
    sort: Sort::Number,
});

/// That a number is of `i8`.
pub const I8: Op = Op::Of(Symbol::Is, Payload::Type(Ty::Newtype(0)));

/// That a number is of `byte`.
pub const BYTE: Op = Op::Of(Symbol::Is, Payload::Type(Ty::Newtype(1)));

/// That a number is of a newtype that is not declared.
pub const UNDECLARED: Op = Op::Of(Symbol::Is, Payload::Type(Ty::Newtype(2)));

/// That a number is a `nat`.
pub const NAT: Op = Op::Of(Symbol::Is, Payload::Type(Ty::Nat));

/// That a number is an `int`.
pub const INT: Op = Op::Of(Symbol::Is, Payload::Type(Ty::Int));

/// That a character is a `char`.
pub const CHAR: Op = Op::Of(Symbol::Is, Payload::Type(Ty::Char));

fn declared(alloc: Global, name: u32, text: &str) -> Result<Declared, AllocError> {
    Ok(Declared {
        name,
        text: String::from_str(alloc, text)?,
        pos: Pos { line: 1, col: 9 },
    })
}

/// newtype i8 = x: int | -128 <= x < 128
fn i8(alloc: Global) -> Result<Newtype, AllocError> {
    Ok(Newtype {
        declared: declared(alloc, 0, "i8")?,
        interval: Interval::new(-128, 127).ok_or(AllocError)?,
        default: 0,
    })
}

/// newtype byte = x: int | 0 <= x < 256
fn byte(alloc: Global) -> Result<Newtype, AllocError> {
    Ok(Newtype {
        declared: declared(alloc, 5, "byte")?,
        interval: Interval::new(0, 255).ok_or(AllocError)?,
        default: 0,
    })
}

fn owned(alloc: Global) -> Result<Program, AllocError> {
    let first = i8(alloc)?;
    let second = byte(alloc)?;
    let decls = vec![in alloc; Decl::Newtype(first), Decl::Newtype(second)]?;
    Ok(Program::new(decls))
}

/// The same program, which is never dropped, so that no test need own it.
fn lent(alloc: Global, program: Program) -> Option<&'static Program> {
    match Box::new(alloc, program) {
        Ok(program) => Some(&*Box::leak(program)),
        Err(_) => None,
    }
}

fn program(alloc: Global) -> Option<&'static Program> {
    match owned(alloc) {
        Ok(program) => lent(alloc, program),
        Err(_) => None,
    }
}

/// What formulas know of the program of `i8` and `byte`.
pub fn world(alloc: Global) -> Option<World<'static>> {
    match program(alloc) {
        Some(program) => Some(World { program }),
        None => None,
    }
}

/// A draft over this program.
pub fn draft(alloc: Global) -> Option<Draft<'static>> {
    match world(alloc) {
        Some(world) => Some(Draft::new(alloc, world)),
        None => None,
    }
}

/// Puts a term on the stack, whose parts are the last ones there. Whether there are so many, of its sorts.
fn put_term(draft: &mut Draft, op: Op, count: usize) -> bool {
    if count > draft.stack.len() {
        return false;
    }
    let start = draft.stack.len() - count;
    if !draft.nodes.admits(op, &draft.stack[start..]) {
        return false;
    }
    draft.apply(op, count).is_ok()
}

/// Puts the terms on the stack. Whether they are of their sorts.
fn put(draft: &mut Draft, terms: Terms) -> bool {
    for (op, count) in terms {
        if !put_term(draft, *op, *count) {
            return false;
        }
    }
    true
}

/// Puts the terms of a hypothesis. Whether they leave one formula.
pub fn assume(draft: &mut Draft, terms: Terms) -> bool {
    if !put(draft, terms) {
        return false;
    }
    if draft.stack.len() != 1 || !draft.nodes.is_formula(draft.stack[0]) {
        return false;
    }
    draft.assume().is_ok()
}

/// Puts the terms of hypotheses. Whether each leaves one formula.
pub fn assume_all(draft: &mut Draft, hypotheses: &[Terms]) -> bool {
    for hypothesis in hypotheses {
        if !assume(draft, *hypothesis) {
            return false;
        }
    }
    true
}

/// Puts the terms of the goal, and ends the sequent; nothing where they do not leave one formula.
pub fn conclude<'a>(alloc: Global, draft: &mut Draft<'a>, goal: Terms) -> Option<Sequent<'a>> {
    if !put(draft, goal) {
        return None;
    }
    if draft.stack.len() != 1 || !draft.nodes.is_formula(draft.stack[0]) {
        return None;
    }
    draft.sequent(alloc).ok()
}

fn sequent_in<'a>(
    alloc: Global,
    draft: &mut Draft<'a>,
    hypotheses: &[Terms],
    goal: Terms,
) -> Option<Sequent<'a>> {
    if assume_all(draft, hypotheses) {
        conclude(alloc, draft, goal)
    } else {
        None
    }
}

/// The sequent of these hypotheses and this goal over the program of `i8` and `byte`; nothing where the terms of one do
/// not leave one formula.
pub fn sequent(alloc: Global, hypotheses: &[Terms], goal: Terms) -> Option<Sequent<'static>> {
    match draft(alloc) {
        Some(mut draft) => sequent_in(alloc, &mut draft, hypotheses, goal),
        None => None,
    }
}

/// Literals in this order; nothing where memory is refused, as below.
pub fn literals(alloc: Global, signed: &[Signed]) -> Option<Vec<Lit>> {
    let mut literals = Vec::new(alloc);
    for &(positive, node) in signed {
        if literals.push(Lit { positive, node }).is_err() {
            return None;
        }
    }
    Some(literals)
}

fn members(alloc: Global, multiples: &[(i128, usize)]) -> Option<Vec<Multiple>> {
    let mut members = Vec::new(alloc);
    for &(factor, row) in multiples {
        if members.push(Multiple { factor, row }).is_err() {
            return None;
        }
    }
    Some(members)
}

fn push_combination(alloc: Global, combinations: &mut Vec<Combination>, sum: &Sum) -> bool {
    let (divisor, multiples) = *sum;
    match members(alloc, multiples) {
        Some(members) => combinations.push(Combination { divisor, members }).is_ok(),
        None => false,
    }
}

pub fn combinations(alloc: Global, sums: &[Sum]) -> Option<Vec<Combination>> {
    let mut combinations = Vec::new(alloc);
    for sum in sums {
        if !push_combination(alloc, &mut combinations, sum) {
            return None;
        }
    }
    Some(combinations)
}

/// A row; nothing where its entries are out of order.
pub fn row(alloc: Global, sparse: Sparse) -> Option<Row> {
    let (coefficients, constant) = sparse;
    match Vec::from_slice(alloc, coefficients) {
        Ok(coefficients) => Row::new(coefficients, constant),
        Err(_) => None,
    }
}

fn push_row(alloc: Global, rows: &mut Vec<Row>, sparse: Sparse) -> bool {
    match row(alloc, sparse) {
        Some(row) => rows.push(row).is_ok(),
        None => false,
    }
}

pub fn rows(alloc: Global, sparse: &[Sparse]) -> Option<Vec<Row>> {
    let mut rows = Vec::new(alloc);
    for given in sparse {
        if !push_row(alloc, &mut rows, *given) {
            return None;
        }
    }
    Some(rows)
}
