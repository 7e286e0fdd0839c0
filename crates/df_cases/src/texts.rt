//! Sequents by their texts: terms in postfix words, as `x 1 plus 4 le`, with commas between hypotheses and `|` before the
//! goal. Nodes by their texts, a word and the numbers of parts, as `plus 0 1`. And the text of literals, as `+1 -2`.

use crate::{BYTE, CHAR, I8, INT, NAT, P, Q, UNDECLARED, X, Y, Z, assume, conclude, draft};
use df_form::{Arena, Draft, Lit, Node, NodeTable, Nodes, Op, Sequent, Symbol};
use std::alloc::{AllocError, Global};

/// A number; `min` and `max` are the ends of 128 bits.
fn number(word: &str) -> Option<Op> {
    if word == "min" {
        return Some(Op::Number(i128::MIN));
    }
    if word == "max" {
        return Some(Op::Number(i128::MAX));
    }
    match word.parse::<i128>() {
        Ok(number) => Some(Op::Number(number)),
        Err(_) => None,
    }
}

/// A free term or a number.
fn leaf(word: &str) -> Option<Op> {
    if word == "p" {
        Some(P)
    } else if word == "q" {
        Some(Q)
    } else if word == "x" {
        Some(X)
    } else if word == "y" {
        Some(Y)
    } else if word == "z" {
        Some(Z)
    } else {
        number(word)
    }
}

/// A test of a type; `other` is a newtype that is not declared.
fn type_test(word: &str) -> Option<Op> {
    if word == "is:i8" {
        Some(I8)
    } else if word == "is:byte" {
        Some(BYTE)
    } else if word == "is:other" {
        Some(UNDECLARED)
    } else if word == "is:nat" {
        Some(NAT)
    } else if word == "is:int" {
        Some(INT)
    } else if word == "is:char" {
        Some(CHAR)
    } else {
        None
    }
}

/// An operation on one term.
fn unary(word: &str) -> Option<Op> {
    if word == "not" {
        Some(Op::Not)
    } else if word == "code" {
        Some(Op::symbol(Symbol::Code))
    } else if word == "chr" {
        Some(Op::symbol(Symbol::Chr))
    } else {
        type_test(word)
    }
}

/// An operation on two numbers that gives one.
fn arithmetic(word: &str) -> Option<Op> {
    if word == "plus" {
        Some(Op::Plus)
    } else if word == "times" {
        Some(Op::Times)
    } else if word == "div" {
        Some(Op::symbol(Symbol::Div))
    } else if word == "mod" {
        Some(Op::symbol(Symbol::Mod))
    } else {
        None
    }
}

/// A formula of two terms.
fn relation(word: &str) -> Option<Op> {
    if word == "eq" {
        Some(Op::Equal)
    } else if word == "le" {
        Some(Op::AtMost)
    } else if word == "and" {
        Some(Op::And)
    } else if word == "or" {
        Some(Op::Or)
    } else if word == "imp" {
        Some(Op::Implies)
    } else if word == "iff" {
        Some(Op::Iff)
    } else {
        None
    }
}

fn binary(word: &str) -> Option<Op> {
    match arithmetic(word) {
        Some(op) => Some(op),
        None => relation(word),
    }
}

/// `and` or `or` of so many formulas, as `and:8`.
fn joined(word: &str) -> Option<(Op, usize)> {
    let (name, count) = word.split_once(':')?;
    let count = count.parse::<usize>().ok()?;
    if name == "and" {
        Some((Op::And, count))
    } else if name == "or" {
        Some((Op::Or, count))
    } else {
        None
    }
}

/// An operation that takes terms, and how many.
fn operation(word: &str) -> Option<(Op, usize)> {
    if let Some(op) = unary(word) {
        return Some((op, 1));
    }
    match binary(word) {
        Some(op) => Some((op, 2)),
        None => joined(word),
    }
}

fn term(word: &str) -> Option<(Op, usize)> {
    match leaf(word) {
        Some(op) => Some((op, 0)),
        None => operation(word),
    }
}

fn push_term(terms: &mut Vec<(Op, usize)>, word: &str) -> bool {
    match term(word) {
        Some(term) => terms.push(term).is_ok(),
        None => false,
    }
}

fn push_terms(terms: &mut Vec<(Op, usize)>, text: &str) -> bool {
    for word in text.split(' ') {
        if !word.is_empty() && !push_term(terms, word) {
            return false;
        }
    }
    true
}

/// The terms of a text; nothing where a word is none, or memory is refused.
fn terms(alloc: Global, text: &str) -> Option<Vec<(Op, usize)>> {
    let mut terms = Vec::new(alloc);
    if push_terms(&mut terms, text) {
        Some(terms)
    } else {
        None
    }
}

fn assume_text(alloc: Global, draft: &mut Draft, text: &str) -> bool {
    match terms(alloc, text) {
        Some(terms) => assume(draft, &terms),
        None => false,
    }
}

fn assume_texts(alloc: Global, draft: &mut Draft, texts: &str) -> bool {
    for text in texts.split(',') {
        if !text.is_empty() && !assume_text(alloc, draft, text) {
            return false;
        }
    }
    true
}

fn conclude_text<'a>(alloc: Global, draft: &mut Draft<'a>, text: &str) -> Option<Sequent<'a>> {
    match terms(alloc, text) {
        Some(terms) => conclude(alloc, draft, &terms),
        None => None,
    }
}

fn sequent_in<'a>(alloc: Global, draft: &mut Draft<'a>, text: &str) -> Option<Sequent<'a>> {
    let (hypotheses, goal) = text.split_once('|')?;
    if assume_texts(alloc, draft, hypotheses) {
        conclude_text(alloc, draft, goal)
    } else {
        None
    }
}

/// The sequent of a text over the program of `i8` and `byte`; nothing where it is none.
pub fn sequent_of(alloc: Global, text: &str) -> Option<Sequent<'static>> {
    match draft(alloc) {
        Some(mut draft) => sequent_in(alloc, &mut draft, text),
        None => None,
    }
}

fn op_of(word: &str) -> Option<Op> {
    match term(word) {
        Some((op, _)) => Some(op),
        None => None,
    }
}

fn push_part(parts: &mut Vec<usize>, word: &str) -> bool {
    match word.parse::<usize>() {
        Ok(part) => parts.push(part).is_ok(),
        Err(_) => false,
    }
}

fn push_parts(parts: &mut Vec<usize>, words: &str) -> bool {
    for word in words.split(' ') {
        if !word.is_empty() && !push_part(parts, word) {
            return false;
        }
    }
    true
}

fn node_of(alloc: Global, line: &str) -> Option<Node> {
    let (word, words) = line.split_once(' ').unwrap_or((line, ""));
    let op = op_of(word)?;
    let mut parts = Vec::new(alloc);
    if push_parts(&mut parts, words) {
        Some(Node { op, parts })
    } else {
        None
    }
}

fn add(nodes: &mut Nodes, node: &Node) -> bool {
    let parts = node.parts.as_slice();
    nodes.admits(node.op, parts) && nodes.add(node.op, parts).is_ok()
}

/// Adds the node of a text. Whether it is one whose parts are of their sorts.
pub fn add_line(alloc: Global, nodes: &mut Nodes, line: &str) -> bool {
    match node_of(alloc, line) {
        Some(node) => add(nodes, &node),
        None => false,
    }
}

/// A text without a blank in front and one at its end.
pub fn trimmed(text: &str) -> &str {
    let text = text.strip_prefix(' ').unwrap_or(text);
    text.strip_suffix(' ').unwrap_or(text)
}

fn add_lines(alloc: Global, nodes: &mut Nodes, lines: &str) -> bool {
    for line in lines.split(';') {
        if !add_line(alloc, nodes, trimmed(line)) {
            return false;
        }
    }
    true
}

/// Nodes by their texts, with semicolons between; a word where one is none.
pub fn nodes_of(alloc: Global, lines: &str) -> Result<Nodes, &'static str> {
    let mut nodes = Nodes::new(alloc);
    if add_lines(alloc, &mut nodes, lines) {
        Ok(nodes)
    } else {
        Err("no nodes")
    }
}

fn push_literal(alloc: Global, text: &mut String, literal: Lit) -> Result<(), AllocError> {
    let sign = if literal.positive { "+" } else { "-" };
    let node = literal.node;
    let word = format!(in alloc; "{sign}{node}")?;
    text.push_str(word.as_str())
}

/// Adds the text of literals.
pub fn push_literals(alloc: Global, text: &mut String, literals: &[Lit]) -> Result<(), AllocError> {
    let mut separator = "";
    for literal in literals {
        text.push_str(separator)?;
        push_literal(alloc, text, *literal)?;
        separator = " ";
    }
    Ok(())
}

/// Whether this is the text of the literals.
pub fn are_literals(alloc: Global, literals: &[Lit], wanted: &str) -> bool {
    let mut text = String::new(alloc);
    if push_literals(alloc, &mut text, literals).is_err() {
        return false;
    }
    text.as_str() == wanted
}
