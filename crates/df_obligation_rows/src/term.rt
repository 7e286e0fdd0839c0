//! Terms and formulas in words.

use crate::declarations::{Head, name_of};
use df_form::{Front, Node, NodeTable, Op, Symbol, Term};
use df_lang::Ty;
use std::alloc::{AllocError, Global};

fn type_name<'a>(heads: &[Head<'a>], ty: Ty) -> &'a str {
    match ty {
        Ty::Newtype(number) => name_of(heads, number),
        Ty::Int => "int",
        Ty::Nat => "nat",
        Ty::Bool => "bool",
        Ty::Char => "char",
    }
}

/// The word of an operation, as logs have it; a number by its digits, a free term by `t` and its number.
fn word(alloc: Global, heads: &[Head], op: Op) -> Result<String, AllocError> {
    let word = match op {
        Op::Number(number) => return format!(in alloc; "{number}"),
        Op::Free(free) => return free_word(alloc, free.number),
        Op::Of(Symbol::Is, payload) => return is_word(alloc, type_name(heads, payload.ty())),
        Op::Plus => "plus",
        Op::Times => "times",
        Op::Of(Symbol::Div, _) => "div",
        Op::Of(Symbol::Mod, _) => "mod",
        Op::Of(Symbol::Code, _) => "code",
        Op::Of(Symbol::Chr, _) => "chr",
        Op::Equal => "eq",
        Op::AtMost => "le",
        Op::Not => "not",
        Op::And => "and",
        Op::Or => "or",
        Op::Implies => "imp",
        Op::Iff => "iff",
    };
    String::from_str(alloc, word)
}

fn free_word(alloc: Global, number: usize) -> Result<String, AllocError> {
    format!(in alloc; "t{number}")
}

fn is_word(alloc: Global, name: &str) -> Result<String, AllocError> {
    format!(in alloc; "is:{name}")
}

/// Whether the operation stands without its parts, since it never has any.
fn is_alone(op: Op) -> bool {
    match op {
        Op::Number(_) | Op::Free(_) => true,
        Op::Plus
        | Op::Times
        | Op::Equal
        | Op::AtMost
        | Op::Not
        | Op::And
        | Op::Or
        | Op::Implies
        | Op::Iff
        | Op::Of(_, _) => false,
    }
}

/// Adds the texts of parts, with commas between them.
fn push_parts(text: &mut String, texts: &[String], parts: &[Term]) -> Result<(), AllocError> {
    let mut separator = "";
    for part in parts {
        text.push_str(separator)?;
        text.push_str(text_of(texts, *part))?;
        separator = ", ";
    }
    Ok(())
}

/// Adds the parts of a node whose parts have these texts.
fn push_in_parentheses(
    text: &mut String,
    texts: &[String],
    parts: &[Term],
) -> Result<(), AllocError> {
    text.push_str("(")?;
    push_parts(text, texts, parts)?;
    text.push_str(")")
}

/// The text of a node whose parts have these texts.
fn node_text(
    alloc: Global,
    heads: &[Head],
    texts: &[String],
    node: &Node,
) -> Result<String, AllocError> {
    let mut text = word(alloc, heads, node.op)?;
    if !is_alone(node.op) {
        push_in_parentheses(&mut text, texts, &node.parts)?;
    }
    Ok(text)
}

/// The text of a term among those of all nodes.
pub(crate) fn text_of(texts: &[String], term: Term) -> &str {
    match texts.get(term) {
        Some(text) => text.as_str(),
        None => "",
    }
}

/// Adds the text of a node.
fn push_node(
    alloc: Global,
    texts: &mut Vec<String>,
    heads: &[Head],
    node: &Node,
) -> Result<(), AllocError> {
    let text = node_text(alloc, heads, texts.as_slice(), node)?;
    Ok(texts.push(text)?)
}

fn push_nodes(
    alloc: Global,
    texts: &mut Vec<String>,
    heads: &[Head],
    nodes: &Front,
) -> Result<(), AllocError> {
    for number in 0..nodes.len() {
        if let Some(node) = nodes.get(number) {
            push_node(alloc, texts, heads, node)?;
        }
    }
    Ok(())
}

/// The text of each node, by its number.
pub(crate) fn texts(
    alloc: Global,
    heads: &[Head],
    nodes: &Front,
) -> Result<Vec<String>, AllocError> {
    let mut texts = Vec::new(alloc);
    push_nodes(alloc, &mut texts, heads, nodes)?;
    Ok(texts)
}
