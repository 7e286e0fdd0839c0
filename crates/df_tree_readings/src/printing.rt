//! Writes syntax trees.

use df_base::Global;
use df_tok::Kind;
use df_tree::{Ast, Label, Mark};
use std::alloc::AllocError;
use std::str;

fn name_of(label: Label) -> &'static str {
    match label {
        Label::File => "File",
        Label::Newtype => "Newtype",
        Label::Binder => "Binder",
        Label::Witness => "Witness",
        Label::Method => "Method",
        Label::Lemma => "Lemma",
        Label::Function => "Function",
        Label::Predicate => "Predicate",
        Label::Result => "Result",
        Label::Parameters => "Parameters",
        Label::Parameter => "Parameter",
        Label::Results => "Results",
        Label::Requires => "Requires",
        Label::Ensures => "Ensures",
        Label::Invariant => "Invariant",
        Label::Decreases => "Decreases",
        Label::BasicType => "BasicType",
        Label::NamedType => "NamedType",
        Label::Block => "Block",
        Label::Var => "Var",
        Label::Local => "Local",
        Label::ExpressionStatement => "ExpressionStatement",
        Label::Assign => "Assign",
        Label::If => "If",
        Label::Guarded => "Guarded",
        Label::While => "While",
        Label::Return => "Return",
        Label::Break => "Break",
        Label::Assert => "Assert",
        Label::Print => "Print",
        Label::Text => "Text",
        Label::Calc => "Calc",
        Label::Line => "Line",
        Label::Equivalence => "Equivalence",
        Label::Implication => "Implication",
        Label::Explication => "Explication",
        Label::Conjunction => "Conjunction",
        Label::Disjunction => "Disjunction",
        Label::Chain => "Chain",
        Label::Sum => "Sum",
        Label::Product => "Product",
        Label::As => "As",
        Label::Negate => "Negate",
        Label::Not => "Not",
        Label::Apply => "Apply",
        Label::Name => "Name",
        Label::Call => "Call",
        Label::Number => "Number",
        Label::Character => "Character",
        Label::Truth => "Truth",
        Label::Parentheses => "Parentheses",
        Label::Conditional => "Conditional",
        Label::Let => "Let",
        Label::Wildcard => "Wildcard",
        Label::NamePattern => "NamePattern",
        Label::ConstructorPattern => "ConstructorPattern",
    }
}

fn put_bytes(text: &mut String, bytes: &[u8]) -> Result<(), AllocError> {
    match str::from_utf8(bytes) {
        Ok(word) => text.push_str(word),
        Err(_) => Ok(()),
    }
}

fn put_number(alloc: Global, text: &mut String, number: u128) -> Result<(), AllocError> {
    let digits = format!(in alloc; "{number}")?;
    text.push_str(&digits)
}

/// Writes a token: of a name its number, of a literal what it says, and else how it is written.
fn put_mark(alloc: Global, text: &mut String, mark: &Mark) -> Result<(), AllocError> {
    text.push_str(" ")?;
    match mark.kind {
        Kind::Name(name) => {
            text.push_str("n")?;
            put_number(alloc, text, name as u128)
        }
        Kind::Number(value) => put_number(alloc, text, value),
        Kind::Character(code) => {
            text.push_str("c")?;
            put_number(alloc, text, code as u128)
        }
        Kind::Text => put_bytes(text, &mark.text),
        Kind::Word(word) => put_bytes(text, word.text()),
        Kind::Sign(sign) => put_bytes(text, sign.text()),
        Kind::Outside(_) => text.push_str("outside"),
        Kind::Wildcard => text.push_str("_"),
    }
}

/// Writes a tree, each node with its text.
pub(crate) fn put_tree(alloc: Global, text: &mut String, tree: &Ast) -> Result<(), AllocError> {
    match tree {
        Ast::Leaf(mark) => put_mark(alloc, text, mark),
        Ast::Node(label, span, inside) => {
            text.push_str(" (")?;
            text.push_str(name_of(*label))?;
            text.push_str(" ")?;
            put_number(alloc, text, span.start as u128)?;
            text.push_str("-")?;
            put_number(alloc, text, span.after as u128)?;
            for part in inside {
                put_tree(alloc, text, part)?;
            }
            text.push_str(")")
        }
    }
}
