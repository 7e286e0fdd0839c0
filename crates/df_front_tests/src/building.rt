//! Texts of many parts, and what they are read as.

use df_base::{Code, Global, Names, Stop};
use df_npexpr::expression;
use df_ntree::Expr;
use df_tok::{Tokens, tokens};

/// Adds a text. Where memory is refused it is left out, so that the text is none that a test wants.
pub(crate) fn put(text: &mut Vec<u8>, part: &[u8]) {
    let _ = text.extend_from_slice(part);
}

/// Adds a part so often.
pub(crate) fn put_often(text: &mut Vec<u8>, part: &str, count: usize) -> bool {
    for _ in 0..count {
        if text.extend_from_slice(part.as_bytes()).is_err() {
            return false;
        }
    }
    true
}

/// Adds a text, then another so often, then a third.
pub(crate) fn put_between(
    text: &mut Vec<u8>,
    first: &str,
    part: &str,
    count: usize,
    last: &str,
) -> bool {
    put(text, first.as_bytes());
    let is_put = put_often(text, part, count);
    put(text, last.as_bytes());
    is_put
}

/// Gives a text the next name, where there are few.
fn name(names: &mut Names, text: &str) -> bool {
    if names.len() > 9 {
        return false;
    }
    names.intern(text).is_ok()
}

/// Gives `a` the name 0 and `b` the name 1.
pub(crate) fn name_letters(names: &mut Names) -> bool {
    name(names, "a") && name(names, "b")
}

/// The tokens of a text, where names are given to the letters.
fn tokens_with<'a>(alloc: Global, text: &'a [u8], names: &mut Names) -> Option<Tokens<'a>> {
    if !name_letters(names) || names.len() > 9 {
        return None;
    }
    tokens(alloc, text, names).ok()
}

/// The tokens of a text, where `a` is the name 0 and `b` the name 1.
pub(crate) fn tokens_of(alloc: Global, text: &[u8]) -> Option<Tokens<'_>> {
    match Names::new(alloc) {
        Ok(mut names) => tokens_with(alloc, text, &mut names),
        Err(_) => None,
    }
}

/// The expression that tokens begin with.
fn tree_of(alloc: Global, tokens: &Tokens) -> Option<Expr> {
    match expression(alloc, tokens, 0) {
        Ok((tree, _)) => Some(tree),
        Err(_) => None,
    }
}

/// The expression that a text begins with.
pub(crate) fn expression_of(alloc: Global, text: &[u8]) -> Option<Expr> {
    match tokens_of(alloc, text) {
        Some(tokens) => tree_of(alloc, &tokens),
        None => None,
    }
}

/// Whether this is the code of a refusal.
pub(crate) fn has_code(stop: &Stop, code: Code) -> bool {
    match stop {
        Stop::Refused(refusal) => refusal.code == code,
        Stop::Memory => false,
    }
}
