//! What a source is read as.

use crate::printing::put_tree;
use anyhow::Result;
use df_base::{Code, Global, Names, Pos, Stop};
use df_pdecl::parse;
use df_pexpr::{expression, pattern, ty};
use df_tok::{Tokens, tokens};
use df_tree::Ast;
use std::alloc::AllocError;

/// What of a source is read.
#[derive(Clone, Copy)]
pub(crate) enum Part {
    File,
    Expression,
    Type,
    Pattern,
}

/// The tree that was read, and the number of the token behind it.
type Read = (Ast, usize);

fn read(alloc: Global, tokens: &Tokens, part: Part) -> Result<Read, Stop> {
    match part {
        Part::File => Ok((parse(alloc, tokens)?.file, tokens.all.len())),
        Part::Expression => expression(alloc, tokens, 0),
        Part::Type => ty(alloc, tokens, 0),
        Part::Pattern => pattern(alloc, tokens, 0),
    }
}

fn count(tree: &Ast) -> u64 {
    let mut found = 0u64;
    if let Ast::Node(_, _, inside) = tree {
        found = 1;
        for part in inside {
            found = found.saturating_add(count(part));
        }
    }
    found
}

fn code(code: Code) -> &'static str {
    match code {
        Code::Byte => "S1",
        Code::Token => "S2",
        Code::Number => "S3",
        Code::Outside => "S4",
        Code::Syntax => "S5",
        Code::Limit => "S14",
        _ => "S",
    }
}

fn refusal(alloc: Global, stop: Stop) -> Result<String, AllocError> {
    match stop {
        Stop::Refused(refusal) => {
            let Pos { line, col } = refusal.pos;
            let code = code(refusal.code);
            format!(in alloc; "{code} {line}:{col}")
        }
        Stop::Memory => String::from_str(alloc, "memory"),
    }
}

fn told(alloc: Global, read: &Read, is_short: bool) -> Result<String, AllocError> {
    let (tree, after) = read;
    if !is_short {
        let nodes = count(tree);
        return format!(in alloc; "{nodes} nodes");
    }
    let mut text = format!(in alloc; "{after}")?;
    put_tree(alloc, &mut text, tree)?;
    Ok(text)
}

fn answer_with(
    alloc: Global,
    source: &[u8],
    names: &mut Names,
    part: Part,
    is_short: bool,
) -> Result<String, AllocError> {
    if names.len() > 9 {
        return String::from_str(alloc, "memory");
    }
    match tokens(alloc, source, names) {
        Err(stop) => refusal(alloc, stop),
        Ok(tokens) => match read(alloc, &tokens, part) {
            Err(stop) => refusal(alloc, stop),
            Ok(found) => told(alloc, &found, is_short),
        },
    }
}

/// What a source is read as, or how it is refused.
pub(crate) fn answer(
    alloc: Global,
    source: &[u8],
    part: Part,
    is_short: bool,
) -> Result<String, AllocError> {
    match Names::new(alloc) {
        Ok(mut names) => answer_with(alloc, source, &mut names, part, is_short),
        Err(_) => String::from_str(alloc, "memory"),
    }
}
