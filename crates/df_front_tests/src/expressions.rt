//! Expressions and types as they are read, and where reading stops.

use crate::building::{expression_of, has_code, put, put_between, put_often, tokens_of};
use crate::expecting::expect;
use df_base::{Code, Global, Name, Stop};
use df_npexpr::{expression, ty};
use df_ntree::{BinaryOperator, Expr, TreeType, UnaryOperator};
use df_tok::Tokens;
use std::test::Fail;

fn sign(operator: BinaryOperator) -> &'static [u8] {
    match operator {
        BinaryOperator::Iff => b"<==>",
        BinaryOperator::Implies => b"==>",
        BinaryOperator::Explies => b"<==",
        BinaryOperator::And => b"&&",
        BinaryOperator::Or => b"||",
        BinaryOperator::Equal => b"==",
        BinaryOperator::NotEqual => b"!=",
        BinaryOperator::Less => b"<",
        BinaryOperator::AtMost => b"<=",
        BinaryOperator::Greater => b">",
        BinaryOperator::AtLeast => b">=",
        BinaryOperator::Add => b"+",
        BinaryOperator::Subtract => b"-",
        BinaryOperator::Multiply => b"*",
        BinaryOperator::Divide => b"/",
        BinaryOperator::Modulo => b"%",
    }
}

/// A leaf: a letter for a name or a truth, a digit for a number.
fn leaf(out: &mut Vec<u8>, tree: &Expr) {
    match tree {
        Expr::Number(literal) => {
            if literal.negative {
                put(out, b"~");
            }
            put(out, &[(literal.magnitude % 10) as u8 + b'0']);
        }
        Expr::Truth { value, .. } => put(out, if *value { b"T" } else { b"F" }),
        Expr::Name(ident) => put(out, &[(ident.name % 26) as u8 + b'a']),
        _ => {}
    }
}

/// Writes a tree, with brackets round each row of operands.
fn write(out: &mut Vec<u8>, tree: &Expr) {
    match tree {
        Expr::Parentheses { inner, .. } => {
            put(out, b"(");
            write(out, inner);
            put(out, b")");
        }
        Expr::Unary {
            operator,
            operand,
            ..
        } => {
            put(
                out,
                match operator {
                    UnaryOperator::Negate => b"-",
                    UnaryOperator::Not => b"!",
                },
            );
            write(out, operand);
        }
        Expr::Operations { first, rest } => {
            put(out, b"[");
            write(out, first);
            for operation in rest {
                put(out, sign(operation.operator));
                write(out, &operation.operand);
            }
            put(out, b"]");
        }
        Expr::Leading { operations } => {
            put(out, b"{");
            for operation in operations {
                put(out, sign(operation.operator));
                write(out, &operation.operand);
            }
            put(out, b"}");
        }
        _ => leaf(out, tree),
    }
}

fn is_written(alloc: Global, tree: &Expr, wanted: &str) -> bool {
    let mut out = Vec::new(alloc);
    write(&mut out, tree);
    out.as_slice() == wanted.as_bytes()
}

/// Texts, and their trees.
const READ: [(&str, &str); 24] = [
    ("a", "a"),
    ("7", "7"),
    ("true", "T"),
    ("false", "F"),
    ("- 5", "~5"),
    ("-(5)", "-(5)"),
    ("a -5", "[a-5]"),
    ("a - -5", "[a-~5]"),
    ("- -5", "-~5"),
    ("-a", "-a"),
    ("! !a", "!!a"),
    ("&& a", "{&&a}"),
    ("|| a", "{||a}"),
    ("|| a || b", "{||a||b}"),
    ("a && b && c", "[a&&b&&c]"),
    ("(a && b) || c", "[([a&&b])||c]"),
    ("a ==> b ==> c", "[a==>b==>c]"),
    ("a <== b <== c", "[a<==b<==c]"),
    ("a <==> b <==> c", "[a<==>b<==>c]"),
    ("a < b <= c", "[a<b<=c]"),
    ("a == b != c > d >= e", "[a==b!=c>d>=e]"),
    ("a + b - 1 + c", "[a+b-1+c]"),
    ("a+b<c && d ==> e <==> !f", "[[[[[a+b]<c]&&d]==>e]<==>!f]"),
    ("a ==> && b && c", "[a==>{&&b&&c}]"),
];

/// Whether a text begins with an expression of this tree.
fn has_tree(alloc: Global, text: &str, shown: &str) -> bool {
    match expression_of(alloc, text.as_bytes()) {
        Some(tree) => is_written(alloc, &tree, shown),
        None => false,
    }
}

#[test]
fn texts_have_their_trees(rt: HostRuntime) {
    for (number, (text, shown)) in READ.iter().enumerate() {
        expect(&rt, number, has_tree(rt.alloc(), *text, *shown));
    }
}

/// Texts that go on past the expression that they begin with: its tree, and the token behind it.
const BEGUN: [(&str, &str, usize); 6] = [
    ("a && b || c", "[a&&b]", 3),
    ("a || b && c", "[a||b]", 3),
    ("true && true || false", "[T&&T]", 3),
    ("&& a || b", "{&&a}", 2),
    ("a ==> b <== c", "[a==>b]", 3),
    ("a <== b ==> c", "[a<==b]", 3),
];

/// Whether tokens begin with an expression of this tree, and this token is behind it.
fn begins(alloc: Global, tokens: &Tokens, shown: &str, end: usize) -> bool {
    match expression(alloc, tokens, 0) {
        Ok((tree, after)) => after == end && is_written(alloc, &tree, shown),
        Err(_) => false,
    }
}

fn begins_with(alloc: Global, text: &str, shown: &str, end: usize) -> bool {
    match tokens_of(alloc, text.as_bytes()) {
        Some(tokens) => begins(alloc, &tokens, shown, end),
        None => false,
    }
}

#[test]
fn parts_end_before_a_barred_operator(rt: HostRuntime) {
    for (number, (text, shown, end)) in BEGUN.iter().enumerate() {
        expect(&rt, number, begins_with(rt.alloc(), *text, *shown, *end));
    }
}

/// Texts that begin with no expression, and the columns where reading stops.
const REFUSED: [(&str, u32); 6] = [
    ("!!a", 1),
    ("a +", 3),
    ("(a", 2),
    ("()", 2),
    ("if", 1),
    ("", 1),
];

/// Whether this is a refusal of the syntax at this column.
fn is_syntax_at(stop: &Stop, col: u32) -> bool {
    match stop {
        Stop::Refused(refusal) => refusal.code == Code::Syntax && refusal.pos.col == col,
        Stop::Memory => false,
    }
}

fn are_refused_at(alloc: Global, tokens: &Tokens, col: u32) -> bool {
    match expression(alloc, tokens, 0) {
        Ok(_) => false,
        Err(stop) => is_syntax_at(&stop, col),
    }
}

/// Whether the syntax of a text is refused at this column.
fn is_refused_at(alloc: Global, text: &str, col: u32) -> bool {
    match tokens_of(alloc, text.as_bytes()) {
        Some(tokens) => are_refused_at(alloc, &tokens, col),
        None => false,
    }
}

#[test]
fn what_has_no_tree_is_refused(rt: HostRuntime) {
    for (number, (text, col)) in REFUSED.iter().enumerate() {
        expect(&rt, number, is_refused_at(rt.alloc(), *text, *col));
    }
}

/// The token behind the expression from a token on, or none where there is no expression.
fn end_of_expression(alloc: Global, tokens: &Tokens, start: usize) -> Option<usize> {
    match expression(alloc, tokens, start) {
        Ok((_, end)) => Some(end),
        Err(_) => None,
    }
}

fn ends_at(alloc: Global, tokens: &Tokens) -> bool {
    end_of_expression(alloc, tokens, 1) == Some(4)
        && end_of_expression(alloc, tokens, 4).is_none()
        && end_of_expression(alloc, tokens, 9).is_none()
}

#[test]
fn a_part_ends_where_nothing_continues_it(rt: HostRuntime) -> Result<(), Fail> {
    let Some(tokens) = tokens_of(rt.alloc(), b"b a + 1 ; 2") else {
        return Err(Fail::new("the text is not divided"));
    };
    assert!(rt; ends_at(rt.alloc(), &tokens));
    Ok(())
}

/// The name and the column of the type from a token on, and the token behind it.
fn named_type(alloc: Global, tokens: &Tokens, start: usize) -> Option<(Name, u32, usize)> {
    match ty(alloc, tokens, start) {
        Ok((TreeType::Named(name), end)) => Some((name.name, name.pos.col, end)),
        _ => None,
    }
}

fn has_one_type(alloc: Global, tokens: &Tokens) -> bool {
    named_type(alloc, tokens, 1) == Some((0, 3, 2)) && ty(alloc, tokens, 5).is_err()
}

#[test]
fn a_type_is_one_token(rt: HostRuntime) -> Result<(), Fail> {
    let Some(tokens) = tokens_of(rt.alloc(), b"b a + 1 ; 2") else {
        return Err(Fail::new("the text is not divided"));
    };
    assert!(rt; has_one_type(rt.alloc(), &tokens));
    Ok(())
}

/// What stands around a text, the text, and how often that gives the height 200.
const HIGHEST: [(&str, &str, &str, usize); 5] = [
    ("(", "a", ")", 199),
    ("(", "-5", ")", 198),
    ("(", "a+a", ")", 198),
    ("! ", "a", "", 199),
    ("- ", "a", "", 199),
];

/// Whether tokens begin with an expression, or the syntax is refused.
fn are_read(alloc: Global, tokens: &Tokens, wanted: bool) -> bool {
    match expression(alloc, tokens, 0) {
        Ok(_) => wanted,
        Err(stop) => !wanted && has_code(&stop, Code::Syntax),
    }
}

fn is_read(alloc: Global, text: &[u8], wanted: bool) -> bool {
    match tokens_of(alloc, text) {
        Some(tokens) => are_read(alloc, &tokens, wanted),
        None => false,
    }
}

/// What stands around a text, and the text.
type Nested = (&'static str, &'static str, &'static str);

/// Whether a text so often between others is read, or refused.
fn is_nested_read(alloc: Global, parts: Nested, times: usize, wanted: bool) -> bool {
    let (open, inner, close) = parts;
    let mut text = Vec::new(alloc);
    put_between(&mut text, "", open, times, inner)
        && put_often(&mut text, close, times)
        && is_read(alloc, &text, wanted)
}

#[test]
fn heights_end_at_200(rt: HostRuntime) {
    for (number, (open, inner, close, count)) in HIGHEST.iter().enumerate() {
        let parts = (*open, *inner, *close);
        let fewer = count.saturating_sub(1);
        let more = count.saturating_add(1);
        expect(&rt, number, is_nested_read(rt.alloc(), parts, fewer, true));
        expect(&rt, number, is_nested_read(rt.alloc(), parts, *count, true));
        expect(&rt, number, is_nested_read(rt.alloc(), parts, more, false));
    }
}

/// How many operands are behind the first one of a row, where a tree is one.
fn operands_behind(tree: &Expr) -> Option<usize> {
    match tree {
        Expr::Operations { rest, .. } => Some(rest.len()),
        _ => None,
    }
}

fn further_operands(alloc: Global, text: &[u8]) -> Option<usize> {
    match expression_of(alloc, text) {
        Some(tree) => operands_behind(&tree),
        None => None,
    }
}

/// Whether so many operands are read behind the first one.
fn has_operands(alloc: Global, part: &str, count: usize) -> bool {
    let mut text = Vec::new(alloc);
    put_between(&mut text, "a", part, count, "") && further_operands(alloc, &text) == Some(count)
}

#[test]
fn operands_of_one_level_are_many(rt: HostRuntime) {
    for (number, part) in [" + a", " < a", " ==> a"].iter().enumerate() {
        expect(&rt, number, has_operands(rt.alloc(), *part, 100_000));
    }
}
