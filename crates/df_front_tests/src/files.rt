//! Files of the grammar, short, long and high.

use crate::building::{has_code, put, put_between, put_often};
use crate::expecting::expect;
use df_base::{Code, Names, Stop};
use df_npdecl::parse;
use df_ntree::File;
use df_tok::tokens;
use std::alloc::Global;

/// Files of the grammar.
const FILES: [&str; 24] = [
    "",
    "// end",
    "newtype N = x | 0 <= x < 9",
    "newtype N = x: int | -0x8_0 <= x < 9 witness -1 newtype M = y | y",
    "method M() { }",
    "method M(x: N, y: N) returns (z: N) requires x < y ensures z == 1 requires true { }",
    "method M() returns () { { { } } }",
    "method M() { var x: N := -5; x := - 5; print \"a\\n\", x, -x; assert x?; }",
    "method M() { if a { } else if b { } else if c { } else { } }",
    "method M() { assert a -5; }",
    "method M() { assert - -5 == -(5); }",
    "method M() { assert a < b == c > d; }",
    "method M() { assert && a; assert || a || b; assert && a && b; }",
    "method M() { assert a <==> b <==> c; }",
    "method M() { assert a ==> b ==> c; }",
    "method M() { assert a <== b <== c; }",
    "method M() { assert (a && b) || c ==> d <==> !e; }",
    "method M() { assert a <= b < c; }",
    "method M() { assert ! !x; }",
    "method M() { assert !(!x); }",
    "method M() { assert 0x7f_ff + 1_0 - 2; }",
    "/* a /* b */ \u{e9} */ method M() { }",
    "method M() { assert true; assert false; }",
    "method M() { print x - 1 + y, (x); }",
];

/// The file of a source with few names.
fn file_with(alloc: Global, source: &[u8], names: &mut Names) -> Result<File, Stop> {
    if names.len() > 9 {
        return Err(Stop::Memory);
    }
    let tokens = tokens(alloc, source, names)?;
    parse(alloc, &tokens)
}

/// The file of a source.
fn file_of(alloc: Global, source: &[u8]) -> Result<File, Stop> {
    match Names::new(alloc) {
        Ok(mut names) => file_with(alloc, source, &mut names),
        Err(_) => Err(Stop::Memory),
    }
}

/// Whether a source is refused by this code, or read where there is none.
fn is_refused_by(alloc: Global, source: &[u8], code: Option<Code>) -> bool {
    match &file_of(alloc, source) {
        Ok(_) => code.is_none(),
        Err(stop) => match code {
            Some(code) => has_code(stop, code),
            None => false,
        },
    }
}

#[test]
fn reads_files(rt: HostRuntime) {
    for (number, source) in FILES.iter().enumerate() {
        expect(
            &rt,
            number,
            is_refused_by(rt.alloc(), source.as_bytes(), None),
        );
    }
}

/// What stands many times between others, how often, and the code of the refusal, if it is refused.
const LONG: [(&str, &str, usize, &str, Option<Code>); 10] = [
    ("", ";", 500_000, "", Some(Code::Syntax)),
    ("", ";", 500_001, "", Some(Code::Limit)),
    ("", "(", 500_000, "", Some(Code::Syntax)),
    (
        "method M() { assert ",
        "!",
        499_990,
        "x; }",
        Some(Code::Syntax),
    ),
    ("method M() { assert a", " + a", 240_000, "; }", None),
    ("method M() { assert a", " < a", 240_000, "; }", None),
    (
        "method M() { if a { }",
        " else if a { }",
        90_000,
        " }",
        None,
    ),
    ("method M() { ", "{ } ", 200_000, "}", None),
    ("", "newtype N = x | x ", 80_000, "", None),
    ("method M() { ", "assert a; ", 150_000, "}", None),
];

/// Whether a part so often between others is refused by this code, or read where there is none.
fn is_long_refused_by(
    alloc: Global,
    around: (&str, &str),
    part: &str,
    count: usize,
    code: Option<Code>,
) -> bool {
    let (first, last) = around;
    let mut text = Vec::new(alloc);
    put_between(&mut text, first, part, count, last) && is_refused_by(alloc, &text, code)
}

#[test]
fn reads_long_files(rt: HostRuntime) {
    for (number, (first, part, count, last, code)) in LONG.iter().enumerate() {
        let around = (*first, *last);
        let is_right = is_long_refused_by(rt.alloc(), around, *part, *count, *code);
        expect(&rt, number, is_right);
    }
}

/// A text, what stands around another one, that one, and the rest; and how often it may stand around.
const HIGHEST: [(&str, &str, &str, &str, &str, usize); 7] = [
    ("method M() { assert ", "(", "x", ")", "; }", 197),
    ("method M() { assert ", "! ", "x", "", "; }", 197),
    ("method M() { assert ", "- ", "x", "", "; }", 197),
    ("method M() { ", "{ ", "", "}", " }", 199),
    ("method M() { ", "if x { ", "{ }", "}", " }", 99),
    ("method M() requires ", "(", "x", ")", " { }", 199),
    ("newtype N = x | ", "(", "x", ")", "", 199),
];

/// What stands around all, and around a text so often, and this text.
type Nested = (
    &'static str,
    &'static str,
    &'static str,
    &'static str,
    &'static str,
);

/// Adds a text so often between two others, and what is around all of it.
fn put_nested(text: &mut Vec<u8>, parts: Nested, times: usize) -> bool {
    let (first, open, inner, close, last) = parts;
    let is_put = put_between(text, first, open, times, inner) && put_often(text, close, times);
    put(text, last.as_bytes());
    is_put
}

fn is_nested_refused_by(alloc: Global, parts: Nested, times: usize, code: Option<Code>) -> bool {
    let mut text = Vec::new(alloc);
    put_nested(&mut text, parts, times) && is_refused_by(alloc, &text, code)
}

/// Whether a text is read so often between others, and once less, and not once more.
fn ends_at(alloc: Global, parts: Nested, count: usize) -> bool {
    is_nested_refused_by(alloc, parts, count.saturating_sub(1), None)
        && is_nested_refused_by(alloc, parts, count, None)
        && is_nested_refused_by(alloc, parts, count.saturating_add(1), Some(Code::Syntax))
}

#[test]
fn heights_end_at_200(rt: HostRuntime) {
    for (number, (first, open, inner, close, last, count)) in HIGHEST.iter().enumerate() {
        let parts = (*first, *open, *inner, *close, *last);
        expect(&rt, number, ends_at(rt.alloc(), parts, *count));
    }
}
