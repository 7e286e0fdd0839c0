//! Tokens of texts: their kinds, texts, values and positions, and how many there may be.

use crate::building::{put, put_between, tokens_of};
use crate::expecting::expect;
use df_base::{Code, Detail, Global, Names, Stop};
use df_tok::{Kind, Token, tokens};

/// A letter for what a token is.
fn letter(kind: Kind) -> u8 {
    match kind {
        Kind::Name(_) => b'n',
        Kind::Outside(_) => b'o',
        Kind::Wildcard => b'w',
        Kind::Word(_) => b'k',
        Kind::Number(_) => b'd',
        Kind::Character(_) => b'c',
        Kind::Text => b't',
        Kind::Sign(_) => b's',
    }
}

/// Adds each token's letter and text, and a blank.
fn spell(out: &mut Vec<u8>, tokens: &[Token]) {
    for token in tokens {
        put(out, &[letter(token.kind)]);
        put(out, token.text);
        put(out, b" ");
    }
}

fn are_spelled(alloc: Global, tokens: &[Token], wanted: &str) -> bool {
    let mut out = Vec::new(alloc);
    spell(&mut out, tokens);
    out.as_slice() == wanted.as_bytes()
}

/// Whether a source has tokens of these letters and texts.
fn is_spelled(alloc: Global, source: &str, wanted: &str) -> bool {
    match tokens_of(alloc, source.as_bytes()) {
        Some(tokens) => are_spelled(alloc, &tokens.all, wanted),
        None => false,
    }
}

/// Texts, and each token's letter and text.
const DIVIDED: [(&str, &str); 12] = [
    ("", ""),
    ("x _a _ a'b'? A1", "nx n_a w_ na'b'? nA1 "),
    ("if array? object ifx", "kif karray? kobject nifx "),
    (
        "assume bv8 bv bv8x array2 array2? array2x",
        "oassume obv8 nbv nbv8x oarray2 oarray2? narray2x ",
    ),
    ("0 1_000 0xFf_1 1'a'", "d0 d1_000 d0xFf_1 d1 c'a' "),
    (r"'\n' '\'' ' '", r"c'\n' c'\'' c' ' "),
    (r#""" "a'\"\\" "#, r#"t"" t"a'\"\\" "#),
    ("a<==>b ==>c<==d<=e", "na s<==> nb s==> nc s<== nd s<= ne "),
    (
        "!in !inx ! in !!x !=y",
        "s!in s! ninx s! kin s!! nx s!= ny ",
    ),
    ("{:a} :=:|::: ..=>", "s{: na s} s:= s:| s:: s: s.. s=> "),
    ("a//b*/\nc/*/**/*//d", "na nc s/ nd "),
    ("a/b", "na s/ nb "),
];

#[test]
fn texts_divide_into_tokens(rt: HostRuntime) {
    for (number, (source, wanted)) in DIVIDED.iter().enumerate() {
        expect(&rt, number, is_spelled(rt.alloc(), *source, *wanted));
    }
}

/// A text whose numbers, characters and names have values.
const VALUED: &str = "0x7fffffffffffffffffffffffffffffff 1_0\n\t'\\t' b a b c";

/// The values of its tokens, their lines and their columns.
const VALUES: [(Kind, u32, u32); 7] = [
    (Kind::Number(170141183460469231731687303715884105727), 1, 1),
    (Kind::Number(10), 1, 36),
    (Kind::Character(9), 2, 2),
    (Kind::Name(1), 2, 7),
    (Kind::Name(0), 2, 9),
    (Kind::Name(1), 2, 11),
    (Kind::Name(2), 2, 13),
];

/// Whether these are the values and positions of the tokens.
fn are_valued(tokens: &[Token], values: &[(Kind, u32, u32)]) -> bool {
    for (token, (kind, line, col)) in tokens.iter().zip(values) {
        if token.kind != *kind || token.pos.line != *line || token.pos.col != *col {
            return false;
        }
    }
    tokens.len() == values.len()
}

fn has_values(alloc: Global, source: &str) -> bool {
    match tokens_of(alloc, source.as_bytes()) {
        Some(tokens) => are_valued(&tokens.all, &VALUES),
        None => false,
    }
}

#[test]
fn tokens_have_values_and_positions(rt: HostRuntime) {
    assert!(rt; has_values(rt.alloc(), VALUED));
}

/// A text, another so often and a third, and the count of the refusal: none where it is divided.
const LIMITS: [(&str, &str, usize, &str, Option<u64>); 4] = [
    ("", ";", 500_000, "", None),
    ("", ";", 500_001, "", Some(500_000)),
    ("//", "xxxxxxxxxxxxxx", 299_593, "", None),
    ("//", "xxxxxxxxxxxxxx", 299_593, "x", Some(4_194_305)),
];

/// The limit that a refusal tells.
fn limit_of(stop: &Stop) -> Option<u64> {
    match stop {
        Stop::Refused(refusal) => match refusal.detail {
            Detail::Count(count) if refusal.code == Code::Limit => Some(count),
            _ => None,
        },
        Stop::Memory => None,
    }
}

/// Whether a source with few names is past this limit, or divided where there is none.
fn is_past_with(alloc: Global, source: &[u8], names: &mut Names, limit: Option<u64>) -> bool {
    if names.len() > 9 {
        return false;
    }
    match tokens(alloc, source, names) {
        Ok(_) => limit.is_none(),
        Err(stop) => limit.is_some() && limit_of(&stop) == limit,
    }
}

/// Whether a source is past this limit, or divided where there is none.
fn is_past(alloc: Global, source: &[u8], limit: Option<u64>) -> bool {
    match Names::new(alloc) {
        Ok(mut names) => is_past_with(alloc, source, &mut names, limit),
        Err(_) => false,
    }
}

/// Whether a part so often between others is past this limit, or divided where there is none.
fn is_long_past(
    alloc: Global,
    around: (&str, &str),
    part: &str,
    count: usize,
    limit: Option<u64>,
) -> bool {
    let (first, last) = around;
    let mut source = Vec::new(alloc);
    put_between(&mut source, first, part, count, last) && is_past(alloc, &source, limit)
}

#[test]
fn bytes_and_tokens_have_limits(rt: HostRuntime) {
    for (number, (first, part, times, last, past)) in LIMITS.iter().enumerate() {
        let around = (*first, *last);
        let is_right = is_long_past(rt.alloc(), around, *part, *times, *past);
        expect(&rt, number, is_right);
    }
}
