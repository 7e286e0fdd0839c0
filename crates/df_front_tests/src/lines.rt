//! The lines of refusals, one for each code.

use crate::building::name_letters;
use crate::expecting::expect;
use df_base::{Code, Detail, Global, Names, Pos, Refusal};
use df_nfront::{pos_text, refusal_line};
use std::process::Abort;
use std::test::Fail;

/// Refusals at line 12 and column 3, where `b` is the name 1, and their lines.
const LINES: [(Code, Detail, &str); 15] = [
    (Code::Byte, Detail::Nothing, "p.dfy:12:3: S1 byte\n"),
    (Code::Token, Detail::Nothing, "p.dfy:12:3: S2 token\n"),
    (Code::Number, Detail::Nothing, "p.dfy:12:3: S3 number\n"),
    (Code::Outside, Detail::Word(1), "p.dfy:12:3: S4 outside b\n"),
    (Code::Syntax, Detail::Nothing, "p.dfy:12:3: S5 syntax\n"),
    (Code::Unknown, Detail::Word(0), "p.dfy:12:3: S6 unknown a\n"),
    (Code::Twice, Detail::Word(1), "p.dfy:12:3: S7 twice b\n"),
    (Code::Cycle, Detail::Nothing, "p.dfy:12:3: S8 cycle\n"),
    (
        Code::Typing,
        Detail::Rule(22),
        "p.dfy:12:3: S9 typing E22\n",
    ),
    (
        Code::Uninferred,
        Detail::Nothing,
        "p.dfy:12:3: S10 uninferred\n",
    ),
    (Code::Range, Detail::Nothing, "p.dfy:12:3: S11 range\n"),
    (Code::Ghost, Detail::Rule(7), "p.dfy:12:3: S12 ghost G7\n"),
    (
        Code::Unassigned,
        Detail::Word(1),
        "p.dfy:12:3: S13 unassigned b\n",
    ),
    (
        Code::Limit,
        Detail::Count(500000),
        "p.dfy:12:3: S14 limit\n",
    ),
    (Code::Empty, Detail::Nothing, "p.dfy:12:3: S15 empty\n"),
];

fn has_line(alloc: Global, names: &Names, refusal: &Refusal, line: &str) -> bool {
    match refusal_line(alloc, "p.dfy", names, refusal) {
        Ok(found) => found.as_slice() == line.as_bytes(),
        Err(_) => false,
    }
}

/// Whether the refusal at line 12 and column 3 has this line.
fn is_told(alloc: Global, names: &Names, code: Code, detail: Detail, line: &str) -> bool {
    let refusal = Refusal {
        code,
        pos: Pos { line: 12, col: 3 },
        detail,
    };
    has_line(alloc, names, &refusal, line)
}

fn expect_lines(rt: &impl Abort, alloc: Global, names: &Names) {
    for (number, (code, detail, line)) in LINES.iter().enumerate() {
        let is_right = is_told(alloc, names, *code, *detail, *line);
        expect(rt, number, is_right);
    }
}

#[test]
fn each_code_has_its_line(rt: HostRuntime) -> Result<(), Fail> {
    let mut names = Names::new(rt.alloc())?;
    assert!(rt; name_letters(&mut names));
    expect_lines(&rt, rt.alloc(), &names);
    Ok(())
}

#[test]
fn a_position_has_its_text(rt: HostRuntime) -> Result<(), Fail> {
    let text = pos_text(rt.alloc(), "d/q.dfy", Pos { line: 1, col: 204 })?;
    assert!(rt; text.as_slice() == b"d/q.dfy:1:204: ".as_slice());
    Ok(())
}
