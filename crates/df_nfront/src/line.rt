//! The line that tells of a refusal.

ghost use Rattle.std.specs.Prelude.{◌≡◌, ◌++◌, IfOk, OnOk};
ghost use Rattle.df_nfront.specs.Line.{rule_text, letter, name_text, detail_text, pos_text as pos_of, refusal_line as line_of};

use df_base::{Code, Detail, Name, Names, Pos, Refusal};
use std::alloc::{AllocError, Global};

/// The number and the word of a rule.
fn rule(code: Code) -> &'static str
    ensures { result.now ≡ rule_text code }
{
    match code {
        Code::Byte => "S1 byte",
        Code::Token => "S2 token",
        Code::Number => "S3 number",
        Code::Outside => "S4 outside",
        Code::Syntax => "S5 syntax",
        Code::Unknown => "S6 unknown",
        Code::Twice => "S7 twice",
        Code::Cycle => "S8 cycle",
        Code::Typing => "S9 typing",
        Code::Uninferred => "S10 uninferred",
        Code::Range => "S11 range",
        Code::Ghost => "S12 ghost",
        Code::Unassigned => "S13 unassigned",
        Code::Limit => "S14 limit",
        Code::Empty => "S15 empty",
    }
}

/// The letter before the number of a rule of ghost code, or of typing.
fn rule_letter(code: Code) -> &'static str
    ensures { result.now ≡ letter code }
{
    match code {
        Code::Ghost => " G",
        _ => " E",
    }
}

/// The text of a name; a name that is not among the names has none.
fn text(names: &Names, name: Name) -> &str
    ensures { result.now ≡ name_text names.now name }
{
    if (name as usize) < names.len() {
        names.text(name)
    } else {
        ""
    }
}

/// The position in a file, in front of what is told of it.
pub fn pos_text(alloc: Global, file: &str, pos: Pos) -> Result<Vec<u8>, AllocError>
    ensures { IfOk result (λ text. text.items ≡ pos_of file.now pos) }
{
    let row = pos.line;
    let col = pos.col;
    let text = format!(in alloc; "{file}:{row}:{col}: ")?;
    Ok(text.into_bytes())
}

fn push_detail(
    alloc: Global,
    line: &mut Vec<u8>,
    names: &Names,
    code: Code,
    detail: Detail,
) -> Result<(), AllocError>
    ensures { OnOk result (line.new.items ≡ line.old.items ++ detail_text names.now code detail) }
{
    match detail {
        Detail::Nothing => Ok(()),
        Detail::Word(name) => {
            line.extend_from_slice(b" ")?;
            line.extend_from_slice(text(names, name).as_bytes())?;
            Ok(())
        }
        Detail::Rule(rule) => {
            let letter = rule_letter(code);
            let detail = format!(in alloc; "{letter}{rule}")?;
            line.extend_from_slice(detail.as_bytes())?;
            Ok(())
        }
        Detail::Count(_) => Ok(()),
    }
}

/// The line on a refusal of a file: its position, the rule with its word, and the name or the rule of typing.
pub fn refusal_line(
    alloc: Global,
    file: &str,
    names: &Names,
    refusal: &Refusal,
) -> Result<Vec<u8>, AllocError>
    ensures { IfOk result (λ line. line.items ≡ line_of file.now names.now refusal.now) }
{
    let mut line = pos_text(alloc, file, refusal.pos)?;
    line.extend_from_slice(rule(refusal.code).as_bytes())?;
    push_detail(alloc, &mut line, names, refusal.code, refusal.detail)?;
    line.extend_from_slice(b"\n")?;
    Ok(line)
}
