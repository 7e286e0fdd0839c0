//! What a token is, by its text.

ghost use Rattle.std.specs.Prelude.{◌≡◌, ◌≤◌, ◌<◌, ◌^◌, ◌+◌, length, IfOk, MatchResult, Err};
ghost use Rattle.df_base.specs.declared.refusal.Stop.TheVariants.{Refused};
ghost use Rattle.df_base.specs.declared.refusal.Refusal.{Refusal};
ghost use Rattle.df_base.specs.declared.refusal.Code.TheVariants as tags;
ghost use Rattle.df_base.specs.declared.refusal.Detail.TheVariants.{Nothing};
ghost use Rattle.df_tok.specs.Fault.{refusal};
ghost use Rattle.df_tok.specs.declared.token.Kind.TheVariants.{Number};
ghost use Rattle.df_tok.specs.Lexeme.{IsIdentifier, IsNumber, value_of_number};
ghost use Rattle.df_tok.specs.Token.{IsNamed, HasKind};
ghost use Rattle.df_tok.specs.Scanned.{HasForm, Grows};

use crate::literal::number_value;
use crate::scan::Form;
use crate::token::Kind;
use crate::word::{is_outside, word_of};
use df_base::{Code, Detail, Memory, Name, Names, Pos, Refusal, Stop};
use std::str;

/// The name of an identifier.
fn named(names: &mut Names, text: &[u8]) -> Result<Name, Memory>
    requires room { length names.old < 2 ^ 32 }
    requires identifier { IsIdentifier text.now }
    ensures named { IfOk result (λ name. IsNamed names.old text.now name names.new) }
    ensures kept { Grows names.old names.new 1 }
{
    match str::from_utf8(text) {
        Ok(text) => names.intern(text),
        Err(_) => unreachable!(),
    }
}

/// What an identifier is.
fn identifier(names: &mut Names, text: &[u8]) -> Result<Kind, Memory>
    requires room { length names.old < 2 ^ 32 }
    requires identifier { IsIdentifier text.now }
    ensures kind { IfOk result (λ kind. HasKind names.old text.now kind names.new) }
    ensures kept { Grows names.old names.new 1 }
{
    if text == b"_".as_slice() {
        return Ok(Kind::Wildcard);
    }
    if let Some(word) = word_of(text) {
        return Ok(Kind::Word(word));
    }
    let name = named(names, text)?;
    if is_outside(text) {
        Ok(Kind::Outside(name))
    } else {
        Ok(Kind::Name(name))
    }
}

/// What a number is.
fn numeral(text: &[u8], pos: Pos) -> Result<Kind, Stop>
    ensures { let value = value_of_number text.now in
        MatchResult result (λ kind. (kind ≡ Number value) × (value < 2 ^ 127)) (λ stop. (2 ^ 127 ≤ value) × (stop ≡ Refused (refusal tags.Number pos Nothing))) }
{
    match number_value(text) {
        Some(value) => Ok(Kind::Number(value)),
        None => Err(Stop::Refused(Refusal {
            code: Code::Number,
            pos,
            detail: Detail::Nothing,
        })),
    }
}

/// What a lexeme of this form is.
pub fn kind_of(names: &mut Names, form: Form, text: &[u8], pos: Pos) -> Result<Kind, Stop>
    requires room { length names.old < 2 ^ 32 }
    requires form { HasForm form text.now }
    ensures kind { IfOk result (λ kind. HasKind names.old text.now kind names.new) }
    ensures refused { (r : Refusal) → result ≡ Err (Refused r) → IsNumber text.now × (2 ^ 127 ≤ value_of_number text.now) × (r ≡ refusal tags.Number pos Nothing) }
    ensures kept { Grows names.old names.new 1 }
{
    match form {
        Form::Identifier => Ok(identifier(names, text)?),
        Form::Number => numeral(text, pos),
        Form::Character(c) => Ok(Kind::Character(c)),
        Form::Text => Ok(Kind::Text),
        Form::Sign(sign) => Ok(Kind::Sign(sign)),
    }
}
