//! Divides a source into tokens, a piece after another.

ghost use Rattle.std.specs.Prelude.{◌≡◌, ◌+◌, ◌<◌, ◌≤◌, ◌^◌, length, map, vec_len, IfOk, OnOk, Err};
ghost use Rattle.df_base.specs.declared.refusal.Stop.TheVariants.{Refused};
ghost use Rattle.df_base.specs.declared.refusal.Refusal.{Refusal};
ghost use Rattle.df_tok.specs.Token.{view};
ghost use Rattle.df_tok.specs.Division.{Divides};
ghost use Rattle.df_tok.specs.Scanned.{HasForm, Grows};
ghost use Rattle.df_tok.specs.Steps.{AddsToken, CannotAdd, AddsPiece};
ghost use Rattle.df_tok.specs.Fault.{refusal, IsRefusedAt, IsFault};
ghost use Rattle.df_tok.specs.Limits.{token_limit, byte_limit};

use crate::begun::fault;
use crate::kind::kind_of;
use crate::pos::{START, after};
use crate::scan::{Form, Front, front_of};
use crate::token::{Token, Tokens};
use df_base::{Code, Detail, Global, Names, Pos, Refusal, Stop};

/// The most bytes that a source may have.
const BYTE_LIMIT: usize = 4_194_304;

/// The most tokens that a source may have.
const TOKEN_LIMIT: usize = 500_000;

fn refused(code: Code, pos: Pos, detail: Detail) -> Stop
    ensures { result ≡ Refused (refusal code pos detail) }
{
    Stop::Refused(Refusal { code, pos, detail })
}

/// Adds the token that a lexeme of this form is.
fn add_token<'a>(
    all: &mut Vec<Token<'a>>,
    names: &mut Names,
    form: Form,
    text: &'a [u8],
    pos: Pos,
) -> Result<(), Stop>
    requires room { length names.old < 2 ^ 32 }
    requires form { HasForm form text.now }
    requires few { vec_len all.old ≤ token_limit }
    ensures added { OnOk result (AddsToken names.old text.now pos (map view all.old.items) (map view all.new.items) names.new) }
    ensures few { vec_len all.new ≤ token_limit }
    ensures refused { (r : Refusal) → result ≡ Err (Refused r) → CannotAdd names.old text.now pos (vec_len all.old) r }
    ensures kept { Grows names.old names.new 1 }
{
    let kind = kind_of(names, form, text, pos)?;
    if all.len() == TOKEN_LIMIT {
        return Err(refused(Code::Limit, pos, Detail::Count(TOKEN_LIMIT as u64)));
    }
    if all.push(Token { kind, text, pos }).is_err() {
        return Err(Stop::Memory);
    }
    Ok(())
}

/// Reads the next piece, and adds its token. Returns its length.
fn add_next<'a>(
    all: &mut Vec<Token<'a>>,
    names: &mut Names,
    rest: &'a [u8],
    pos: Pos,
) -> Result<usize, Stop>
    requires room { length names.old < 2 ^ 32 }
    requires some { 0 < length rest.now }
    requires line { pos.line + length rest.now < 2 ^ 32 }
    requires col { pos.col + length rest.now < 2 ^ 32 }
    requires few { vec_len all.old ≤ token_limit }
    ensures found { IfOk result (λ len. AddsPiece names.old rest.now pos len (map view all.old.items) (map view all.new.items) names.new) }
    ensures few { vec_len all.new ≤ token_limit }
    ensures refused { (r : Refusal) → result ≡ Err (Refused r) → IsRefusedAt names.old rest.now pos (vec_len all.old) r }
    ensures kept { Grows names.old names.new 1 }
{
    match front_of(rest) {
        Some(Front::Skipped(len)) => Ok(len),
        Some(Front::Lexeme(form, len)) => {
            add_token(all, names, form, &rest[..len], pos)?;
            Ok(len)
        }
        None => Err(Stop::Refused(fault(rest, pos))),
    }
}

/// The tokens of a source, in order. Its names are numbered on from those that `names` has.
///
/// It is refused for its first fault: `Limit` where it has more than 4194304 bytes, or at the token past
/// 500000; `Number` at a number of 2^127 or more; `Byte` at a byte of 128 or more that continues no
/// token; else `Token` where no token stands, or where a comment begins that is not closed.
pub fn tokens<'a>(alloc: Global, source: &'a [u8], names: &mut Names) -> Result<Tokens<'a>, Stop>
    requires { length names.old < 2 ^ 31 }
    // The tokens are the division of the source, and the names those in order of first use.
    ensures divided { IfOk result (λ tokens. Divides names.old source.now (map view tokens.all.items) names.new) }
    ensures few { IfOk result (λ tokens. (length source.now ≤ byte_limit) × (vec_len tokens.all ≤ token_limit)) }
    // It is refused for its first fault, and for no other reason.
    ensures refused { (r : Refusal) → result ≡ Err (Refused r) → IsFault names.old source.now r }
    // Names only grow, by at most one a token.
    ensures kept { Grows names.old names.new (token_limit + 1) }
{
    if BYTE_LIMIT < source.len() {
        return Err(refused(Code::Limit, START, Detail::Count(source.len() as u64)));
    }
    let mut all = Vec::new(alloc);
    let mut rest = source;
    let mut pos = START;
    while !rest.is_empty() {
        let len = add_next(&mut all, names, rest, pos)?;
        pos = after(pos, &rest[..len]);
        rest = &rest[len..];
    }
    Ok(Tokens { all })
}
