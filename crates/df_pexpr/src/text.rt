//! Whole texts, and parts of them.

ghost use Rattle.std.specs.Prelude.{◌≡◌, ℕ, ◌<◌, ◌^◌, map, length, IfOk, Err};
ghost use Rattle.df_base.specs.declared.refusal.Refusal.{Refusal};
ghost use Rattle.df_base.specs.declared.refusal.Code.TheVariants as codes;
ghost use Rattle.df_base.specs.declared.refusal.Detail.TheVariants as details;
ghost use Rattle.df_base.specs.declared.refusal.Stop.TheVariants.{Refused};
ghost use Rattle.df_tok.specs.Token.{view};
ghost use Rattle.df_tree.specs.Tree.{Tree};
ghost use Rattle.df_tree.specs.Ast.{Nil, Next, asts_of, ast_of};
ghost use Rattle.df_tree.specs.Grammar.{IsTreeOf, IsPartAt};
ghost use Rattle.df_tree.specs.Spelling.{IsAstOf, IsAstAt, IsOne, MakesOne};
ghost use Rattle.df_pexpr.specs.mirror.Reading.{depth_limit};
ghost use Rattle.df_pexpr.specs.mirror.Construction.{attempt_of, attempt_from};
ghost use Rattle.df_pexpr.specs.Position.{place_of, CannotGoOn};

use crate::building::{Frame, Outcome, opened};
use crate::height::HEIGHT_LIMIT;
use crate::reader::read_part;
use df_base::{Code, Detail, Pos, Refusal, Stop};
use df_tok::{Token, Tokens};
use df_tree::{Ast, Part};
use std::alloc::{AllocError, Global};

/// How many nodes may then stand inside one another: for each height one of each rank of the table.
fn depth_limit() -> usize
    ensures { result ≡ depth_limit }
{
    10251
}

/// Reads a tree of the production from a token on.
fn read(
    alloc: Global,
    tokens: &[Token],
    start: usize,
    production: u16,
) -> Result<Outcome, AllocError>
    ensures { IfOk result (λ found. attempt_of found ≡ attempt_from production (map view tokens.now) start) }
{
    let frame = opened(alloc, start);
    let left = depth_limit();
    let part = Part::Nonterminal(production);
    read_part(alloc, tokens, start, part, left, HEIGHT_LIMIT, 0, frame)
}

/// The position of the token of a number, or of the last one where there is none.
#[tactic(auto, using(crate::proofs::Walk::place_is))]
fn place_of(tokens: &[Token], at: usize) -> Pos
    ensures { result ≡ place_of (map view tokens.now) at }
{
    let last = tokens.len().saturating_sub(1);
    match tokens.get(at.min(last)) {
        Some(token) => token.pos,
        None => Pos { line: 1, col: 1 },
    }
}

/// The syntax is refused, at the token of a number.
fn syntax(tokens: &[Token], at: usize) -> Refusal
    ensures code { result.code ≡ codes.Syntax }
    ensures pos { result.pos ≡ place_of (map view tokens.now) at }
    ensures detail { result.detail ≡ details.Nothing }
{
    Refusal {
        code: Code::Syntax,
        pos: place_of(tokens, at),
        detail: Detail::Nothing,
    }
}

/// The one syntax tree of a frame.
fn only(frame: Frame) -> Ast
    requires { IsOne (asts_of (map ast_of frame.items.items)) }
    ensures { asts_of (map ast_of frame.items.items) ≡ Next (ast_of result) Nil }
{
    let mut items = frame.items;
    match items.pop() {
        Some(ast) => ast,
        None => unreachable!(),
    }
}

/// The syntax tree of the production that the tokens spell from token `start` on, counted from 0, and the number of the
/// token after it, which cannot continue it. Where there is none, the syntax is refused, at the token where reading stopped.
pub(crate) fn part(
    alloc: Global,
    tokens: &Tokens,
    start: usize,
    production: u16,
) -> Result<(Ast, usize), Stop>
    requires { MakesOne production }
    ensures part { IfOk result (λ x. IsAstAt production (map view tokens.now.all.items) start x.1 (ast_of x.0)) }
    ensures refused { (r : Refusal) → result ≡ Err (Refused r) → (after : ℕ) (t : Tree) → IsPartAt production (map view tokens.now.all.items) start after t → ⊥ }
    ensures syntax { (r : Refusal) → result ≡ Err (Refused r) → (r.code ≡ codes.Syntax) × (r.detail ≡ details.Nothing) }
{
    match read(alloc, &tokens.all, start, production)? {
        Outcome::Stopped(stop) => Err(Stop::Refused(syntax(&tokens.all, stop))),
        Outcome::Built(found) => Ok((only(found.frame), found.behind)),
    }
}

/// The syntax tree of the production that all of the tokens spell. Where there is none, the syntax is refused, at a token
/// with which no such text goes on, or at the last one.
pub fn whole(alloc: Global, tokens: &Tokens, production: u16) -> Result<Ast, Stop>
    requires { MakesOne production }
    ensures whole { IfOk result (λ ast. IsAstOf production (map view tokens.now.all.items) (ast_of ast)) }
    ensures refused { (r : Refusal) → result ≡ Err (Refused r) → (t : Tree) → IsTreeOf production (map view tokens.now.all.items) t → ⊥ }
    // No text that begins like this one, up to the token at the position, is spelled.
    ensures place { (r : Refusal) → result ≡ Err (Refused r) → CannotGoOn production (map view tokens.now.all.items) r.pos }
    ensures syntax { (r : Refusal) → result ≡ Err (Refused r) → (r.code ≡ codes.Syntax) × (r.detail ≡ details.Nothing) }
{
    match read(alloc, &tokens.all, 0, production)? {
        Outcome::Stopped(stop) => Err(Stop::Refused(syntax(&tokens.all, stop))),
        Outcome::Built(found) => {
            if found.behind < tokens.all.len() {
                Err(Stop::Refused(syntax(&tokens.all, found.behind)))
            } else {
                Ok(only(found.frame))
            }
        }
    }
}
