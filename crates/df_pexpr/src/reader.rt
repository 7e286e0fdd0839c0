//! Reads trees of the table's productions, and builds their syntax trees.

ghost use Rattle.std.specs.Prelude.{◌≡◌, ◌<◌, ◌^◌, ◌==◌, if◌then◌else◌, map, drop, IfOk};
ghost use Rattle.df_tok.specs.Token.{view};
ghost use Rattle.df_tree.specs.Row.{entry_of};
ghost use Rattle.df_tree.specs.Building as building;
ghost use Rattle.df_tree.specs.Grammar as spec;
ghost use Rattle.df_tree.specs.declared.production.Part.TheVariants as parts;
ghost use Rattle.df_pexpr.specs.mirror.Reading as reading;
ghost use Rattle.df_pexpr.specs.mirror.Construction as construction;
ghost use Rattle.df_pexpr.specs.mirror.Construction.{attempt_of, construction_of, frame_of};

use crate::building::{Found, Frame, Outcome, enter, keep, leave, opened};
use crate::height::{counted, height_at, height_before, height_behind, room_inside};
use crate::lookup::{begins, chosen};
use df_tok::Token;
use df_tree::{Form, GrammarRow, Part, row, terminal_of};
use std::alloc::{AllocError, Global};

/// What comes next in a production.
#[derive(Clone, Copy, PartialEq, Eq)]
pub enum Step {
    Read(Part),
    Done,
    Fail,
}

/// What comes in a production behind the first `k` trees.
fn next_step(row: &GrammarRow, k: usize, tokens: &[Token], at: usize) -> Step
    ensures { result ≡ reading.step row.now.form (entry_of row.now) k (drop at (map view tokens.now)) }
{
    match row.form {
        Form::All => match row.parts.get(k) {
            Some(part) => Step::Read(*part),
            None => Step::Done,
        },
        Form::One if k > 0 => Step::Done,
        Form::One | Form::Many => match chosen(row.parts, tokens, at) {
            Some(part) => Step::Read(part),
            None => if row.empty { Step::Done } else { Step::Fail },
        },
    }
}

/// Reads a token, if it is of the terminal.
#[tactic(auto, unfolding(df_tree::specs::Terminal::terminal))]
fn taken(
    alloc: Global,
    terminal: u8,
    token: &Token,
    at: usize,
    before: usize,
    frame: Frame,
) -> Result<Outcome, AllocError>
    requires { at < 2 ^ 63 }
    ensures { IfOk result (λ found. attempt_of found ≡ construction.taken before (frame_of frame) at terminal (view token.now)) }
{
    if terminal_of(token.kind) == terminal {
        let frame = keep(alloc, at, token, frame)?;
        Ok(Outcome::Built(Found {
            frame,
            behind: at + 1,
            height: before,
            filled: true,
        }))
    } else {
        Ok(Outcome::Stopped(at))
    }
}

/// Reads the token there.
#[tactic(auto, using(crate::proofs::Walk::leaf_there))]
fn leaf(
    alloc: Global,
    terminal: u8,
    tokens: &[Token],
    at: usize,
    before: usize,
    frame: Frame,
) -> Result<Outcome, AllocError>
    ensures { IfOk result (λ found. attempt_of found ≡ construction.leaf_built before (frame_of frame) at terminal (drop at (map view tokens.now))) }
{
    match tokens.get(at) {
        Some(token) => taken(alloc, terminal, token, at, before, frame),
        None => Ok(Outcome::Stopped(at)),
    }
}

/// With the tree behind `k` others.
fn is_filled(k: usize, so_far: bool, found: bool) -> bool
    ensures { result ≡ (if k == 1 then found else so_far) }
{
    if k == 1 { found } else { so_far }
}

/// A production, behind its `k` trees.
fn finished(
    alloc: Global,
    row: &GrammarRow,
    outer: Frame,
    before: usize,
    k: usize,
    frame: Frame,
    at: usize,
    height: usize,
    filled: bool,
) -> Result<Found, AllocError>
    ensures { IfOk result (λ found. construction_of found ≡ construction.finished (entry_of row.now) (frame_of outer) before k (record { frame = frame_of frame; at = at; height = height; filled = filled })) }
{
    let frame = leave(alloc, row.way, outer, at, frame)?;
    Ok(Found {
        frame,
        behind: at,
        height: counted(row.counting, before, height, filled),
        filled: k > 0,
    })
}

/// Reads a tree of the part into the frame, with at most `left` nodes inside one another and of at most the height `room`.
/// The height `before` stands before it.
#[cycle(reader)]
pub(crate) fn read_part(
    alloc: Global,
    tokens: &[Token],
    at: usize,
    part: Part,
    left: usize,
    room: usize,
    before: usize,
    frame: Frame,
) -> Result<Outcome, AllocError>
    ensures { IfOk result (λ found. attempt_of found ≡ construction.builder (map view tokens.now) left room before (frame_of frame) at part) }
{
    match part {
        Part::Terminal(terminal) => leaf(alloc, terminal, tokens, at, before, frame),
        Part::Nonterminal(n) => read_node(alloc, tokens, at, n, left, room, before, frame),
    }
}

/// Reads a tree of the production.
#[cycle(reader)]
#[tactic(auto, using(crate::proofs::Walk::deeper))]
fn read_node(
    alloc: Global,
    tokens: &[Token],
    at: usize,
    n: u16,
    left: usize,
    room: usize,
    before: usize,
    frame: Frame,
) -> Result<Outcome, AllocError>
    ensures { IfOk result (λ found. attempt_of found ≡ construction.builder (map view tokens.now) left room before (frame_of frame) at (parts.Nonterminal n)) }
{
    if left == 0 || (row(n).narrow && !begins(&row(n), tokens, at)) {
        return Ok(Outcome::Stopped(at));
    }
    read_children(alloc, tokens, at, n, left - 1, room, before, frame)
}

/// Reads the trees of the production.
#[cycle(reader)]
fn read_children(
    alloc: Global,
    tokens: &[Token],
    start: usize,
    n: u16,
    left: usize,
    room: usize,
    before: usize,
    around: Frame,
) -> Result<Outcome, AllocError>
    ensures { IfOk result (λ found. attempt_of found ≡ construction.grow (map view tokens.now) (construction.builder (map view tokens.now) left (construction.room_inside (spec.row n).counting room)) room reading.turn_limit n (building.outside (spec.row n).way start (frame_of around)) before 0 (construction.begun (spec.row n) before (frame_of around) start)) }
{
    let row = row(n);
    let entered = enter(alloc, row.way, start, around);
    let outer = entered.outer;
    let inside = room_inside(row.counting, room);
    let mut frame = entered.inner;
    let mut at = start;
    let mut height = height_at(row.counting, before);
    let mut filled = false;
    'trees: for k in 0..usize::MAX {
        if counted(row.counting, before, height, filled) > room {
            return Ok(Outcome::Stopped(at));
        }
        match next_step(&row, k, tokens, at) {
            Step::Fail => return Ok(Outcome::Stopped(at)),
            Step::Done => {
                let found = finished(alloc, &row, outer, before, k, frame, at, height, filled)?;
                return Ok(Outcome::Built(found));
            }
            Step::Read(next) => {
                let below = height_before(row.counting, height);
                match read_part(alloc, tokens, at, next, left, inside, below, frame)? {
                    Outcome::Stopped(stop) => return Ok(Outcome::Stopped(stop)),
                    Outcome::Built(found) => {
                        frame = found.frame;
                        at = found.behind;
                        height = height_behind(row.counting, height, found.height);
                        filled = is_filled(k, filled, found.filled);
                    }
                }
            }
        }
    }
    Ok(Outcome::Stopped(at))
}
