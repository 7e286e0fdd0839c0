//! Builds syntax trees.

ghost use Rattle.std.specs.Prelude.{◌≡◌, ◌∷◌, [], map, IfOk};
ghost use Rattle.std.specs.Option.{unwrap_or};
ghost use Rattle.df_tree.specs.Ast.{ast_of, mark_of};
ghost use Rattle.df_tree.specs.Building as pure;
ghost use Rattle.df_pexpr.specs.mirror.Construction.{frame_of};
ghost use Rattle.df_tree.specs.declared.label.Way.TheVariants as ways;
ghost use Rattle.df_tok.specs.Token.{view};

use df_tok::{Kind, Token};
use df_tree::{Ast, KEPT, Label, Mark, Span, Way, is_in, terminal_of};
use std::alloc::{AllocError, Global};

/// What is to become the inside of a node.
#[derive(Drop)]
pub struct Frame {
    pub start: usize,
    pub title: Option<Label>,
    pub items: Vec<Ast>,
}

/// What was read: the frame with it, the number of the token behind it, the height with what stands before it, and
/// whether there is anything.
#[derive(Drop)]
pub struct Found {
    pub frame: Frame,
    pub behind: usize,
    pub height: usize,
    pub filled: bool,
}

/// What came of reading: what was built, or the number of the first token that cannot go on.
#[derive(Drop)]
pub enum Outcome {
    Built(Found),
    Stopped(usize),
}

pub(crate) fn opened(alloc: Global, start: usize) -> Frame
    ensures { frame_of result ≡ pure.opened start }
{
    Frame {
        start,
        title: None,
        items: Vec::new(alloc),
    }
}

#[tactic(auto, using(crate::proofs::Walk::map_pushed))]
fn with_item(frame: Frame, item: Ast) -> Result<Frame, AllocError>
    ensures { IfOk result (λ made. frame_of made ≡ pure.added (frame_of frame) (ast_of item ∷ [])) }
{
    let mut items = frame.items;
    items.push(item)?;
    Ok(Frame {
        start: frame.start,
        title: frame.title,
        items,
    })
}

#[tactic(auto, using(crate::proofs::Walk::map_joined))]
fn with_items(frame: Frame, more: Vec<Ast>) -> Result<Frame, AllocError>
    ensures { IfOk result (λ made. frame_of made ≡ pure.added (frame_of frame) (map ast_of more.items)) }
{
    let mut items = frame.items;
    let mut others = more;
    items.append(&mut others)?;
    Ok(Frame {
        start: frame.start,
        title: frame.title,
        items,
    })
}

/// How a string literal is written; of other tokens nothing is kept.
fn text_of(alloc: Global, kind: Kind, text: &[u8]) -> Result<Vec<u8>, AllocError>
    ensures { IfOk result (λ kept. kept.items ≡ pure.text_of kind text.now) }
{
    let mut kept = Vec::new(alloc);
    if kind == Kind::Text {
        kept.extend_from_slice(text)?;
    }
    Ok(kept)
}

/// The token of this number.
fn mark_at(alloc: Global, at: usize, token: &Token) -> Result<Mark, AllocError>
    ensures { IfOk result (λ mark. mark_of mark ≡ pure.mark_at at (view token.now)) }
{
    let text = text_of(alloc, token.kind, token.text)?;
    Ok(Mark {
        place: at,
        kind: token.kind,
        text,
    })
}

/// Whether the token is kept.
#[tactic(auto, unfolding(df_tree::specs::Terminal::terminal))]
fn matters(token: &Token) -> bool
    ensures { result ≡ pure.matters (view token.now) }
{
    is_in(terminal_of(token.kind), KEPT)
}

/// A token is kept where its terminal matters.
pub(crate) fn keep(
    alloc: Global,
    at: usize,
    token: &Token,
    frame: Frame,
) -> Result<Frame, AllocError>
    ensures { IfOk result (λ made. frame_of made ≡ pure.keep at (view token.now) (frame_of frame)) }
{
    if matters(token) {
        let mark = mark_at(alloc, at, token)?;
        with_item(frame, Ast::Leaf(mark))
    } else {
        Ok(frame)
    }
}

fn label_of(title: Option<Label>, label: Label) -> Label
    ensures { result ≡ unwrap_or title label }
{
    match title {
        Some(title) => title,
        None => label,
    }
}

fn node_of(label: Label, after: usize, frame: Frame) -> Ast
    ensures { ast_of result ≡ pure.node_of label after (frame_of frame) }
{
    Ast::Node(
        label,
        Span {
            start: frame.start,
            after,
        },
        frame.items,
    )
}

fn titled(label: Label, frame: Frame) -> Frame
    ensures { frame_of result ≡ record { start = (frame_of frame).start; title = Some (unwrap_or (frame_of frame).title label); items = (frame_of frame).items } }
{
    Frame {
        start: frame.start,
        title: Some(label_of(frame.title, label)),
        items: frame.items,
    }
}

fn wrapped(alloc: Global, label: Label, after: usize, frame: Frame) -> Result<Frame, AllocError>
    ensures { IfOk result (λ made. frame_of made ≡ pure.leave (ways.Wrap label) (frame_of frame) after (frame_of frame)) }
{
    let start = frame.start;
    let node = node_of(label_of(frame.title, label), after, frame);
    with_item(opened(alloc, start), node)
}

fn closed(outer: Frame, after: usize, frame: Frame) -> Result<Frame, AllocError>
    ensures { IfOk result (λ made. frame_of made ≡ pure.leave ways.Close (frame_of outer) after (frame_of frame)) }
{
    match frame.title {
        Some(label) => with_item(outer, node_of(label, after, frame)),
        None => with_items(outer, frame.items),
    }
}

/// The frame in which the parts of a production stand, and the one around it.
#[derive(Drop)]
pub(crate) struct Entered {
    pub(crate) outer: Frame,
    pub(crate) inner: Frame,
}

pub(crate) fn enter(alloc: Global, way: Way, at: usize, frame: Frame) -> Entered
    ensures outer { frame_of result.outer ≡ pure.outside way at (frame_of frame) }
    ensures inner { frame_of result.inner ≡ pure.enter way at (frame_of frame) }
{
    match way {
        Way::Make(_) | Way::Close => Entered {
            outer: frame,
            inner: opened(alloc, at),
        },
        Way::Pass | Way::Title(_) | Way::Wrap(_) => Entered {
            outer: opened(alloc, at),
            inner: frame,
        },
    }
}

/// The frame around, behind the parts of a production.
pub(crate) fn leave(
    alloc: Global,
    way: Way,
    outer: Frame,
    after: usize,
    frame: Frame,
) -> Result<Frame, AllocError>
    ensures { IfOk result (λ made. frame_of made ≡ pure.leave way (frame_of outer) after (frame_of frame)) }
{
    match way {
        Way::Pass => Ok(frame),
        Way::Title(label) => Ok(titled(label, frame)),
        Way::Wrap(label) => wrapped(alloc, label, after, frame),
        Way::Make(label) => with_item(outer, node_of(label_of(frame.title, label), after, frame)),
        Way::Close => closed(outer, after, frame),
    }
}
