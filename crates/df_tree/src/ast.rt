//! Syntax trees.

use crate::label::{Label, Span};
use df_base::Pos;
use df_tok::Kind;

/// A token that is kept: its number, what it is, and of a string literal how it is written.
#[derive(Drop)]
pub struct Mark {
    pub place: usize,
    pub kind: Kind,
    pub text: Vec<u8>,
}

/// A syntax tree: a node for each construct, with its text.
#[derive(Drop)]
pub enum Ast {
    Leaf(Mark),
    Node(Label, Span, Vec<Ast>),
}

/// The syntax tree of a source, and where its tokens stand.
#[derive(Drop)]
pub struct Tree {
    pub file: Ast,
    pub places: Vec<Pos>,
}
