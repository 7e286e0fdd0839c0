//! Templates of clauses.

use df_form::{Lit, Op, Pair, Term};

/// Where a node of an instance is found.
#[derive(Clone, Copy, PartialEq, Eq)]
pub enum Source {
    /// The named term of this number.
    Named(usize),
    /// A part of the node at an earlier place.
    Part(Term, usize),
}

/// What a node is to be.
#[derive(Clone, Copy, PartialEq, Eq)]
pub enum Test {
    Any,
    /// A literal number.
    Literal,
    Of(Op),
}

/// A node that an instance finds.
#[derive(Clone, Copy, PartialEq, Eq)]
pub struct Piece {
    pub source: Source,
    pub test: Test,
}

/// A node that a clause needs: an operation, and the places of its parts.
#[derive(Clone, Copy, PartialEq, Eq)]
pub enum Need {
    Number(i128),
    One(Op, usize),
    Two(Op, usize, usize),
}

/// A clause of a schema. Its nodes have places, which count from 0: first those of the pieces, and then
/// those of the nodes that it needs.
#[derive(Drop)]
pub struct Template {
    /// How many terms an instance names.
    pub terms: usize,
    pub pieces: Vec<Piece>,
    /// The places of pieces that are to be one node.
    pub same: Vec<Pair>,
    /// In postorder of first occurrence.
    pub needed: Vec<Need>,
    /// Its literals are of places.
    pub clause: Vec<Lit>,
}

/// A clause of a schema, with its template, whose lists are of a kind each.
#[derive(Clone, Copy)]
pub struct Row<P, S, N, L> {
    pub schema: u8,
    pub clause: u32,
    pub terms: usize,
    pub pieces: P,
    pub same: S,
    pub needed: N,
    pub literals: L,
}
