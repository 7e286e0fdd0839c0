//! Names and number literals where they stand.

use df_base::{Name, Pos};

/// A name where it stands.
#[derive(Clone, Copy, PartialEq, Eq)]
pub struct Ident {
    pub name: Name,
    pub pos: Pos,
}

/// A number literal, with a minus or without; it begins at `pos`.
#[derive(Clone, Copy, PartialEq, Eq)]
pub struct Literal {
    pub negative: bool,
    pub magnitude: u128,
    pub pos: Pos,
}
