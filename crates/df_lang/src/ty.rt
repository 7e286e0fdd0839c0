//! Types.

/// The number of a declaration: its place among those of the program, counted from 0.
pub type DeclId = usize;

/// The type of a place or an expression.
#[derive(Clone, Copy, PartialEq, Eq, Hash)]
pub enum Ty {
    /// The newtype of this declaration.
    Newtype(DeclId),
    /// The whole numbers.
    Int,
    /// The whole numbers from 0 on.
    Nat,
    /// The truths.
    Bool,
    /// The 128 characters.
    Char,
}
