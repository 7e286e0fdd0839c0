//! Names in scope.

use crate::form::{Owner, Role};

/// How a part is used.
#[derive(Clone, Copy, PartialEq, Eq)]
pub enum Use {
    Value,
    /// A right side.
    Source,
    /// What is assigned.
    Target,
    /// A whole statement.
    Statement,
}

/// A name in scope: its role, its number among the names that its declaration declares, its own number as a local or as
/// a bound variable, and the token from which on it is known.
#[derive(Clone, Copy, PartialEq, Eq)]
pub struct Known {
    pub name: u32,
    pub role: Role,
    pub index: usize,
    pub number: usize,
    pub from: usize,
}

/// What stands around a construct.
#[derive(Clone, Copy, PartialEq, Eq)]
pub struct Around {
    /// The first token of the declaration.
    pub start: usize,
    /// Nothing but the meaning of names is asked.
    pub is_names: bool,
    /// The role of what is declared.
    pub role: Role,
    /// The token from which on it is known.
    pub from: usize,
    /// Names of lower indices are not seen.
    pub above: usize,
    pub sees_results: bool,
    pub owner: Owner,
    pub is_loop: bool,
}
