//! What the tokens of a node say.

use df_base::Name;
use df_tok::Sign;

/// A name, and the token at which it stands.
#[derive(Clone, Copy, PartialEq, Eq)]
pub struct Named {
    pub name: Name,
    pub place: usize,
}

/// An operator, and the token at which it stands.
#[derive(Clone, Copy, PartialEq, Eq)]
pub struct Signed {
    pub sign: Sign,
    pub place: usize,
}
