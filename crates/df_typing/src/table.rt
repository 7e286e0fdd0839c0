//! What a file declares.

/// What is called.
#[derive(Clone, Copy, PartialEq, Eq)]
pub enum Kind {
    Function,
    Method,
    Lemma,
}
