//! What is left to be printed.

/// So many cells from one on, each by one shape.
#[derive(Clone, Copy)]
pub(crate) struct Members {
    pub from: usize,
    pub count: usize,
    /// The shape's number.
    pub shape: usize,
    /// Nothing stands before them.
    pub is_first: bool,
}

/// So many cells from one on, each by its own shape: that of the argument at this place of a constructor, and those
/// behind it.
#[derive(Clone, Copy)]
pub(crate) struct Arguments {
    pub from: usize,
    pub count: usize,
    /// The number of the shape that has the constructor.
    pub shape: usize,
    /// The constructor's number.
    pub tag: usize,
    pub place: usize,
}

#[derive(Clone, Copy)]
pub(crate) enum Task {
    Members(Members),
    Arguments(Arguments),
    /// What stands behind members or arguments.
    Close(u8),
}
