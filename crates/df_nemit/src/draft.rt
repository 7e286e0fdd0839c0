//! The code of a method while it is made.

use df_nmach::Instruction;

/// The instructions so far, and where jumps stand among them whose targets come later.
#[derive(Drop)]
pub(crate) struct Draft {
    pub code: Vec<Instruction>,
    /// The jumps out of the loop around.
    pub breaks: Vec<usize>,
    /// The jumps to where the method returns its results.
    pub returns: Vec<usize>,
}
