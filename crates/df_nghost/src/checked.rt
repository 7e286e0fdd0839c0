//! Programs that are checked.

ghost use Rattle.df_lang.specs.View.{program_of};
ghost use Rattle.df_lang.specs.Assignment.{IsDefinitelyAssigned};
ghost use Rattle.df_nghost.specs.Definite.{IsDefinitelyAssigned-prop};

use df_lang::Program;

/// A program in which each local has a value where it is read, and each result where its method returns.
#[derive(Drop)]
pub struct Checked {
    pub program: Program,
    ghost definite: { IsDefinitelyAssigned (program_of program) } by { IsDefinitelyAssigned-prop (program_of program) },
}
