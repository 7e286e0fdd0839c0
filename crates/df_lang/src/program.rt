//! Programs.

ghost use Rattle.std.specs.Prelude.{◌≡◌, true};
ghost use Rattle.df_lang.specs.DeclView.{program_with};
ghost use Rattle.df_lang.specs.Typing.{is_well_typed};

use crate::decl::Decl;

/// A well-typed program: its declarations in the order of the source.
#[derive(Drop)]
pub struct Program {
    pub decls: Vec<Decl>,
    ghost is_well_typed: { is_well_typed (program_with decls.items) ≡ true },
}

impl Program {
    /// The program of these declarations.
    pub fn new(decls: Vec<Decl>) -> Program
        requires { is_well_typed (program_with decls.items) ≡ true }
        ensures { result.decls ≡ decls }
    {
        Program { decls }
    }
}
