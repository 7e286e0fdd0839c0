//! Programs.

ghost use Rattle.std.specs.Prelude.{◌≡◌, true};
ghost use Rattle.df_types.specs.DeclView.{program_with};
ghost use Rattle.df_types.specs.Typing.{is_program};

use crate::decl::Decl;

/// A well-typed program: the declarations of all its modules in the order of the source.
#[derive(Drop)]
pub struct Program {
    pub decls: Vec<Decl>,
    ghost is_well_typed: { is_program (program_with decls.items) ≡ true },
}

impl Program {
    /// The program of these declarations.
    pub fn new(decls: Vec<Decl>) -> Program
        requires { is_program (program_with decls.items) ≡ true }
        ensures { result.decls ≡ decls }
    {
        Program { decls }
    }
}
