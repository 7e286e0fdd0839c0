//! The names by which logs tell types.

ghost use Rattle.std.specs.Prelude.{◌≡◌, string_bytes, IfOk};
ghost use Rattle.df_lang.specs.DeclView.{decl_of};
ghost use Rattle.df_lang.specs.View.{program_of};
ghost use Rattle.df_logtext.specs.View.{names_of};
ghost use Rattle.df_nproof.specs.Names.{name_in, names_in};

use df_lang::{Decl, Program};
use std::alloc::{AllocError, Global};

/// The name of a type; a method is none, and no word of a line holds a blank.
fn name(alloc: Global, decl: &Decl) -> Result<String, AllocError>
    ensures { IfOk result (λ name. string_bytes name ≡ name_in (decl_of decl.now)) }
{
    match decl {
        Decl::Newtype(newtype) => String::from_str(alloc, newtype.declared.text.as_str()),
        Decl::Method(_) => String::from_str(alloc, " "),
    }
}

/// The names of the declarations of a program, by their numbers.
pub(crate) fn names(alloc: Global, program: &Program) -> Result<Vec<String>, AllocError>
    ensures { IfOk result (λ names. names_of names.items ≡ names_in (program_of program.now)) }
{
    let mut names = Vec::new(alloc);
    for decl in &program.decls {
        names.push(name(alloc, decl)?)?;
    }
    Ok(names)
}
