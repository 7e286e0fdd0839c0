//! The entry of a program.

ghost use Rattle.std.specs.Prelude.{◌≡◌, None, IfSome, position};
ghost use Rattle.df_lang.specs.DeclView.{decl_of, method_of};
ghost use Rattle.df_lang.specs.View.{program_of};
ghost use Rattle.df_ntop.specs.Entry.{IsEntryAt, HasNoEntry, is_main, declares_main, declares_main_of};

use df_lang::{Decl, Method, Program};

/// Whether the method is called Main and has no parameters, results or preconditions.
fn is_entry(method: &Method) -> bool
    ensures { result ≡ is_main (method_of method.now) }
{
    method.declared.text.as_str() == "Main"
        && method.parameters.is_empty()
        && method.results.is_empty()
        && method.preconditions.is_empty()
}

/// Whether the declaration is such a method.
fn declares_entry(decl: &Decl) -> bool
    ensures { result ≡ declares_main (decl_of decl.now) }
{
    match decl {
        Decl::Newtype(_) => false,
        Decl::Method(method) => is_entry(method),
    }
}

/// The number of the first declaration that is the entry.
fn first_entry(decls: &[Decl]) -> Option<usize>
    ensures { result ≡ position declares_main_of decls.now }
{
    decls.iter().position(declares_entry)
}

/// The number of the entry: a method Main without parameters, results and preconditions.
pub(crate) fn entry(program: &Program) -> Option<usize>
    ensures some { IfSome result (IsEntryAt (program_of program.now)) }
    ensures none { result ≡ None → HasNoEntry (program_of program.now) }
{
    first_entry(&program.decls)
}
