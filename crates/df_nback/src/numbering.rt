//! The numbers by which the machine knows methods.

ghost use Rattle.std.specs.Prelude.{◌≡◌, length, map};
ghost use Rattle.df_lang.specs.DeclView.{decl_of};
ghost use Rattle.df_lang.specs.View.{program_of};
ghost use Rattle.df_nerase.specs.Erasing.{methods_among, method_number};

use df_lang::{Decl, Program};

/// How many declarations are methods.
fn count(decls: &[Decl]) -> usize
    ensures { result ≡ length (methods_among (map decl_of decls.now)) }
{
    let mut all = 0;
    for decl in decls {
        match decl {
            Decl::Newtype(_) => {}
            Decl::Method(_) => all += 1,
        }
    }
    all
}

/// The number by which the machine knows the method of a number of the program: how many methods come before it.
pub fn number_on_machine(program: &Program, number: usize) -> usize
    ensures { result ≡ method_number (program_of program.now) number }
{
    let before = number.min(program.decls.len());
    count(&program.decls[..before])
}
