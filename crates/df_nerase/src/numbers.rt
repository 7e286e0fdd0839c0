//! Methods by themselves: their numbers without the other declarations.

ghost use Rattle.std.specs.Prelude.{◌≡◌, ◌≤◌, ℕ, zero, IfOk, length};
ghost use Rattle.df_lang.specs.View.{program_of};
ghost use Rattle.df_nerase.specs.Erasing.{methods_among};
ghost use Rattle.df_nerase.specs.mirror.Numbers.{numbers_from};

use df_lang::{Decl, Program};
use std::alloc::{AllocError, Global};

/// Of each declaration how many methods come before it, and how many there are.
#[derive(Drop)]
pub(crate) struct Numbers {
    pub before: Vec<usize>,
    pub all: usize,
}

/// The numbers of a program.
pub(crate) fn count(alloc: Global, program: &Program) -> Result<Numbers, AllocError>
    ensures before { IfOk result (λ numbers. numbers.before.items ≡ numbers_from 0 (program_of program.now).decls) }
    ensures all { IfOk result (λ numbers. numbers.all ≡ length (methods_among (program_of program.now).decls)) }
{
    let mut before = Vec::with_capacity(alloc, program.decls.len())?;
    let mut all = 0;
    for decl in &program.decls {
        before.push(all)?;
        match decl {
            Decl::Newtype(_) => {}
            Decl::Method(_) => all += 1,
        }
    }
    Ok(Numbers { before, all })
}
