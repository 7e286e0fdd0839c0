//! Programs without ghosts.

ghost use Rattle.std.specs.Prelude.{◌≡◌, IfOk};
ghost use Rattle.df_lang.specs.View.{program_of};
ghost use Rattle.df_lang.specs.Native.{IsNative};
ghost use Rattle.df_nplain.specs.View.{plain_of};
ghost use Rattle.df_nerase.specs.Erasing.{erased};
ghost use Rattle.df_nerase.specs.Refusals.{TellsTheFirst, IsTold, Compiles};

use crate::eraser::Eraser;
use crate::fault::EraseFault;
use crate::native::first_broken;
use crate::numbers::count;
use df_lang::Program;
use df_nplain::Plain;
use std::alloc::Global;

/// The program without contracts, assertions, invariants and measures, with ranges and kinds for types. It is
/// refused at the first node that breaks a rule on what compiles, and where none does memory alone is refused.
pub fn erase(alloc: Global, program: &Program) -> Result<Plain, EraseFault>
    // It is a function of the program.
    ensures erased { IfOk result (λ plain. plain_of plain ≡ erased (program_of program.now)) }
    ensures native { IfOk result (λ plain. IsNative (program_of program.now)) }
    ensures first { TellsTheFirst (program_of program.now) result }
    ensures told { IsTold (program_of program.now) result }
    ensures compiles { Compiles (program_of program.now) result }
{
    if let Some(broken) = first_broken(program) {
        return Err(EraseFault::NotNative(broken.pos, broken.rule.number()));
    }
    let eraser = Eraser {
        alloc,
        program,
        numbers: count(alloc, program)?,
    };
    let methods = eraser.methods()?;
    Ok(Plain::new(methods))
}
