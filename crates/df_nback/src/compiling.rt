//! From a program to its code.

ghost use Rattle.std.specs.Prelude.{◌≡◌, true, map, IfOk};
ghost use Rattle.df_lang.specs.Program.{Method};
ghost use Rattle.df_lang.specs.View.{program_of};
ghost use Rattle.df_lang.specs.Native.{IsNative};
ghost use Rattle.df_nerase.specs.Erasing.{methods_among};
ghost use Rattle.df_nerase.specs.Refusals.{TellsTheFirst, IsTold, Compiles};
ghost use Rattle.df_nmach.specs.State as machine;
ghost use Rattle.df_nmach.specs.View.{code_of};
ghost use Rattle.df_nback.specs.MethodNames.{has_names};
ghost use Rattle.df_nback.specs.Run.{IsCompiled};

use df_lang::Program;
use df_nemit::emit;
use df_nerase::{
    EraseFault, arguments_are_lowered, correct_methods_run_alike, erase, methods_are_found,
};
use df_nmach::Code;
use std::alloc::Global;

/// The machine code of a program whose methods have names, as those of a source have. It is refused at the first
/// node that breaks a rule on what compiles, and where none does memory alone is refused.
pub fn compile(alloc: Global, program: &Program) -> Result<Code, EraseFault>
    requires names { has_names (program_of program.now) ≡ true }
    // It is a function of the program, and every correct method runs on it as it runs with its ghosts.
    ensures compiled { IfOk result (λ code. IsCompiled (program_of program.now) (code_of code)) }
    // Methods keep their order and their names.
    ensures methods { IfOk result (λ code. map (λ (m : machine.Method). m.name) (code_of code).methods ≡ map (λ (m : Method). m.declared.text) (methods_among (program_of program.now).decls)) }
    ensures native { IfOk result (λ code. IsNative (program_of program.now)) }
    ensures first { TellsTheFirst (program_of program.now) result }
    ensures told { IsTold (program_of program.now) result }
    ensures compiles { Compiles (program_of program.now) result }
{
    arguments_are_lowered();
    methods_are_found();
    correct_methods_run_alike();
    let plain = erase(alloc, program)?;
    Ok(emit(alloc, &plain)?)
}
