//! The check of a whole program.

ghost use Rattle.std.specs.Prelude.{◌≡◌, OnOk, IfOk, IfErr};
ghost use Rattle.df_base.specs.Refusing.{IfRefused};
ghost use Rattle.df_lang.specs.View.{program_of};
ghost use Rattle.df_lang.specs.Assignment.{IsDefinitelyAssigned};
ghost use Rattle.df_ntyping.specs.Unassigned.{IsToldMissing};

use crate::checked::Checked;
use crate::method::follow;
use df_base::{Global, Stop};
use df_lang::{Decl, Program};

/// A program that is not checked, and why.
#[derive(Drop)]
pub struct Rejected {
    pub stop: Stop,
    pub program: Program,
}

/// Follows the methods in order.
fn follow_all(alloc: Global, program: &Program) -> Result<(), Stop>
    ensures definite { OnOk result (IsDefinitelyAssigned (program_of program.now)) }
    ensures refused { IfErr result (IfRefused (IsToldMissing (program_of program.now))) }
{
    for decl in &program.decls {
        match decl {
            Decl::Newtype(_) => {}
            Decl::Method(method) => follow(alloc, method)?,
        }
    }
    Ok(())
}

/// The program, checked. It is refused for the first use without a value, exactly where there is one; or memory is
/// refused. Either way it is handed back as it was.
pub fn check(alloc: Global, program: Program) -> Result<Checked, Rejected>
    ensures same { IfOk result (λ checked. checked.program ≡ program) }
    ensures given_back { IfErr result (λ rejected. rejected.program ≡ program) }
    // Want of memory says nothing.
    ensures refused { IfErr result (λ rejected. IfRefused (IsToldMissing (program_of program)) rejected.stop) }
{
    match follow_all(alloc, &program) {
        Ok(()) => Ok(Checked { program }),
        Err(stop) => Err(Rejected { stop, program }),
    }
}
