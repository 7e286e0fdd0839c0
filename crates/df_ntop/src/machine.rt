//! The run of Main.

ghost use Rattle.std.specs.Prelude.{◌≡◌};
ghost use Rattle.df_base.specs.Outside.{HasCause};
ghost use Rattle.df_lang.specs.View.{program_of};
ghost use Rattle.df_meaning.specs.Correct.{AreCorrect};
ghost use Rattle.df_nmach.specs.View.{code_of};
ghost use Rattle.df_nback.specs.Run.{IsCompiled};
ghost use Rattle.df_ntop.specs.Entry.{IsEntryAt};
ghost use Rattle.df_ntop.specs.Run.{RunsMain};

use df_base::{Global, Sink};
use df_lang::Program;
use df_nback::{number_on_machine, the_entry_runs};
use df_nmach::{Code, Heap};
use df_nvm::Vm;

/// How the run of Main ended.
#[derive(Clone, Copy, PartialEq, Eq)]
pub(crate) enum Ran {
    /// The whole text is put.
    Ended,
    /// The fuel is spent, and the text so far is put.
    FuelSpent,
    /// The sink met a fault.
    Write,
    /// Memory was refused.
    Memory,
}

/// Runs Main of a correct program by the machine for at most so many steps, and puts its text.
pub(crate) fn run_main<S: Sink>(
    alloc: Global,
    program: &Program,
    code: &Code,
    number: usize,
    fuel: u64,
    sink: &mut S,
) -> Ran
    requires correct { AreCorrect (program_of program.now) }
    requires compiled { IsCompiled (program_of program.now) (code_of code.now) }
    requires entry { IsEntryAt (program_of program.now) number }
    ensures runs { RunsMain result (program_of program.now) (code_of code.now) number fuel (S.taken sink.old) (S.taken sink.new) }
    // A failed write is a counted fault of the sink.
    ensures cause { HasCause (S.fault_count sink.old) (S.fault_count sink.new) (result ≡ Ran.Write) }
    ensures stays { S.takes_memory sink.new ≡ S.takes_memory sink.old }
{
    the_entry_runs();
    let method = number_on_machine(program, number);
    let heap = Heap::new(alloc);
    let Ok(vm) = Vm::new(alloc, code, method, heap, Vec::new(alloc)) else {
        return Ran::Memory;
    };
    match vm.run(fuel, sink) {
        df_nvm::Ran::Ended(_, _) => Ran::Ended,
        df_nvm::Ran::FuelSpent => Ran::FuelSpent,
        df_nvm::Ran::Write => Ran::Write,
        df_nvm::Ran::Memory => Ran::Memory,
    }
}
