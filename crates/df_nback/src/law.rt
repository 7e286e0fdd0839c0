//! What follows of compiled code.

ghost use Rattle.std.specs.Prelude.{◌≡◌, ℕ, true, Some};
ghost use Rattle.df_lang.specs.Program.{Method, Program, method_at};
ghost use Rattle.df_meaning.specs.Correct.{IsCorrect, IsEntry};
ghost use Rattle.df_nmach.specs.Name.{is_name};
ghost use Rattle.df_nmach.specs.State.{Code};
ghost use Rattle.df_nback.specs.MethodNames.{has_names};
ghost use Rattle.df_nback.specs.Run.{IsCompiled, NeverFaultsWhereCorrect, RunsAsEntry};

/// A correct entry runs on the machine without arguments, and prints what its run with ghosts prints.
pub fn the_entry_runs()
    ensures { (program : Program) (code : Code) (number : ℕ) (method : Method) → IsCompiled program code → IsEntry program number method → IsCorrect program method → RunsAsEntry program code number method }
{}

/// From the beginning of a correct method, on arguments of its types that meet its preconditions, no number of steps
/// of the machine faults: what the machine's runner asks for.
pub fn compiled_code_never_faults()
    ensures { (program : Program) (code : Code) → IsCompiled program code → NeverFaultsWhereCorrect program code }
{}

/// The methods of a program have names where the method of each number has one: what `compile` asks for.
pub fn methods_by_number_have_names()
    ensures { (program : Program) → ((number : ℕ) (method : Method) → method_at program number ≡ Some method → is_name method.declared.text ≡ true) → has_names program ≡ true }
{}
