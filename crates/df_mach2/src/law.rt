//! Laws of the machine.

ghost use Rattle.std.specs.Prelude.{◌≡◌, ◌+◌, ◌≤◌, ◌↔◌, ℕ, true, List};
ghost use Rattle.df_mach2.specs.Value.{Value, same};
ghost use Rattle.df_mach2.specs.State.{Code, State, Final};
ghost use Rattle.df_mach2.specs.Step.{On, Ended, machine_step};
ghost use Rattle.df_mach2.specs.Run.{and_then, machine_run, NeverFaults};
ghost use Rattle.df_mach2.specs.Front.{with_front, all_with_front};

/// The test of equality decides it.
pub fn same_values_are_equal()
    ensures { (v w : Value) → (same v w ≡ true) ↔ (v ≡ w) }
{}

/// A run of some steps and of more is a run of more steps from where the first ones lead.
pub fn runs_join()
    ensures { (code : Code) (k m : ℕ) (s : State) → machine_run code (k + m) s ≡ and_then (machine_run code k s) (machine_run code m) }
{}

/// A run that has ended stays so.
pub fn an_end_is_final()
    ensures { (code : Code) (k m : ℕ) (s : State) (final : Final) → machine_run code k s ≡ Ended final → k ≤ m → machine_run code m s ≡ Ended final }
{}

/// What was printed before changes no step and no run, and stays in front.
pub fn text_stays_in_front()
    ensures step { (code : Code) (text : List ℕ) (s : State) → machine_step code (with_front text s) ≡ all_with_front text (machine_step code s) }
    ensures run { (code : Code) (k : ℕ) (text : List ℕ) (s : State) → machine_run code k (with_front text s) ≡ all_with_front text (machine_run code k s) }
{}

/// Where no number of steps breaks a demand, none does after a step.
pub fn steps_keep_what_never_faults()
    ensures { (code : Code) (s next : State) → NeverFaults code (On s) → machine_step code s ≡ On next → NeverFaults code (On next) }
{}
