//! Erasure: the program without its ghost code, whose types are ranges and kinds.
#![tactic(auto)]

ghost use Rattle.df_nerase.specs.First.{BrokenIsNotNative, NativeOrBroken};
ghost use Rattle.df_nerase.specs.Running.{NativeProgramsAreBounded, CountsAreKept, ArgumentsAreLowered, ResultsAreLowered, MethodsAreFound, MethodsAreSimulated, CorrectMethodsRunAlike};

mod eraser;
mod erasure;
mod fault;
mod native;
mod numbers;

pub use erasure::erase;
pub use fault::EraseFault;

/// A program of which a first broken rule is told does not keep the rules.
pub fn broken_is_not_native()
    ensures { BrokenIsNotNative }
{}

/// Each program keeps the rules, or a first broken one is told.
pub fn native_or_broken()
    ensures { NativeOrBroken }
{}

/// In a well-typed program that keeps the native rules each number at a place, and each result of arithmetic, has an
/// interval.
pub fn native_programs_are_bounded()
    ensures { NativeProgramsAreBounded }
{}

/// In a well-typed program calls and updates have as many values as are asked for, and so they have without its
/// ghosts.
pub fn counts_are_kept()
    ensures { CountsAreKept }
{}

/// In a well-typed program that keeps the native rules arguments of the types of a method's parameters have values
/// without ghosts, of the kinds of their places.
pub fn arguments_are_lowered()
    ensures { ArgumentsAreLowered }
{}

/// And so have values of the types of its results.
pub fn results_are_lowered()
    ensures { ResultsAreLowered }
{}

/// Methods are found under their new numbers.
pub fn methods_are_found()
    ensures { MethodsAreFound }
{}

/// Where a whole run of a method ends, the run without ghosts ends with the same results and text.
pub fn methods_are_simulated()
    ensures { MethodsAreSimulated }
{}

/// A correct method ends without ghosts as it does with them, and is never stuck or wrong.
pub fn correct_methods_run_alike()
    ensures { CorrectMethodsRunAlike }
{}
