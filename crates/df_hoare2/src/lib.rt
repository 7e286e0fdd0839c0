//! The program logic: in a program that obeys the ghost rules modular safety makes functions, methods and lemmas
//! correct.
#![tactic(auto)]

ghost use Rattle.df_hoare2.specs.Law.{FunctionsAreCorrect};

/// A function of a safe program has a value wherever what it requires is true, and what it ensures is true of it.
pub fn functions_are_correct()
    ensures { FunctionsAreCorrect }
{}
