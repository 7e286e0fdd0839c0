//! The big-step semantics of programs: values, states, how evaluation and execution end, monotone in their depth,
//! whole and modular runs, and what is correct.
#![tactic(auto)]

ghost use Rattle.df_meaning.specs.Agreement.{StatementsAgree, ParametersStay};
ghost use Rattle.df_meaning.specs.Definite.{StatementsCount, MethodsCount};
ghost use Rattle.df_meaning.specs.Division.{DivisionsAreEuclidean};
ghost use Rattle.df_meaning.specs.Endless.{LoopsNeverEnd, MethodsNeverEnd};
ghost use Rattle.df_meaning.specs.Growing.{ExpressionsGrow, StatementsGrow, WholesGrow, MethodsGrow};
ghost use Rattle.df_meaning.specs.Simultaneous.{AssignmentsAreSimultaneous};
ghost use Rattle.df_meaning.specs.Texts.{StatementsKeepText, MethodsKeepText};
ghost use Rattle.df_meaning.specs.Typed.{ExpressionsAreTyped, LocalsKeepTypes, ResultsAreTyped};

mod kind;

pub use kind::Kind;

/// What expressions evaluate to over a meaning that says less, they do over one that says more.
pub fn expressions_grow()
    ensures { ExpressionsGrow }
{}

/// And so with what statements do.
pub fn statements_grow()
    ensures { StatementsGrow }
{}

/// More depth keeps what calls and loops do.
pub fn wholes_grow()
    ensures { WholesGrow }
{}

/// More depth keeps what a run of a method comes to, also that it is wrong.
pub fn methods_grow()
    ensures { MethodsGrow }
{}

/// The value of a well-typed expression is of its type.
pub fn expressions_are_typed()
    ensures { ExpressionsAreTyped }
{}

/// A whole run of a well-typed statement leaves the locals values of their types.
pub fn locals_keep_types()
    ensures { LocalsKeepTypes }
{}

/// The results of a method are of their types.
pub fn results_are_typed()
    ensures { ResultsAreTyped }
{}

/// A whole run of a statement keeps in front what was printed before it.
pub fn statements_keep_text()
    ensures { StatementsKeepText }
{}

/// And so does one of a method.
pub fn methods_keep_text()
    ensures { MethodsKeepText }
{}

/// A whole run of a statement leaves the locals that it neither declares nor assigns.
pub fn statements_agree()
    ensures { StatementsAgree }
{}

/// The body of a method leaves its parameters.
pub fn parameters_stay()
    ensures { ParametersStay }
{}

/// In a well-typed program that obeys definite assignment a whole run of a statement counts, and locals have values
/// wherever the flow says so.
pub fn statements_count()
    ensures { StatementsCount }
{}

/// And so does one of a method.
pub fn methods_count()
    ensures { MethodsCount }
{}

/// A loop whose turns always go on to another is too deep at every depth.
pub fn loops_never_end()
    ensures { LoopsNeverEnd }
{}

/// And so is a method that cannot end before it calls itself.
pub fn methods_never_end()
    ensures { MethodsNeverEnd }
{}

/// Division and its remainder are Euclidean.
pub fn divisions_are_euclidean()
    ensures { DivisionsAreEuclidean }
{}

/// An assignment evaluates all its right sides, calls among them, before any place takes a value.
pub fn assignments_are_simultaneous()
    ensures { AssignmentsAreSimultaneous }
{}
