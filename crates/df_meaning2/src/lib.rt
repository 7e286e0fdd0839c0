//! The meaning of programs: values, states, evaluation and execution as big steps, whole runs by depth, modular
//! runs, and what is correct.
#![tactic(auto)]

ghost use Rattle.df_meaning2.specs.Growing.{ExpressionsGrow, StatementsGrow, WholesGrow, MethodsGrow};
ghost use Rattle.df_meaning2.specs.Typed.{RowsAreTyped, ExpressionsAreTyped, StatementsAreTyped, WholesAreTyped, ModularRunsAreTyped};
ghost use Rattle.df_meaning2.specs.Agreeing.{ExpressionsAgree, WholesAgree, ExpressionsReadInside, WholesReadInside};
ghost use Rattle.df_meaning2.specs.Texts.{StatementsKeepText, MethodsKeepText};

/// What expressions evaluate to over a meaning that says less, they do over one that says more.
pub fn expressions_grow()
    ensures { ExpressionsGrow }
{}

/// And so with what statements do.
pub fn statements_grow()
    ensures { StatementsGrow }
{}

/// More depth keeps what functions, calls, loops and proofs do.
pub fn wholes_grow()
    ensures { WholesGrow }
{}

/// More depth keeps what a run of a method comes to, also that it is wrong.
pub fn methods_grow()
    ensures { MethodsGrow }
{}

/// The answer of each operation to values of the types of its operands has the type of its result.
pub fn rows_are_typed()
    ensures { RowsAreTyped }
{}

/// The value of a well-typed expression is of its type.
pub fn expressions_are_typed()
    ensures { ExpressionsAreTyped }
{}

/// A well-typed statement leaves in each local that has a value one of its type, however it ends.
pub fn statements_are_typed()
    ensures { StatementsAreTyped }
{}

/// Whole runs of a well-typed program: functions give values of their types, methods results of theirs.
pub fn wholes_are_typed()
    ensures { WholesAreTyped }
{}

/// And modular runs, whatever is handed in.
pub fn modular_runs_are_typed()
    ensures { ModularRunsAreTyped }
{}

/// An expression comes to the same in states that agree on what it reads.
pub fn expressions_agree()
    ensures { ExpressionsAgree }
{}

/// Functions see nothing of a state but its heap and what may be read of it.
pub fn wholes_agree()
    ensures { WholesAgree }
{}

/// What an expression gives, reading inside a set, it gives in each heap that has the same objects there.
pub fn expressions_read_inside()
    ensures { ExpressionsReadInside }
{}

/// And so do functions, at each depth.
pub fn wholes_read_inside()
    ensures { WholesReadInside }
{}

/// A whole run of a statement keeps in front what was printed before it.
pub fn statements_keep_text()
    ensures { StatementsKeepText }
{}

/// And so does one of a method.
pub fn methods_keep_text()
    ensures { MethodsKeepText }
{}
