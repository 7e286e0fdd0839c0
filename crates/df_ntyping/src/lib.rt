//! Names and typing of source files, as definitions: what a name means, which rules a node breaks, which of them is
//! told, and which typed program a file elaborates to.
#![tactic(auto)]

ghost use Rattle.df_ntyping.specs.Laws.{OneTyping, OneType, OneProgram, NodesAreInOrder, LeastExists, TypedIsWellTyped, ElaboratedIsWellTyped, ElaboratedIsFaultless, FaultlessIsElaborated, FaultIsTold, OneRefusal, OneMissingTold, FaultlessIsTyped, TypedIsFaultless, FaultlessIsWanted, WantedIsFaultless};

/// An expression has one type and one typed expression at most.
pub fn one_typing()
    ensures { OneTyping }
{}

/// A file elaborates to one program at most.
pub fn one_program()
    ensures { OneProgram }
{}

/// The type of an expression is that which the rules look at.
pub fn one_type()
    ensures { OneType }
{}

/// The nodes of a file are listed by where their texts end, the inner one before the outer one.
pub fn nodes_are_in_order()
    ensures { NodesAreInOrder }
{}

/// What an expression elaborates to is well typed, where the types of locals are the program's.
pub fn typed_is_well_typed()
    ensures { TypedIsWellTyped }
{}

/// The program that a file elaborates to is well typed.
pub fn elaborated_is_well_typed()
    ensures { ElaboratedIsWellTyped }
{}

/// Where nodes break rules, there is a least fault.
pub fn least_exists()
    ensures { LeastExists }
{}

/// A file that breaks a rule has a refusal that tells the least one.
pub fn fault_is_told()
    ensures { FaultIsTold }
{}

/// At most one use of a local without a value is told of a program.
pub fn one_missing_told()
    ensures { OneMissingTold }
{}

/// An expression that elaborates breaks nothing.
pub fn typed_is_faultless()
    ensures { TypedIsFaultless }
{}

/// An expression that breaks nothing, and whose locals have types, elaborates.
pub fn faultless_is_typed()
    ensures { FaultlessIsTyped }
{}

/// An expression that elaborates to what is asked breaks nothing, nor is anything broken that is asked.
pub fn wanted_is_faultless()
    ensures { WantedIsFaultless }
{}

/// An expression that breaks nothing, of which nothing that is asked is broken, and whose locals have types, elaborates to
/// what is asked.
pub fn faultless_is_wanted()
    ensures { FaultlessIsWanted }
{}

/// A file that elaborates breaks nothing.
pub fn elaborated_is_faultless()
    ensures { ElaboratedIsFaultless }
{}

/// A file that breaks nothing elaborates, where the names of its declarations, parameters and results have texts.
pub fn faultless_is_elaborated()
    ensures { FaultlessIsElaborated }
{}

/// A file has at most one refusal.
pub fn one_refusal()
    ensures { OneRefusal }
{}
