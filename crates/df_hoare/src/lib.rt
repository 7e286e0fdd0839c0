//! Program logic: what is safe declaration by declaration is correct as a whole.
#![tactic(auto)]

ghost use Rattle.df_hoare.specs.Ends.{MethodsMeetPostconditions, LoopsEnd};
ghost use Rattle.df_hoare.specs.Total.{SafeIsCorrect};

/// In a well-typed program that obeys definite assignment, modular safety of all methods gives total correctness of each.
pub fn safe_is_correct()
    ensures { SafeIsCorrect }
{}

/// Where a run of a method ends, its postconditions are true of the arguments and of what it gives.
pub fn methods_meet_postconditions()
    ensures { MethodsMeetPostconditions }
{}

/// Behind a loop the invariants are true and the guard is not, or a turn broke out.
pub fn loops_end()
    ensures { LoopsEnd }
{}
