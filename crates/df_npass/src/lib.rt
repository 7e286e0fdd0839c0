//! Obligations of programs: passing over statements by single assignment and path conditions, with calls and loops,
//! and what the obligations of well-typed programs that obey definite assignment have to do with modular runs.
#![tactic(auto)]

ghost use Rattle.df_npass.specs.Laws.{WrongIsRefuted, RefutedIsWrong, ValidIsSafe, SafeIsValid, AllValidIsSafe, RefutedMemberIsWrong, ValidMembersAreSafe, OneListOfObligations};

/// Where a modular run of a method is wrong, an obligation of that kind at that place is refuted: by an
/// interpretation that gives the run's arguments, and makes all its hypotheses true and its goal false.
#[tactic(auto, using(crate::proofs::Laws::wrong_is_refuted))]
pub fn wrong_is_refuted()
    ensures { WrongIsRefuted }
{}

/// Where an obligation of a method is refuted, the modular run on what the interpretation gives is wrong at its place by
/// its kind: on its arguments, and on its values of the free terms that are made at the calls and loops that the run
/// meets, in order.
pub fn refuted_is_wrong()
    ensures { RefutedIsWrong }
{}

/// Where all obligations of a method are valid, no modular run of it is wrong.
pub fn valid_is_safe()
    ensures { ValidIsSafe }
{}

/// Where no modular run of a method is wrong, all its obligations are valid: none is asked for too much.
pub fn safe_is_valid()
    ensures { SafeIsValid }
{}

/// Where all obligations of a program over its groups are valid, the program is safe.
#[tactic(auto, using(crate::proofs::Laws::all_valid_is_safe))]
pub fn all_valid_is_safe()
    ensures { AllValidIsSafe }
{}

/// Where an obligation of a program is refuted, a modular run of the method that it is an obligation of is wrong there.
#[tactic(auto, using(crate::proofs::Laws::refuted_member_is_wrong))]
pub fn refuted_member_is_wrong()
    ensures { RefutedMemberIsWrong }
{}

/// Where all obligations of a program that are of one method are valid, no modular run of that method is wrong.
pub fn valid_members_are_safe()
    ensures { ValidMembersAreSafe }
{}

/// All groups of a program give it the same obligations: whether a callee is in the group of its caller is one answer.
#[tactic(auto, using(crate::proofs::Obligations::one_list_of_obligations))]
pub fn one_list_of_obligations()
    ensures { OneListOfObligations }
{}
