//! What logs of programs are worth.

ghost use Rattle.df_nproof.specs.Laws.{ProofsAreCorrect, LogsOfVerdictsDerive, OutcomesAre, DerivedIsNotRefused, DerivedHaveText};

use df_hoare::safe_is_correct;
use df_kern::{derivations_are_valid, logs_derive_or_are_refused};
use df_nenc::one_node_for_a_tree;
use df_nowed::valid_sequents_are_valid_obligations;
use df_npass::all_valid_is_safe;

/// Where each obligation of a program over its groups has a log that derives it, each of its methods is correct.
pub fn proofs_are_correct()
    ensures { ProofsAreCorrect }
{
    derivations_are_valid();
    valid_sequents_are_valid_obligations();
    all_valid_is_safe();
    safe_is_correct();
}

/// The logs of verdicts without a failure derive the obligations, one each, in their order.
pub fn logs_of_verdicts_derive()
    ensures { LogsOfVerdictsDerive }
{}

/// The outcomes of verdicts without a failure are one for each method of the program, in their order, which has none.
pub fn outcomes_are()
    ensures { OutcomesAre }
{}

/// Parts that derive their obligations are refused nowhere: an obligation has one sequent.
pub fn derived_is_not_refused()
    ensures { DerivedIsNotRefused }
{
    one_node_for_a_tree();
    logs_derive_or_are_refused();
}

/// Logs that derive obligations have a text: what the kernel takes makes no free term, and no test for a type that the
/// program has not.
pub fn derived_logs_have_text()
    ensures { DerivedHaveText }
{}
