//! What verdicts are worth.

ghost use Rattle.df_nverdict.specs.Laws.{JudgedIsCorrect, VerifiedIsSafe, RefutedIsWrong};

use df_hoare::safe_is_correct;
use df_kern::derivations_are_valid;
use df_nowed::{refuted_sequents_are_refuted_obligations, valid_sequents_are_valid_obligations};
use df_npass::valid_is_safe;

/// Where a program is judged over its groups with no failure, each of its methods is correct.
pub fn judged_is_correct()
    ensures { JudgedIsCorrect }
{
    derivations_are_valid();
    valid_sequents_are_valid_obligations();
    valid_is_safe();
    safe_is_correct();
}

/// Where the outcome of a method has no failure, no modular run of it is wrong, whatever is said of the others.
pub fn verified_is_safe()
    ensures { VerifiedIsSafe }
{
    derivations_are_valid();
    valid_sequents_are_valid_obligations();
    valid_is_safe();
}

/// Where an assignment refutes the sequent of an obligation of a method, the modular run of the method on what it gives
/// is wrong at its position by its kind: on its values of the parameters, and of the free terms that are made at the
/// calls and loops that the run meets. So no obligation is one too many.
pub fn refuted_is_wrong()
    ensures { RefutedIsWrong }
{
    refuted_sequents_are_refuted_obligations();
    df_npass::refuted_is_wrong();
}
