//! What sequents of obligations mean.

ghost use Rattle.df_nowed.specs.Laws.{ValidSequentsAreValidObligations, RefutedSequentsAreRefutedObligations, ParametersAreFreeTerms};

/// A sequent over a program is valid exactly where the obligation is that has its trees.
pub fn valid_sequents_are_valid_obligations()
    ensures { ValidSequentsAreValidObligations }
{}

/// Where an assignment makes the hypotheses of a sequent over a program true and its goal false, an interpretation over
/// the program that gives the same values does so with the obligation that has its trees.
pub fn refuted_sequents_are_refuted_obligations()
    ensures { RefutedSequentsAreRefutedObligations }
{}

/// A method begins with the free terms 0, 1, .. for its parameters, in order.
pub fn parameters_are_free_terms()
    ensures { ParametersAreFreeTerms }
{}
