//! Terms and formulas of programs, as trees: what they mean, the term of an expression with the conditions under
//! which the expression has a value, and measures with the order on them.
#![tactic(auto)]

ghost use Rattle.df_nterm.specs.Laws.{EvaluationIsAnswered, MeasuresAreAnswered, BelowIsOrder};

/// A well-typed expression has a value exactly where its conditions are true, and it is the value of its term. The
/// first condition that is false has the place and the kind of what is wrong.
pub fn evaluation_is_answered()
    ensures { EvaluationIsAnswered }
{}

/// The members of a well-typed measure have values exactly where its conditions are true, and these are the values of
/// their terms, each of the sort of its type. The first condition that is false tells what is wrong.
pub fn measures_are_answered()
    ensures { MeasuresAreAnswered }
{}

/// The formula that one measure is below another is true exactly where its values are.
pub fn below_is_order()
    ensures { BelowIsOrder }
{}
