//! Laws of definite assignment.

ghost use Rattle.df_ntyping.specs.Laws.{AssignedOrTold};

/// A program is definitely assigned, or a first use without a value is told of it.
pub fn assigned_or_told()
    ensures { AssignedOrTold }
{}
