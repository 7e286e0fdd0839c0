//! A law of groups.

ghost use Rattle.df_groups2.specs.Laws.{OnePartition};

/// All groups of a program put the same declarations together.
pub fn one_partition()
    ensures { OnePartition }
{}
