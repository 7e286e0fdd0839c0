//! What one call does with what another put.

ghost use Rattle.df_ntop.specs.HandsOn.{ProofIsTaken};

/// What `prove` has put of a source, `check` takes as its log: where the one call ends with status 0, so does the other, but
/// for counted faults and want of memory.
pub fn proof_is_taken()
    ensures { ProofIsTaken }
{}
