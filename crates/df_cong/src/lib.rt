//! Congruence: when a line of congruence says that literals contradict one another, why they do, a theory that
//! holds literals and tells it, and one call that tells it, or else which nodes they make equal. A reason may have
//! more literals than it needs: it is found in a forest of the merges, and where no line comes of that, all count.
#![tactic(auto)]

mod answer;
mod clash;
mod classes;
mod collision;
mod deciding;
mod explaining;
mod forest;
mod reason;
mod replay;
mod theory;

ghost use Rattle.df_cong.specs.Laws.{LinesAreContradictions, ContradictionsStay, LaterNodesAddNone};

pub use answer::{Answer, Congruence, Mark, Reason};
pub use classes::Classes;
pub use deciding::congruence;
pub use theory::Theory;

/// A clause of literals has a line of congruence exactly where the least congruence contradicts its negation.
pub fn lines_are_contradictions()
    ensures { LinesAreContradictions }
{}

/// More literals and more nodes keep a contradiction.
pub fn contradictions_stay()
    ensures { ContradictionsStay }
{}

/// Nodes that come later contradict no literals of those before them.
pub fn later_nodes_add_none()
    ensures { LaterNodesAddNone }
{}
