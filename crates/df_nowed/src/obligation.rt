//! Obligations.

ghost use Rattle.std.proofs.Props.{props};
ghost use Rattle.std.specs.Prelude.{◌≡◌, ◌+◌, ◌<◌, ◌≤◌, ◌^◌, max};
ghost use Rattle.std.specs.List.{AllByRecursion};
ghost use Rattle.df_nowed.specs.Counts.{AreCounts};
ghost use Rattle.df_nowed.specs.Owed.{IsOwed};

use df_base::Pos;
use df_form::{Formula, Formulas, Front, Kind};
use df_lang::DeclId;

/// What is to be shown at a position: the goal is true where so many of the formulas are that its declaration knows, the
/// first ones.
#[derive(Clone, Copy)]
pub struct Obligation {
    pub pos: Pos,
    pub kind: Kind,
    pub hypothesis_count: usize,
    pub goal: Formula,
    /// Where the goal stands among the formulas that its declaration knows: it is known once it was asked.
    pub place: usize,
}

impl Obligation {
    /// How many of the formulas that its declaration knows have all nodes of the obligation.
    pub(crate) fn front(&self) -> usize
        requires place { self.now.place ≤ self.now.hypothesis_count }
        requires small { self.now.place < 2 ^ 63 }
        ensures { result ≡ max self.now.hypothesis_count (self.now.place + 1) }
    {
        if self.place < self.hypothesis_count {
            self.hypothesis_count
        } else {
            self.place + 1
        }
    }
}

/// The obligations of a method, in the order of evaluation, over the formulas that it knows. Its nodes are numbered in
/// postorder of first occurrence in these.
#[derive(Drop)]
pub struct MethodObligations {
    pub declaration: DeclId,
    pub nodes: Front,
    pub known: Formulas,
    /// How many nodes there are before the first formula and behind each.
    pub counts: Vec<usize>,
    pub obligations: Vec<Obligation>,
    pub ghost are_owed: { AllByRecursion (IsOwed known) obligations.items } by { Prim.hlevel props },
    pub ghost are_counts: { AreCounts nodes known counts.items } by { Prim.hlevel props },
}

/// The obligations of a program, of one method after the other.
#[derive(Drop)]
pub struct Obligations {
    pub methods: Vec<MethodObligations>,
}
