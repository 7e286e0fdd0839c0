//! What a search may use, and what it finds.

ghost use Rattle.std.specs.Prelude.{◌≡◌};

use df_form::{Lit, Step};
use df_kern::Accepted;
use df_table::Table;

/// How far a search may go.
#[derive(Clone, Copy, PartialEq, Eq)]
pub struct Budget {
    /// How many branches it may close, at least 1.
    pub steps: u64,
    /// How many rounds of instances it may add.
    pub rounds: u32,
}

/// Of what there is too much.
#[derive(Drop)]
pub enum What {
    /// So many ground clauses.
    Instances(u64),
    /// So many rows in a level, at a branch that is left by the closed ones.
    Rows {
        count: u64,
        closed: Vec<Vec<Lit>>,
        branch: Vec<Lit>,
    },
}

/// A proof, or why the search stopped without one.
#[derive(Drop)]
pub enum Found {
    /// A log that derives the sequent, and that the kernel took it.
    Proved {
        accepted: Accepted,
        log: Vec<Step>,
    },
    /// A table model of its ground set with all rounds of instances.
    Modelled(Table),
    /// Closed branches, as many as it may close.
    Spent(Vec<Vec<Lit>>),
    /// A number on the way is past 128 bits, at a branch that is left by the closed ones.
    Wide {
        closed: Vec<Vec<Lit>>,
        branch: Vec<Lit>,
    },
    Many(What),
}

impl Found {
    ghost use Rattle.df_search.specs.Found.{is_model};

    /// Whether it is a table model.
    pub(crate) fn is_model(&self) -> bool
        ensures { result ≡ is_model self.now }
    {
        match self {
            Found::Modelled(_) => true,
            Found::Proved { .. } | Found::Spent(_) | Found::Wide { .. } | Found::Many(_) => {
                false
            }
        }
    }
}
