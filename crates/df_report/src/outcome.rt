//! What proving a declaration came to.

ghost use Rattle.std.specs.Prelude.{◌≡◌};
ghost use Rattle.df_report.specs.Report.{word_of};

use df_base::Pos;

/// Why the search for a proof stopped.
#[derive(Clone, Copy, PartialEq, Eq)]
pub enum Evidence {
    /// A table of numbers makes the hypotheses true and the goal false.
    Model,
    /// All the branches that may be closed are closed.
    Spent,
    /// A number does not fit 128 bits.
    Wide,
    /// There are too many instances or rows.
    Many,
}

impl Evidence {
    /// Its word in reports.
    pub fn word(&self) -> &'static str
        ensures { result.now ≡ word_of self.now }
    {
        match self {
            Evidence::Model => "model",
            Evidence::Spent => "spent",
            Evidence::Wide => "wide",
            Evidence::Many => "many",
        }
    }
}

/// A parameter of a declaration, and its number in a table.
#[derive(Drop)]
pub struct Parameter {
    pub name: String,
    pub value: i128,
}

/// An obligation without a proof.
#[derive(Drop)]
pub struct Failure {
    /// The place that demands it.
    pub pos: Pos,
    /// The word of its kind.
    pub kind: String,
    pub evidence: Evidence,
    /// The parameters of an integer type, in order; none but for a model.
    pub parameters: Vec<Parameter>,
}

/// A declaration: it is verified where it has no failures.
#[derive(Drop)]
pub struct Outcome {
    /// Its qualified name.
    pub name: String,
    /// In the order of the obligations.
    pub failures: Vec<Failure>,
}
