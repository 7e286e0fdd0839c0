/// What an obligation demands, and what a run that breaks it did wrong.
#[derive(Clone, Copy, PartialEq, Eq)]
pub enum Kind {
    Assert,
    Requires,
    Ensures,
    /// A loop's invariant on entry.
    Entry,
    /// A loop's invariant after a turn.
    Turn,
    Decreases,
    Reads,
    Modifies,
    Index,
    Null,
    Divisor,
    /// A number lies in its type.
    Range,
    Match,
    Choice,
    Calc,
    Size,
    Distinct,
}

impl Kind {
    ghost use Rattle.std.specs.Prelude.{◌≡◌};
    ghost use Rattle.df_types.specs.Kind.{word_of};

    /// The word that names the kind in reports.
    pub fn word(&self) -> &'static str
        ensures { result.now ≡ word_of self.now }
    {
        match self {
            Kind::Assert => "assert",
            Kind::Requires => "requires",
            Kind::Ensures => "ensures",
            Kind::Entry => "entry",
            Kind::Turn => "turn",
            Kind::Decreases => "decreases",
            Kind::Reads => "reads",
            Kind::Modifies => "modifies",
            Kind::Index => "index",
            Kind::Null => "null",
            Kind::Divisor => "divisor",
            Kind::Range => "range",
            Kind::Match => "match",
            Kind::Choice => "choice",
            Kind::Calc => "calc",
            Kind::Size => "size",
            Kind::Distinct => "distinct",
        }
    }
}
