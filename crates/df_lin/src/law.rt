//! Laws of verdicts.

ghost use Rattle.std.specs.Prelude.{◌≡◌, ℕ, ℤ, true, List};
ghost use Rattle.df_row.specs.Row as pure;
ghost use Rattle.df_row.specs.Value.{rows_hold};
ghost use Rattle.df_level.specs.declared.row.Row as declared;
ghost use Rattle.df_level.specs.Levels.{rows_of};
ghost use Rattle.df_elim.specs.Elimination.{HasFalseLevel};
ghost use Rattle.df_back.specs.Ranges.{AreInside};

/// Rows of which a level is false, as of those that are refuted, hold at no whole numbers.
pub fn refuted_rows_have_no_point()
    ensures { (count : ℕ) (numbers : ℕ → ℤ) (rows : List pure.Row) → HasFalseLevel rows → rows_hold count numbers rows ≡ true → ⊥ }
{}

/// Some count of nodes has all those for which rows have coefficients.
pub fn rows_have_a_count()
    ensures { (rows : List declared.Row) → (count : ℕ) × AreInside count (rows_of rows) }
{}
