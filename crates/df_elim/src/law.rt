//! Laws of levels.

ghost use Rattle.std.specs.Prelude.{◌≡◌, ℕ, ℤ, true, List};
ghost use Rattle.df_row.specs.Row as pure;
ghost use Rattle.df_row.specs.Value.{row_holds, rows_hold};
ghost use Rattle.df_level.specs.Levels.{Stands, IsFirstLevel};
ghost use Rattle.df_level.specs.Elimination.{AreRefuted, IsElimination};
ghost use Rattle.df_elim.specs.Elimination.{AreAmong};

/// Rows that are refuted are refuted among others too.
pub fn refuted_rows_stay_refuted()
    ensures { (rows more : List pure.Row) → AreAmong rows more → AreRefuted rows
        → (first : List pure.Row) (variables : List ℕ) (levels : List (List pure.Row)) → IsElimination more first variables levels → ⊥ }
{}

/// Numbers at which the rows of the first level hold are numbers at which the rows do.
pub fn first_levels_tell()
    ensures { (count : ℕ) (numbers : ℕ → ℤ) (rows first : List pure.Row) → IsFirstLevel rows first
        → ((r : pure.Row) → Stands r first → row_holds count numbers r ≡ true) → (r : pure.Row) → Stands r rows → row_holds count numbers r ≡ true }
{}

/// The same of lists of rows.
pub fn rows_hold_where_first_levels_do()
    ensures { (count : ℕ) (numbers : ℕ → ℤ) (rows first : List pure.Row) → IsFirstLevel rows first → rows_hold count numbers first ≡ true → rows_hold count numbers rows ≡ true }
{}
