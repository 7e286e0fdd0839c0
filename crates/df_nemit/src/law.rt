//! What the code of a program does.

ghost use Rattle.std.specs.Prelude.{◌≡◌, true};
ghost use Rattle.df_nplain.specs.Plain.{Plain};
ghost use Rattle.df_nplain.specs.Bounded.{is_bounded_program};
ghost use Rattle.df_nplain.specs.Counts.{has_counts};
ghost use Rattle.df_nplain.specs.Short.{has_short_texts};
ghost use Rattle.df_nemit.specs.Code.{plain_code};
ghost use Rattle.df_nemit.specs.Correct.{DoesWhat};

/// The code of a program whose places have intervals, whose calls and updates have as many values as are asked
/// for, and whose texts are short, does what the program does: each call of a method that comes to results, at any
/// depth, comes to them on the machine, with any heap, whatever frames wait and whatever was printed before; and a
/// run of the machine that begins with the method never faults and ends with them.
pub fn code_does_what_programs_do()
    ensures { (program : Plain) → is_bounded_program program ≡ true → has_counts program ≡ true → has_short_texts program ≡ true → DoesWhat program (plain_code program) }
{}
