//! What holds of every line, and lines that show the table.

ghost use Rattle.std.specs.Prelude.{◌≡◌, ℕ, List, Some};
ghost use Rattle.df_ncmd.specs.Line as pure;
ghost use Rattle.df_ncmd.specs.Line.{IsInLimits, line_of};
ghost use Rattle.df_ncmd.specs.Shown as shown;

/// The numbers of a command lie within their limits.
pub fn limits()
    ensures { (words : List (List ℕ)) (command : pure.Command) → line_of words ≡ Some command → IsInLimits command }
{}

/// What words ask for: each command, its options, where they may stand, and files that look like
/// options.
pub fn lines()
    ensures { shown.Lines }
{}

/// The ends of the ranges of numbers.
pub fn numbers()
    ensures { shown.Numbers }
{}

/// Words that are no line, also by how a number is written.
pub fn usages()
    ensures { shown.Usages }
{}
