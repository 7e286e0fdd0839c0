//! Laws of sources.

ghost use Rattle.std.specs.Prelude.{◌≡◌, ℕ, List};
ghost use Rattle.df_base.specs.declared.refusal.Refusal.{Refusal};
ghost use Rattle.df_lang.specs.Program as pure;
ghost use Rattle.df_nfront.specs.Source.{IsLawful, IsUnlawful, HasNames};
ghost use Rattle.df_nfront.specs.Naming.{AreNamed};
ghost use Rattle.df_nfront.specs.Refused.{IsRefused};
ghost use Rattle.df_nfront.specs.Told.{TellTheSame};

use df_ntree::one_file;
use df_ntyping::elaborated_is_faultless;
use df_tok::{no_division, one_division, one_fault};

/// A source is lawful for at most one program.
pub fn one_program()
    ensures { (source : List ℕ) (program other : pure.Program) → IsLawful source program → IsLawful source other → program ≡ other }
{
    one_division();
    one_file();
    df_ntyping::one_program();
}

/// What is refused is lawful for no program.
pub fn refused_is_unlawful()
    ensures { (source : List ℕ) (names : List (List ℕ)) (r : Refusal) → IsRefused source names r → IsUnlawful source }
{
    no_division();
    one_division();
    one_file();
    elaborated_is_faultless();
    df_ntyping::one_program();
}

/// A source is refused in one way, but for the position where the syntax is.
pub fn one_refusal()
    ensures { (source : List ℕ) (names others : List (List ℕ)) (r other : Refusal) → IsRefused source names r → IsRefused source others other → TellTheSame names others r other }
{
    one_fault();
    no_division();
    one_division();
    one_file();
    df_ntyping::one_refusal();
}

/// The methods of a lawful source have names that the machine takes: identifiers, none of them `_` alone.
pub fn methods_have_names()
    ensures { (source : List ℕ) (program : pure.Program) → IsLawful source program → HasNames program }
{}

/// What a lawful source declares has names of its own: identifiers, none of them a word of the language, and no two of them
/// the same.
pub fn declarations_have_names()
    ensures { (source : List ℕ) (program : pure.Program) → IsLawful source program → AreNamed program }
{}
