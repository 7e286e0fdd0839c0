//! Laws of texts of logs.

ghost use Rattle.std.specs.Prelude.{◌≡◌, ℕ, List};
ghost use Rattle.df_form.specs.Log.{Step};
ghost use Rattle.df_logtext.specs.BadLog.{IsText, IsBad};

/// Bytes are the text of one list of logs at most. So what is read of a text that was written is what was
/// written.
pub fn one_text()
    ensures { (names : List (List ℕ)) (one other : List (List Step)) (bytes : List ℕ) → IsText names one bytes → IsText names other bytes → one ≡ other }
{}

/// Bytes with a first bad line are the text of no logs.
pub fn bad_is_no_text()
    ensures { (names : List (List ℕ)) (logs : List (List Step)) (bytes : List ℕ) (number : ℕ) → IsBad names bytes number → IsText names logs bytes → ⊥ }
{}
