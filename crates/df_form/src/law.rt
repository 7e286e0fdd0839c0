//! Laws of sequents.

ghost use Rattle.std.specs.Prelude.{◌≡◌, ℕ, List};
ghost use Rattle.df_form.specs.Node.{Node};
ghost use Rattle.df_form.specs.Sequent.{Sequent, IsSequent, IsNumbered, Walk};
ghost use Rattle.df_form.specs.Renaming.{IsRenaming};

/// Going through the same numbers in the same table ends at one number.
pub fn one_numbering()
    ensures { (nodes : List Node) (met after other : ℕ) (ns : List ℕ) → Walk nodes met ns after → Walk nodes met ns other → after ≡ other }
{}

/// Formulas are numbered in one way: where two sequents have the same formulas under other numbers,
/// and the nodes of both are numbered, they are the same.
pub fn one_sequent()
    ensures { (one other : Sequent) (f : ℕ → ℕ) → IsSequent one → IsNumbered one → IsNumbered other → IsRenaming f one other → (other.nodes ≡ one.nodes) × (other.hypotheses ≡ one.hypotheses) × (other.goal ≡ one.goal) }
{}
