//! What a derivation is worth.

ghost use Rattle.std.specs.Prelude.{◌≡◌, ◌↔◌, ℕ, List, None, Some};
ghost use Rattle.df_form.specs.World.{World};
ghost use Rattle.df_form.specs.Node as pure;
ghost use Rattle.df_form.specs.Sorting.{IsTable};
ghost use Rattle.df_form.specs.Log.{Step};
ghost use Rattle.df_form.specs.Sequent.{Sequent, IsSequent, IsValid};
ghost use Rattle.df_form.specs.declared.log.Pair.{Pair};
ghost use Rattle.df_form.specs.Clause.{Clause};
ghost use Rattle.df_rules.specs.Congruence.{IsCongruence};
ghost use Rattle.df_rules.specs.CongruenceLine.{congruence_line};
ghost use Rattle.df_rules.specs.Derivation.{Derives};
ghost use Rattle.df_rules.specs.Connective.{Added, connective_line};
ghost use Rattle.df_kern.specs.Refusal.{refusal};
ghost use Rattle.df_axiom.specs.Line.{instance_line};
ghost use Rattle.df_rules.specs.Truth.{IsTrue};

/// A log that derives a sequent makes it valid.
pub fn derivations_are_valid()
    ensures { (s : Sequent) (log : List Step) → IsSequent s → Derives s log → IsValid s }
{}

/// The clauses of schemas and of connectives are true, whatever the free terms are.
pub fn clauses_are_true()
    ensures schemas { (world : World) (nodes : List pure.Node) (schema clause : ℕ) (terms : List ℕ) (added : Added) → IsTable nodes → instance_line world nodes schema clause terms ≡ Some added → IsTrue world added }
    ensures connectives { (world : World) (nodes : List pure.Node) (node clause : ℕ) (added : Added) → IsTable nodes → connective_line nodes node clause ≡ Some added → IsTrue world added }
{}

/// A line of congruence adds its clause exactly where the clause holds by congruence, and no other clause.
pub fn congruence_lines_are_exact()
    ensures there { (nodes : List pure.Node) (clause : Clause) (pairs : List Pair) → IsCongruence nodes clause pairs → congruence_line nodes clause pairs ≡ Some clause }
    ensures only { (nodes : List pure.Node) (clause other : Clause) (pairs : List Pair) → congruence_line nodes clause pairs ≡ Some other → (other ≡ clause) × IsCongruence nodes clause pairs }
{}

/// A log derives its sequent exactly where it is refused nowhere.
pub fn logs_derive_or_are_refused()
    ensures { (s : Sequent) (log : List Step) → (refusal s log ≡ None) ↔ Derives s log }
{}
