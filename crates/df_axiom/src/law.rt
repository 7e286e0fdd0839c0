//! What instances are worth.

ghost use Rattle.std.specs.Prelude.{◌≡◌, ℕ, List, Some};
ghost use Rattle.df_form.specs.World.{World};
ghost use Rattle.df_form.specs.Node as pure;
ghost use Rattle.df_form.specs.Sorting.{IsTable};
ghost use Rattle.df_axiom.specs.Instance.{Added};
ghost use Rattle.df_axiom.specs.Line.{instance_line};
ghost use Rattle.df_axiom.specs.Truth.{IsTrue};

/// The clauses of schemas are true, whatever the free terms are.
pub fn instances_are_true()
    ensures { (world : World) (nodes : List pure.Node) (schema clause : ℕ) (terms : List ℕ) (added : Added) → IsTable nodes → instance_line world nodes schema clause terms ≡ Some added → IsTrue world added }
{}
