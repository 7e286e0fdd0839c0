//! What a log that was built is worth.

ghost use Rattle.std.specs.Prelude.{◌++◌, ◌∷◌, [], List, map};
ghost use Rattle.df_form.specs.Sequent.{Sequent};
ghost use Rattle.df_form.specs.Clause.{Clause};
ghost use Rattle.df_form.specs.Log.{step_of};
ghost use Rattle.df_rules.specs.Derivation.{Derives};
ghost use Rattle.df_logbuild.specs.declared.derivation.Derivation.{Derivation};
ghost use Rattle.df_logbuild.specs.Runs.{Runs};

/// A log whose last clause is empty derives its sequent.
pub fn logs_end_with_empty_clauses()
    ensures { (s : Sequent) (d : Derivation) (clauses : List Clause) → Runs s d (clauses ++ [] ∷ []) → Derives s (map step_of d.lines.items) }
{}
