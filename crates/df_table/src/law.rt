//! What table models are worth.

ghost use Rattle.std.specs.Prelude.{◌≡◌, ℤ, true, false, List};
ghost use Rattle.std.specs.List.{list_all};
ghost use Rattle.df_form.specs.Sequent.{Sequent};
ghost use Rattle.df_clause.specs.declared.ground.Ground.{Ground};
ghost use Rattle.df_clause.specs.GroundView.{IsGround, state_of};
ghost use Rattle.df_table.specs.TableModel.{is_true, IsTableModel};

/// A model of the ground set of a sequent makes each hypothesis true and the goal false.
pub fn models_falsify_sequents()
    ensures hypotheses { (s : Sequent) (g : Ground) (table : List ℤ) → IsGround s g → IsTableModel (state_of g) table → list_all (is_true table) s.hypotheses ≡ true }
    ensures goal { (s : Sequent) (g : Ground) (table : List ℤ) → IsGround s g → IsTableModel (state_of g) table → is_true table s.goal ≡ false }
{}
