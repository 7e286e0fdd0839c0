//! What tabulated assignments are worth.

ghost use Rattle.std.specs.Prelude.{◌≡◌, ℕ, ℤ, ◌<◌, Bool, true, false, List, [], take, length, slice_get, Some};
ghost use Rattle.df_form.specs.World.{World};
ghost use Rattle.df_form.specs.declared.node.Free.{Free};
ghost use Rattle.df_form.specs.declared.node.Sort.TheVariants as sorts;
ghost use Rattle.df_form.specs.declared.node.Op.TheVariants as ops;
ghost use Rattle.df_form.specs.Node.{Node};
ghost use Rattle.df_form.specs.Sorting.{IsTable};
ghost use Rattle.df_form.specs.Truth.{Assignment, values, number_at, truth};
ghost use Rattle.df_form.specs.Sequent.{Sequent, IsSequent};
ghost use Rattle.df_clause.specs.declared.ground.Ground.{Ground};
ghost use Rattle.df_clause.specs.GroundView.{IsGround, state_of};
ghost use Rattle.df_table.specs.TableModel.{IsTableModel};
ghost use Rattle.df_model.specs.Valuation.{assignment_of, numbers_of_nodes};

/// The numbers of all nodes of a ground set, whatever instances are in it, are a model of it where the
/// hypotheses are true and the goal is false.
pub fn valuations_are_models()
    ensures { (s : Sequent) (g : Ground) (depth : ℕ) (assignment : Assignment) → IsSequent s → IsGround s g → ((h i : ℕ) → slice_get s.hypotheses i ≡ Some h → truth depth s.world assignment g.nodes h ≡ true) → truth depth s.world assignment g.nodes s.goal ≡ false → IsTableModel (state_of g) (numbers_of_nodes depth s.world assignment g.nodes) }
{}

/// More nodes do not change what the first ones mean.
pub fn truths_of_first_nodes()
    ensures truths { (depth : ℕ) (world : World) (assignment : Assignment) (nodes more : List Node) (n : ℕ) → take (length nodes) more ≡ nodes → n < length nodes → truth depth world assignment more n ≡ truth depth world assignment nodes n }
    ensures numbers { (depth : ℕ) (world : World) (assignment : Assignment) (nodes more : List Node) (n : ℕ) → take (length nodes) more ≡ nodes → n < length nodes → number_at (values depth world assignment more) n ≡ number_at (values depth world assignment nodes) n }
{}

/// A free term has the number or the truth that stands at its node.
pub fn numbers_follow_atoms()
    ensures numbers { (nodes : List Node) (x : ℕ → ℤ) (p : ℕ → Bool) (depth : ℕ) (world : World) (n : ℕ) (free : Free) → IsTable nodes → slice_get nodes n ≡ Some (record { op = ops.Free free; parts = [] }) → free.sort ≡ sorts.Number → number_at (values depth world (assignment_of nodes x p) nodes) n ≡ x n }
    ensures truths { (nodes : List Node) (x : ℕ → ℤ) (p : ℕ → Bool) (depth : ℕ) (world : World) (n : ℕ) (free : Free) → IsTable nodes → slice_get nodes n ≡ Some (record { op = ops.Free free; parts = [] }) → free.sort ≡ sorts.Truth → truth depth world (assignment_of nodes x p) nodes n ≡ p n }
{}
