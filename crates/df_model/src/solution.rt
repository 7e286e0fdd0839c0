//! What tables of solutions are worth.

ghost use Rattle.std.specs.Prelude.{◌≡◌, ℕ, ℤ, ◌<◌, true, List, take, length};
ghost use Rattle.df_form.specs.declared.log.Lit.{Lit};
ghost use Rattle.df_form.specs.Node.{Node};
ghost use Rattle.df_form.specs.Sequent.{Sequent, IsSequent};
ghost use Rattle.df_form.specs.Clause.{is_among, literal_truth};
ghost use Rattle.df_clause.specs.declared.ground.Ground.{Ground};
ghost use Rattle.df_clause.specs.GroundView.{IsGround, state_of};
ghost use Rattle.df_closure.specs.Filled.{IsFilled};
ghost use Rattle.df_cong.specs.Congruence.{label_at};
ghost use Rattle.df_table.specs.TableModel.{is_true, Agree, IsTableModel};
ghost use Rattle.df_model.specs.TableNumbers.{basis_of};
ghost use Rattle.df_model.specs.Tabulation.{IsWholeTable, IsApart};
ghost use Rattle.df_model.specs.Solution.{IsSolution, AreUndecided};

/// Where numbers and labels solve a list of literals, each literal of a node that has a number in the table
/// is true there.
pub fn tabulated_literals_are_true()
    ensures { (nodes set : List Node) (known : List Lit) (numbers table : List ℤ) (labels : List ℕ) → IsSolution nodes known numbers labels → take (length set) nodes ≡ set → IsWholeTable (basis_of numbers labels known) set table → (l : Lit) → is_among known l ≡ true → l.node < length set → literal_truth (is_true table) l ≡ true }
{}

/// Where no clause of a ground set is open beside the list, a table in which no nodes disagree is a model.
pub fn tables_are_models()
    ensures { (s : Sequent) (g : Ground) (nodes : List Node) (known : List Lit) (numbers table : List ℤ) (labels : List ℕ) → IsSequent s → IsGround s g → take (length g.nodes) nodes ≡ g.nodes → IsFilled g.clauses known → IsSolution nodes known numbers labels → IsWholeTable (basis_of numbers labels known) g.nodes table → ((m n : ℕ) → Agree g.nodes table m n) → IsTableModel (state_of g) table }
{}

/// Terms that are apart in a table of a solution are two numbers of whose equality nothing is known.
pub fn apart_is_undecided()
    ensures { (nodes set : List Node) (known : List Lit) (numbers table : List ℤ) (labels : List ℕ) (left right : ℕ) → IsSolution nodes known numbers labels → take (length set) nodes ≡ set → IsWholeTable (basis_of numbers labels known) set table → IsApart set (label_at labels) table left right → AreUndecided nodes known left right }
{}
