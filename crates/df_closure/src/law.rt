//! What closed lists are worth.

ghost use Rattle.std.specs.Prelude.{◌≡◌, ◌↔◌, ℕ, ℤ, Bool, true, List, [], ◌∷◌, ◌++◌, map, length, slice_get, Some};
ghost use Rattle.df_form.specs.declared.log.Lit.{Lit};
ghost use Rattle.df_form.specs.Node.{Node};
ghost use Rattle.df_form.specs.Sorting.{IsTable};
ghost use Rattle.df_form.specs.Clause.{Clause, negation, is_among, are_literals, literal_truth};
ghost use Rattle.df_row.specs.Row.{Row};
ghost use Rattle.df_row.specs.Linear.{rows_of};
ghost use Rattle.df_row.specs.Value.{rows_hold};
ghost use Rattle.df_rules.specs.Propagation.{left, is_empty, propagation_line};
ghost use Rattle.df_closure.specs.Closure.{GroundClause, IsClosed, IsRefuted, after};
ghost use Rattle.df_closure.specs.Lines.{AreIn};
ghost use Rattle.df_closure.specs.Full.{AreConnectivesMet, ArePrimitivesTrue, IsConsistent};
ghost use Rattle.df_closure.specs.Atoms.{AreAlikeNumbers};
ghost use Rattle.df_closure.specs.Comparisons.{AreComparisonsTrue};
ghost use Rattle.df_closure.specs.Reading.{IsReading};

/// Where nothing is open beside a consistent list, a reading that makes its free formulas, its tests of types,
/// its comparisons and its equalities of other than numbers true makes all its literals true.
pub fn full_lists_hold()
    ensures { (nodes : List Node) (known : List Lit) (v : ℕ → ℤ) (t : ℕ → Bool) → IsTable nodes → are_literals nodes known ≡ true → AreConnectivesMet nodes known → IsConsistent known → IsReading nodes v t → ArePrimitivesTrue nodes t known → (l : Lit) → is_among known l ≡ true → literal_truth t l ≡ true }
{}

/// The rows of literals hold at the numbers of a reading exactly where it makes each comparison and each
/// equality of numbers among the literals true.
pub fn rows_hold_where_comparisons_do()
    ensures { (nodes : List Node) (literals : List Lit) (rows : List Row) (v : ℕ → ℤ) (t : ℕ → Bool) → IsTable nodes → IsReading nodes v t → rows_of nodes literals ≡ Some rows → (rows_hold (length nodes) v rows ≡ true) ↔ AreComparisonsTrue nodes t literals }
{}

/// Rows of literals hold by the numbers of the atoms that are numbers alone: the nodes that are no literal,
/// no sum, and no literal times a node.
pub fn rows_hold_by_atoms()
    ensures { (nodes : List Node) (literals : List Lit) (rows : List Row) (x y : ℕ → ℤ) → IsTable nodes → rows_of nodes literals ≡ Some rows → AreAlikeNumbers nodes x y → rows_hold (length nodes) x rows ≡ rows_hold (length nodes) y rows }
{}

/// Where a clause is false beside a list, a log that holds the clauses may add the negation of the list by
/// the line of propagation through the numbers that were found.
pub fn refuted_lists_are_lines()
    ensures { (nodes : List Node) (clauses : List GroundClause) (log : List Clause) (list : List Lit) (numbers : List ℕ) → AreIn clauses log → are_literals nodes (map negation list) ≡ true → IsRefuted clauses list numbers → propagation_line nodes log numbers (map negation list) ≡ Some (map negation list) }
{}

/// And so it may where a clause of its own is false beside the closed list.
pub fn closed_lists_are_lines()
    ensures { (nodes : List Node) (clauses : List GroundClause) (log : List Clause) (list : List Lit) (reasons : List ℕ) (learned : List Lit) (last : ℕ) (clause : Clause) → AreIn clauses log → are_literals nodes (map negation list) ≡ true → IsClosed clauses list reasons learned → slice_get log last ≡ Some clause → is_empty (left (after list learned) clause) ≡ true → propagation_line nodes log (reasons ++ last ∷ []) (map negation list) ≡ Some (map negation list) }
{}
