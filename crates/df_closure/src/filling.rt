//! What rows are worth.

ghost use Rattle.std.specs.Prelude.{◌≡◌, ◌<◌, ℕ, pos, true, List, length, take, slice_get, Some};
ghost use Rattle.df_form.specs.declared.log.Lit.{Lit};
ghost use Rattle.df_form.specs.declared.node.Sort.TheVariants as sorts;
ghost use Rattle.df_form.specs.Node.{Node};
ghost use Rattle.df_form.specs.Sorting.{IsTable, sort_at};
ghost use Rattle.df_form.specs.Clause.{are_literals};
ghost use Rattle.df_row.specs.Row.{Row};
ghost use Rattle.df_row.specs.Linear.{rows_of};
ghost use Rattle.df_closure.specs.Atoms.{is_atom};

/// Nodes that come later leave the rows of literals as they are.
pub fn later_nodes_leave_rows()
    ensures { (nodes more : List Node) (literals : List Lit) → IsTable more → take (length nodes) more ≡ nodes → are_literals nodes literals ≡ true → rows_of more literals ≡ rows_of nodes literals }
{}

/// Rows have coefficients for nodes that are numbers and atoms, and for no others.
pub fn rows_are_of_numbers()
    ensures { (nodes : List Node) (literals : List Lit) (rows : List Row) → IsTable nodes → rows_of nodes literals ≡ Some rows → (i : ℕ) (row : Row) → slice_get rows i ≡ Some row → (n : ℕ) → (row.coefficient n ≡ pos 0 → ⊥) → (n < length nodes) × (sort_at nodes n ≡ sorts.Number) × ((node : Node) → slice_get nodes n ≡ Some node → is_atom nodes node.op node.parts ≡ true) }
{}
