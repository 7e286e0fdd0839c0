//! The order of variables.

ghost use Rattle.std.specs.Prelude.{◌≡◌, ◌≤◌, [], ◌∷◌};
ghost use Rattle.std.specs.Bool.{Decides};
ghost use Rattle.df_level.specs.Row.{function_row};
ghost use Rattle.df_level.specs.Levels.{rows_of};
ghost use Rattle.df_elim.specs.Elimination.{lesser_of, low_after, TellsVariable};

use df_level::Row;

/// Whether the node comes after the last one, where there is one.
fn is_after(node: usize, last: Option<usize>) -> bool
    ensures { Decides result (low_after last ≤ node) }
{
    match last {
        Some(last) => last < node,
        None => true,
    }
}

/// The first node of the row after the last one.
fn variable_of(row: &Row, last: Option<usize>) -> Option<usize>
    ensures { TellsVariable (low_after last) (function_row row.now ∷ []) result }
{
    for (node, _) in row.entries() {
        if is_after(*node, last) {
            return Some(*node);
        }
    }
    None
}

/// The lesser of two nodes, where there are two.
fn lesser(node: Option<usize>, other: Option<usize>) -> Option<usize>
    ensures { result ≡ lesser_of node other }
{
    match (node, other) {
        (Some(node), Some(other)) => Some(node.min(other)),
        (Some(node), None) => Some(node),
        (None, other) => other,
    }
}

/// The least node after the last one for which a row has a coefficient.
pub(crate) fn next_variable(rows: &[Row], last: Option<usize>) -> Option<usize>
    ensures { TellsVariable (low_after last) (rows_of rows.now) result }
{
    let mut least = None;
    for row in rows {
        least = lesser(least, variable_of(row, last));
    }
    least
}
