//! Closure under unit propagation: a list of literals, with what the clauses of a ground set teach
//! beside it. A clause that is bound to an equality counts where the equality or its negation is known, also by
//! propagation: one that is known to be false could never be split otherwise.
#![tactic(auto)]

mod closing;
mod closure;
mod filling;
mod law;

pub use closing::known_of;
pub use closure::{Closure, close};
pub use filling::{later_nodes_leave_rows, rows_are_of_numbers};
pub use law::{
    closed_lists_are_lines, full_lists_hold, refuted_lists_are_lines, rows_hold_by_atoms,
    rows_hold_where_comparisons_do,
};
