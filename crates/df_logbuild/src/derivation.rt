//! Logs so far.

ghost use Rattle.std.specs.Prelude.{◌≡◌, ◌≤◌, length};

use df_form::{Over, Step};

/// A log so far.
#[derive(Drop)]
pub struct Derivation<'a> {
    /// The sequent's nodes, and those that lines made.
    pub nodes: Over<'a>,
    pub lines: Vec<Step>,
    /// How many clauses the lines added. Those are numbered from 0.
    pub clauses: usize,
    ghost few: { clauses ≤ length lines.items },
}

impl<'a> Derivation<'a> {
    /// A log of these lines, which lead to these nodes and to so many clauses.
    pub fn new(nodes: Over<'a>, lines: Vec<Step>, clauses: usize) -> Derivation<'a>
        requires { clauses ≤ length lines.items }
        ensures nodes { result.nodes ≡ nodes.entry }
        ensures lines { result.lines ≡ lines }
        ensures clauses { result.clauses ≡ clauses }
    {
        Derivation {
            nodes,
            lines,
            clauses,
        }
    }
}
