//! Whether a table is a model.

ghost use Rattle.std.specs.Prelude.{◌≡◌, ◌==◌, ◌&&◌, length};
ghost use Rattle.std.specs.Bool.{Decides};
ghost use Rattle.std.specs.List.{list_all};
ghost use Rattle.df_form.specs.Clause.{literal_truth, clause_truth};
ghost use Rattle.df_clause.specs.GroundView.{state_of};
ghost use Rattle.df_table.specs.TableModel.{is_true, IsTableModel};
ghost use Rattle.df_table.specs.Testing.{is_congruent, are_exact};

use crate::congruence::is_congruent;
use crate::exactness::are_exact;
use crate::table::Table;
use df_clause::{ClauseSet, Ground, GroundClause};
use df_form::{Lit, NodeTable};

fn is_literal_true(table: &Table, literal: Lit) -> bool
    ensures { result ≡ literal_truth (is_true table.now) literal }
{
    if literal.positive {
        table.is_true(literal.node)
    } else {
        !table.is_true(literal.node)
    }
}

fn is_clause_true(table: &Table, clause: &[Lit]) -> bool
    ensures { result ≡ clause_truth (is_true table.now) clause.now }
{
    clause
        .iter()
        .any(|literal| is_literal_true(table, *literal))
}

fn are_true(table: &Table, clauses: &[GroundClause]) -> bool
    ensures { result ≡ list_all (λ clause. clause_truth (is_true table.now) clause.literals.items) clauses.now }
{
    clauses
        .iter()
        .all(|clause| is_clause_true(table, clause.literals.as_slice()))
}

fn is_set_true(table: &Table, set: &ClauseSet) -> bool
    ensures { result ≡ list_all (λ clause. clause_truth (is_true table.now) clause.literals) set.now }
{
    are_true(table, set.as_slice())
}

/// Whether the table passes each test.
fn passes(ground: &Ground, table: &Table) -> bool
    ensures { result ≡ (length table.now == length ground.now.nodes && (is_congruent ground.now.nodes table.now && (are_exact ground.now.nodes table.now && list_all (λ clause. clause_truth (is_true table.now) clause.literals) ground.now.clauses))) }
{
    table.len() == ground.nodes.len()
        && (is_congruent(&ground.nodes, table)
            && (are_exact(&ground.nodes, table) && is_set_true(table, &ground.clauses)))
}

/// Whether a table is a model of a ground set: each node has a number; equal arguments of one operation
/// give equal results; literals, sums and products with a literal first factor are exact; comparisons are
/// true just where the numbers compare so; and every clause is true, those that are bound too. A formula
/// is true where its number is at least 1. The goal is false, since its negation is one of the clauses.
pub fn is_model(ground: &Ground, table: &Table) -> bool
    ensures { Decides result (IsTableModel (state_of ground.now) table.now) }
{
    passes(ground, table)
}
