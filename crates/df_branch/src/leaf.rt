//! What comes next at a branch.

ghost use Rattle.std.specs.Prelude.{◌≡◌, ℕ, true, IfOk, List, map, length};
ghost use Rattle.df_form.specs.Log.{combination_of};
ghost use Rattle.df_form.specs.declared.log.Lit.{Lit};
ghost use Rattle.df_form.specs.Sorting.{IsTable};
ghost use Rattle.df_form.specs.Clause.{are_literals};
ghost use Rattle.df_rules.specs.Known.{IsSetOf};
ghost use Rattle.df_row.specs.Row.{Row as FunctionRow};
ghost use Rattle.df_row.specs.RowView.{IsWithin};
ghost use Rattle.df_row.specs.Linear.{refutes};
ghost use Rattle.df_level.specs.Levels.{rows_of, level_rows, Stands, HasFalse};
ghost use Rattle.df_level.specs.Elimination.{Eliminates, last_level};
ghost use Rattle.df_elim.specs.Elimination.{IsRefutation};
ghost use Rattle.df_closure.specs.Closure.{ground_of, GroundClause as Clause};
ghost use Rattle.df_branch.specs.ClosedPlace.{IsClosedPlace};
ghost use Rattle.df_branch.specs.FilledPlace.{IsFilledPlace, IsFullPlace};
ghost use Rattle.df_branch.specs.Place.{IsPlace};
ghost use Rattle.df_branch.specs.Leaf.{TellsLeaf};

use crate::facts::{facts, rows};
use crate::filling::open_member;
use df_back::{Back, back};
use df_clause::GroundClause;
use df_closure::{Closure, close};
use df_cong::{Congruence, Reason, congruence};
use df_elim::{Elimination, Levels, eliminate};
use df_form::{Combination, Lit, NodeTable, Over};
use df_level::{Level, Row};
use df_model::{Tabulation, tabulate};
use df_refutation::refuting;
use df_rules::Known;
use df_table::Table;
use std::alloc::{AllocError, Global};

/// What comes next at a branch.
#[derive(Drop)]
pub enum Leaf {
    /// Propagation through the clauses of these numbers leaves nothing of the last one.
    Refuted(Vec<usize>),
    /// The combinations refute the rows of the closed list.
    Unsolvable {
        /// By which clauses the list was closed.
        reasons: Vec<usize>,
        /// The literals of the closed list.
        facts: Vec<Lit>,
        combinations: Vec<Combination>,
    },
    /// Congruence contradicts the closed list.
    Incongruent {
        /// By which clauses the list was closed.
        reasons: Vec<usize>,
        /// The literals of the closed list.
        facts: Vec<Lit>,
        /// Some of them, and the pairs of the line that their negations have.
        reason: Reason,
    },
    /// An undecided literal of an open clause.
    Open(Lit),
    /// The number of the node lies strictly between the bound and the next number.
    Between {
        node: usize,
        bound: i128,
    },
    /// Two numbers whose equality is undecided: they stand at one place of one operation, or are terms of one.
    Apart {
        left: usize,
        right: usize,
    },
    /// The ground set has a table model.
    Modelled(Table),
    /// A number on the way is past 128 bits.
    Wide,
    /// A level comes to so many rows.
    Many(u64),
}

/// A list where no clause is open, and its rows have levels without a false one.
fn filled_leaf(
    alloc: Global,
    set: &Over,
    nodes: &Over,
    levels: &Levels,
    labels: &[usize],
    facts: &[Lit],
) -> Result<Leaf, AllocError>
    requires chain { Eliminates 0 (level_rows levels.now.first) levels.now.variables.items (map level_rows levels.now.others.items) }
    requires stands { HasFalse (last_level (level_rows levels.now.first) (map level_rows levels.now.others.items)) → ⊥ }
    requires within { (row : FunctionRow) → Stands row (level_rows levels.now.first) → IsWithin (length nodes.now) row }
    ensures { IfOk result (λ leaf. (clauses : List Clause) (branch : List Lit) → IsFilledPlace set.now clauses nodes.now branch levels.now labels.now facts.now → TellsLeaf set.now clauses nodes.now branch leaf) }
{
    match back(
        alloc,
        nodes.len(),
        &levels.first,
        &levels.variables,
        &levels.others,
    )? {
        Back::Point(numbers) => match tabulate(alloc, set, &numbers, labels, facts)? {
            Tabulation::Table(table) => Ok(Leaf::Modelled(table)),
            Tabulation::Wide => Ok(Leaf::Wide),
            Tabulation::Apart { left, right } => Ok(Leaf::Apart { left, right }),
        },
        Back::Between { node, bound } => Ok(Leaf::Between { node, bound }),
        Back::Wide => Ok(Leaf::Wide),
    }
}

/// The combinations by which levels refute the rows.
pub(crate) fn combinations(
    alloc: Global,
    rows: &[Row],
    levels: &[Level],
) -> Result<Vec<Combination>, AllocError>
    requires { IsRefutation (rows_of rows.now) levels.now }
    ensures { IfOk result (λ combinations. (count : ℕ) → refutes count (rows_of rows.now) (map combination_of combinations.items) ≡ true) }
{
    match refuting(alloc, rows, levels)? {
        Some(combinations) => Ok(combinations),
        None => unreachable!(),
    }
}

/// What comes next where a list is closed and no clause is open beside it.
fn full_leaf(
    alloc: Global,
    set: &Over,
    nodes: &Over,
    labels: &[usize],
    reasons: Vec<usize>,
    facts: Vec<Lit>,
) -> Result<Leaf, AllocError>
    requires table { IsTable nodes.now }
    requires formulas { are_literals nodes.now facts.items ≡ true }
    ensures { IfOk result (λ leaf. (clauses : List Clause) (branch : List Lit) → IsFullPlace set.now clauses nodes.now branch labels.now reasons.items facts.items → TellsLeaf set.now clauses nodes.now branch leaf) }
{
    let Some(rows) = rows(alloc, nodes, &facts)? else {
        return Ok(Leaf::Wide);
    };
    match eliminate(alloc, &rows)? {
        Elimination::Refuted(levels) => Ok(Leaf::Unsolvable {
            reasons,
            facts,
            combinations: combinations(alloc, &rows, &levels)?,
        }),
        Elimination::Open(levels) => filled_leaf(alloc, set, nodes, &levels, labels, &facts),
        Elimination::Wide => Ok(Leaf::Wide),
        Elimination::Many(count) => Ok(Leaf::Many(count)),
    }
}

/// What comes next where a list is closed: an open clause comes before any row.
fn closed_leaf(
    alloc: Global,
    set: &Over,
    clauses: &[GroundClause],
    nodes: &Over,
    known: &Known,
    reasons: Vec<usize>,
    facts: Vec<Lit>,
) -> Result<Leaf, AllocError>
    requires table { IsTable nodes.now }
    requires formulas { are_literals nodes.now facts.items ≡ true }
    requires known { IsSetOf facts.items known.now }
    ensures { IfOk result (λ leaf. (branch : List Lit) → IsClosedPlace set.now (map ground_of clauses.now) nodes.now branch reasons.items facts.items → TellsLeaf set.now (map ground_of clauses.now) nodes.now branch leaf) }
{
    let labels = match congruence(alloc, nodes, &facts)? {
        Congruence::Contradicted(reason) => {
            return Ok(Leaf::Incongruent {
                reasons,
                facts,
                reason,
            });
        }
        Congruence::Labels(labels) => labels,
    };
    match open_member(clauses, known) {
        Some(literal) => Ok(Leaf::Open(literal)),
        None => full_leaf(alloc, set, nodes, &labels, reasons, facts),
    }
}

/// What comes next at a branch, beside the ground set (its nodes and clauses) and the nodes that there are
/// by now.
pub fn leaf_at(
    alloc: Global,
    set: &Over,
    clauses: &[GroundClause],
    nodes: &Over,
    branch: &[Lit],
) -> Result<Leaf, AllocError>
    requires { IsPlace set.now (map ground_of clauses.now) nodes.now branch.now }
    ensures { IfOk result (TellsLeaf set.now (map ground_of clauses.now) nodes.now branch.now) }
{
    match close(alloc, clauses, branch)? {
        Closure::Refuted(numbers) => Ok(Leaf::Refuted(numbers)),
        Closure::Closed {
            known,
            learned,
            reasons,
        } => {
            let facts = facts(alloc, branch, &learned)?;
            closed_leaf(alloc, set, clauses, nodes, &known, reasons, facts)
        }
    }
}
