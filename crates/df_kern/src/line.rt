//! What a line adds.

ghost use Rattle.std.specs.Prelude.{◌≡◌, ◌+◌, ◌<◌, ◌≤◌, length, vec_len, IfOk, map};
ghost use Rattle.std.specs.Bool.{OnTrue};
ghost use Rattle.df_form.specs.Log.{step_of};
ghost use Rattle.df_form.specs.SequentView.{sequent_of};
ghost use Rattle.df_rules.specs.Derivation.{after, kind_row};
ghost use Rattle.df_kern.specs.Lines.{state, line_of, Takes};
ghost use Rattle.df_rules.specs.Answers.{Gives, Adds};
ghost use Rattle.df_rules.specs.Propagation.{propagation_line};
ghost use Rattle.df_rules.specs.CongruenceLine.{congruence_line};
ghost use Rattle.df_row.specs.Linear.{linear_line};
ghost use Rattle.df_form.specs.Log.{combination_of};
ghost use Rattle.df_form.specs.World.{world_of};
ghost use Rattle.df_axiom.specs.Line.{instance_line};

use crate::congruence::is_congruence;
use crate::propagation::is_propagation;
use crate::step::{goal_clause, hypothesis_clause, make, split_clause};
use df_axiom::clause;
use df_form::{Combination, Lit, Over, Pair, Sequent, Step, World};
use df_row::is_linear;
use df_rules::connective_clause_of;
use std::alloc::{AllocError, Global};

/// The row of the step's kind in the table of lines, from 1.
pub(crate) fn kind_of(step: &Step) -> u8
    ensures { result ≡ kind_row (step_of step.now) }
{
    match step {
        Step::Hypothesis(_) | Step::Goal => 1,
        Step::Connective { .. } => 2,
        Step::Schema { .. } => 5,
        Step::Propagation { .. } => 6,
        Step::Congruence { .. } => 7,
        Step::Linear { .. } => 8,
        Step::Split { .. } => 9,
        Step::Make(_) => 10,
    }
}

/// The clause of this number of a schema for the terms that its pattern matches.
fn schema_clause(
    alloc: Global,
    world: World,
    nodes: &mut Over,
    schema: u8,
    number: u32,
    terms: &[usize],
) -> Result<Option<Vec<Lit>>, AllocError>
    ensures adds { Adds nodes.old nodes.new result (instance_line (world_of world.entry) nodes.old schema number terms.now) }
    ensures longer { length nodes.old ≤ length nodes.new }
{
    clause(alloc, world, nodes, schema, number, terms)
}

fn propagation_clause(
    alloc: Global,
    nodes: &Over,
    clauses: &[Vec<Lit>],
    numbers: &[usize],
    conclusion: &[Lit],
) -> Result<Option<Vec<Lit>>, AllocError>
    ensures { Gives result (propagation_line nodes.now (map (λ clause. clause.items) clauses.now) numbers.now conclusion.now) }
{
    if is_propagation(alloc, nodes, clauses, numbers, conclusion)? {
        Ok(Some(Vec::from_slice(alloc, conclusion)?))
    } else {
        Ok(None)
    }
}

fn congruence_clause(
    alloc: Global,
    nodes: &Over,
    conclusion: &[Lit],
    pairs: &[Pair],
) -> Result<Option<Vec<Lit>>, AllocError>
    ensures { Gives result (congruence_line nodes.now conclusion.now pairs.now) }
{
    if is_congruence(alloc, nodes, conclusion, pairs)? {
        Ok(Some(Vec::from_slice(alloc, conclusion)?))
    } else {
        Ok(None)
    }
}

fn linear_clause(
    alloc: Global,
    nodes: &Over,
    conclusion: &[Lit],
    combinations: &[Combination],
) -> Result<Option<Vec<Lit>>, AllocError>
    ensures { Gives result (linear_line nodes.now conclusion.now (map combination_of combinations.now)) }
{
    if is_linear(alloc, nodes, conclusion, combinations)? {
        Ok(Some(Vec::from_slice(alloc, conclusion)?))
    } else {
        Ok(None)
    }
}

/// The clause of a line that adds one.
fn clause_of(
    alloc: Global,
    sequent: &Sequent,
    nodes: &mut Over,
    clauses: &[Vec<Lit>],
    step: &Step,
) -> Result<Option<Vec<Lit>>, AllocError>
    ensures adds { Adds nodes.old nodes.new result (line_of (sequent_of sequent.now) (state nodes.old clauses.now) (step_of step.now)) }
    ensures longer { length nodes.old ≤ length nodes.new }
{
    match step {
        Step::Hypothesis(number) => hypothesis_clause(alloc, sequent, *number),
        Step::Goal => goal_clause(alloc, sequent),
        Step::Connective { node, clause } => connective_clause_of(alloc, nodes, *node, *clause),
        Step::Schema {
            schema,
            clause,
            terms,
        } => schema_clause(alloc, sequent.world, nodes, *schema, *clause, terms),
        Step::Propagation {
            clauses: numbers,
            conclusion,
        } => propagation_clause(alloc, nodes, clauses, numbers, conclusion),
        Step::Congruence { conclusion, pairs } => congruence_clause(
            alloc, nodes, conclusion, pairs,
        ),
        Step::Linear {
            conclusion,
            combinations,
        } => linear_clause(alloc, nodes, conclusion, combinations),
        Step::Split { node, bound } => split_clause(alloc, nodes, *node, *bound),
        Step::Make(_) => Ok(None),
    }
}

/// Adds what the line adds. Whether it is one.
pub(crate) fn add_line(
    alloc: Global,
    sequent: &Sequent,
    nodes: &mut Over,
    clauses: &mut Vec<Vec<Lit>>,
    step: &Step,
) -> Result<bool, AllocError>
    ensures takes { Takes (state nodes.old clauses.old.items) (state nodes.new clauses.new.items) result (after (sequent_of sequent.now) (state nodes.old clauses.old.items) (step_of step.now)) }
    ensures longer { IfOk result (λ taken. OnTrue taken (length nodes.old + vec_len clauses.old < length nodes.new + vec_len clauses.new)) }
{
    match step {
        Step::Make(node) => make(sequent.world, nodes, node),
        Step::Hypothesis(_)
        | Step::Goal
        | Step::Connective { .. }
        | Step::Schema { .. }
        | Step::Propagation { .. }
        | Step::Congruence { .. }
        | Step::Linear { .. }
        | Step::Split { .. } => {
            // With this room the push cannot fail.
            clauses.reserve(1)?;
            let Some(clause) = clause_of(alloc, sequent, nodes, clauses, step)? else {
                return Ok(false);
            };
            clauses.push(clause)?;
            Ok(true)
        }
    }
}
