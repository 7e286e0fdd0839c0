//! Clauses of contracts and loops, and printed operands.

ghost use Rattle.std.specs.Prelude.{◌≡◌, map, option_map, Some, IfOk, OnOk};
ghost use Rattle.std.specs.List.{list_any};
ghost use Rattle.df_lang.specs.StmtView as view;
ghost use Rattle.df_ntree.specs.Expr.{expr_of};
ghost use Rattle.df_ntree.specs.File as tree;
ghost use Rattle.df_ntyping.specs.Node.{OfMethod, OfLoop};
ghost use Rattle.df_ntyping.specs.rules.Loops as loops;
ghost use Rattle.df_ntexpr.specs.Replies.{Replies};
ghost use Rattle.df_ntstmt.specs.Rules.{owner_of};
ghost use Rattle.df_ntstmt.specs.Said.{clauses_of, said_of};
ghost use Rattle.df_ntstmt.specs.mirror.Clauses as mirror;
ghost use Rattle.df_ntstmt.specs.mirror.Clauses.{no_clauses, both, over_kind, measures_in, clause_in, clauses_in, operand_in, operands_in};

use crate::broken::{Rule, unless};
use df_base::{Global, Stop};
use df_lang as lang;
use df_lang::{Measure, Operand};
use df_nenv::Environment;
use df_nrules::beginning_of;
use df_ntexpr::{Wanted, walked};
use df_ntree::{Clause, ConditionKind, Expr, PrintOperand};
use std::alloc::AllocError;

/// What a clause belongs to.
#[derive(Clone, Copy, PartialEq, Eq)]
pub(crate) enum Owner {
    Method,
    Loop,
}

/// What a clause says.
#[derive(Drop)]
pub(crate) enum Said {
    Condition(ConditionKind, lang::Clause),
    Measures(Vec<Measure>),
}

/// Clauses by their kinds. All that `decreases` gives is one measure.
#[derive(Drop)]
pub struct Clauses {
    pub preconditions: Vec<lang::Clause>,
    pub postconditions: Vec<lang::Clause>,
    pub invariants: Vec<lang::Clause>,
    pub decreases: Option<Vec<Measure>>,
}

/// Measures, and others behind them.
fn joined(measures: Option<Vec<Measure>>, others: Vec<Measure>) -> Result<Vec<Measure>, AllocError>
    ensures { IfOk result (λ v. Some (map view.measure_of v.items) ≡ mirror.both_measures (option_map (λ measures. map view.measure_of measures.items) measures) (Some (map view.measure_of others.items))) }
{
    let Some(mut all) = measures else {
        return Ok(others);
    };
    for measure in others {
        all.push(measure)?;
    }
    Ok(all)
}

impl Clauses {
    /// None.
    fn new(alloc: Global) -> Clauses
        ensures { clauses_of result ≡ no_clauses }
    {
        Clauses {
            preconditions: Vec::new(alloc),
            postconditions: Vec::new(alloc),
            invariants: Vec::new(alloc),
            decreases: None,
        }
    }

    /// One more condition.
    fn push_condition(
        &mut self,
        kind: ConditionKind,
        clause: lang::Clause,
    ) -> Result<(), AllocError>
        ensures { OnOk result (clauses_of self.new ≡ both (clauses_of self.old) (mirror.a_condition kind (view.clause_of clause))) }
    {
        match kind {
            ConditionKind::Requires => self.preconditions.push(clause)?,
            ConditionKind::Ensures => self.postconditions.push(clause)?,
            ConditionKind::Invariant => self.invariants.push(clause)?,
        }
        Ok(())
    }

    /// More measures.
    fn push_measures(&mut self, measures: Vec<Measure>) -> Result<(), AllocError>
        ensures { OnOk result (clauses_of self.new ≡ both (clauses_of self.old) (mirror.a_measure (map view.measure_of measures.items))) }
    {
        let before = self.decreases.take();
        self.decreases = Some(joined(before, measures)?);
        Ok(())
    }

    /// One more clause.
    fn push(&mut self, said: Said) -> Result<(), AllocError>
        ensures { OnOk result (clauses_of self.new ≡ both (clauses_of self.old) (said_of said)) }
    {
        match said {
            Said::Condition(kind, clause) => self.push_condition(kind, clause),
            Said::Measures(measures) => self.push_measures(measures),
        }
    }
}

/// Whether a clause may stand there.
fn belongs(owner: Owner, clause: &Clause) -> bool
    ensures { result ≡ loops.belongs (owner_of owner) (tree.clause_of clause.now) }
{
    match (owner, clause) {
        (
            Owner::Method,
            Clause::Condition {
                kind: ConditionKind::Requires | ConditionKind::Ensures,
                ..
            },
        ) => true,
        (
            Owner::Method,
            Clause::Condition {
                kind: ConditionKind::Invariant,
                ..
            },
        ) => false,
        (
            Owner::Loop,
            Clause::Condition {
                kind: ConditionKind::Requires | ConditionKind::Ensures,
                ..
            },
        ) => false,
        (
            Owner::Loop,
            Clause::Condition {
                kind: ConditionKind::Invariant,
                ..
            },
        ) => true,
        (Owner::Method, Clause::Decreases { .. }) => true,
        (Owner::Loop, Clause::Decreases { .. }) => true,
    }
}

/// The members of a measure.
fn measures(alloc: Global, env: &Environment<'_>, values: &[Expr]) -> Result<Vec<Measure>, Stop>
    ensures { Replies (λ v. map view.measure_of v.items) result (measures_in env.now (map expr_of values.now)) }
{
    let mut measures = Vec::new(alloc);
    for e in values {
        let typed = walked(alloc, env, Wanted::Nothing, e)?;
        measures.push(Measure {
            ty: typed.ty,
            value: typed.expr,
        })?;
    }
    Ok(measures)
}

/// A condition; it stands where its expression begins.
fn condition(
    alloc: Global,
    env: &Environment<'_>,
    kind: ConditionKind,
    e: &Expr,
) -> Result<Said, Stop>
    ensures { Replies said_of result (mirror.condition_in env.now kind (expr_of e.now)) }
{
    let typed = walked(alloc, env, Wanted::Truth, e)?;
    let clause = lang::Clause {
        pos: beginning_of(e),
        condition: typed.expr,
    };
    Ok(Said::Condition(kind, clause))
}

/// What a clause says, and then whether it may stand there.
fn clause(alloc: Global, env: &Environment<'_>, owner: Owner, clause: &Clause) -> Result<Said, Stop>
    ensures { Replies said_of result (clause_in env.now (owner_of owner) (tree.clause_of clause.now)) }
{
    match clause {
        Clause::Condition {
            kind,
            pos,
            condition: e,
        } => {
            let said = condition(alloc, env, *kind, e)?;
            match unless(belongs(owner, clause), Rule::Clauses, *pos) {
                Ok(()) => Ok(said),
                Err(stop) => {
                    drop(said);
                    Err(stop)
                }
            }
        }
        Clause::Decreases { pos, values } => {
            let measures = measures(alloc, env, values)?;
            unless(belongs(owner, clause), Rule::Clauses, *pos)?;
            Ok(Said::Measures(measures))
        }
    }
}

/// The clauses of a loop.
pub(crate) fn loop_clauses(
    alloc: Global,
    env: &Environment<'_>,
    all: &[Clause],
) -> Result<Clauses, Stop>
    ensures { Replies clauses_of result (clauses_in env.now env.now OfLoop (map tree.clause_of all.now)) }
{
    let mut clauses = Clauses::new(alloc);
    for each in all {
        let said = clause(alloc, env, Owner::Loop, each)?;
        clauses.push(said)?;
    }
    Ok(clauses)
}

/// A clause of a contract. Only what is owed behind the body sees the results.
fn contract_clause(
    alloc: Global,
    parameters: &Environment<'_>,
    both: &Environment<'_>,
    each: &Clause,
) -> Result<Said, Stop>
    ensures { Replies said_of result (clause_in (over_kind parameters.now both.now (tree.clause_of each.now)) OfMethod (tree.clause_of each.now)) }
{
    match each {
        Clause::Condition {
            kind: ConditionKind::Ensures,
            ..
        } => clause(alloc, both, Owner::Method, each),
        Clause::Condition {
            kind: ConditionKind::Requires | ConditionKind::Invariant,
            ..
        }
        | Clause::Decreases { .. } => clause(alloc, parameters, Owner::Method, each),
    }
}

/// The clauses of a contract.
pub fn contract(
    alloc: Global,
    parameters: &Environment<'_>,
    both: &Environment<'_>,
    all: &[Clause],
) -> Result<Clauses, Stop>
    ensures { Replies clauses_of result (clauses_in parameters.now both.now OfMethod (map tree.clause_of all.now)) }
{
    let mut clauses = Clauses::new(alloc);
    for each in all {
        let said = contract_clause(alloc, parameters, both, each)?;
        clauses.push(said)?;
    }
    Ok(clauses)
}

/// Whether one of the clauses is `decreases`.
pub(crate) fn has_decreases(all: &[Clause]) -> bool
    ensures { result ≡ list_any loops.is_decreases (map tree.clause_of all.now) }
{
    for each in all {
        match each {
            Clause::Decreases { .. } => return true,
            Clause::Condition { .. } => {}
        }
    }
    false
}

/// What is printed.
fn operand(alloc: Global, env: &Environment<'_>, operand: &PrintOperand) -> Result<Operand, Stop>
    ensures { Replies view.operand_of result (operand_in env.now (tree.operand_of operand.now)) }
{
    match operand {
        PrintOperand::Text(characters) => Ok(Operand::Text(Vec::from_slice(alloc, characters)?)),
        PrintOperand::Value(e) => {
            let typed = walked(alloc, env, Wanted::Nothing, e)?;
            Ok(Operand::Value {
                ty: typed.ty,
                value: typed.expr,
            })
        }
    }
}

/// All that is printed.
pub(crate) fn operands(
    alloc: Global,
    env: &Environment<'_>,
    all: &[PrintOperand],
) -> Result<Vec<Operand>, Stop>
    ensures { Replies (λ v. map view.operand_of v.items) result (operands_in env.now (map tree.operand_of all.now)) }
{
    let mut operands = Vec::new(alloc);
    for each in all {
        let typed = operand(alloc, env, each)?;
        operands.push(typed)?;
    }
    Ok(operands)
}
