//! The calls of statements.

ghost use Rattle.std.specs.Prelude.{◌≡◌, [], ◌∷◌, ◌++◌, map, flat_map, Some, OnOk};
ghost use Rattle.std.specs.Option.{option_map};
ghost use Rattle.df_types.specs.StmtView.{demand_of, typed_of, target_of, source_of, update_of, range_of, aim_of, stmt_of};
ghost use Rattle.df_types.specs.ExprView.{expr_of};
ghost use Rattle.df_types.specs.Gathering.{of_demands, of_typed, of_optional, of_elements, of_target, of_source, of_update, of_range, of_given, gather_stmt, gather_stmts, gather_branches};
ghost use Rattle.df_types.specs.Gathering as gathering;
ghost use Rattle.df_types.specs.Expr.{exprs_of};
ghost use Rattle.df_types.specs.Calls.{called, called_by_source, called_by_update, called_by};
ghost use Rattle.df_groups2.specs.Parts.{calls_in, stmts_in, branches_in};

use crate::expressions::{of_expr, of_exprs, of_extent};
use df_base::Memory;
use df_types::{Aim, Branch, Demand, Expr, Range, Source, Stmt, Target, Typed, Update};

/// Adds what demands call.
pub(crate) fn of_demands(callees: &mut Vec<usize>, demands: &[Demand]) -> Result<(), Memory>
    ensures { OnOk result (callees.new.items ≡ callees.old.items ++ calls_in (gathering.of_demands (map demand_of demands.now))) }
{
    for demand in demands {
        of_expr(callees, &demand.condition)?;
    }
    Ok(())
}

/// Adds what the members of a measure, of a frame, or what is printed call.
pub(crate) fn of_typed(callees: &mut Vec<usize>, operands: &[Typed]) -> Result<(), Memory>
    ensures { OnOk result (callees.new.items ≡ callees.old.items ++ calls_in (gathering.of_typed (map typed_of operands.now))) }
{
    for operand in operands {
        of_expr(callees, &operand.value)?;
    }
    Ok(())
}

/// Adds what a measure calls, where there is one.
pub(crate) fn of_measure(
    callees: &mut Vec<usize>,
    measure: &Option<Vec<Typed>>,
) -> Result<(), Memory>
    ensures { OnOk result (callees.new.items ≡ callees.old.items ++ calls_in (gathering.of_optional (option_map (λ measures. map typed_of measures.items) measure.now))) }
{
    match measure {
        Some(operands) => of_typed(callees, operands),
        None => Ok(()),
    }
}

/// Adds what a place calls.
fn of_target(callees: &mut Vec<usize>, target: &Target) -> Result<(), Memory>
    ensures { OnOk result (callees.new.items ≡ callees.old.items ++ calls_in (gathering.of_target (target_of target.now))) }
{
    match target {
        Target::Nowhere { .. } | Target::Local { .. } => Ok(()),
        Target::Field { object, .. } => of_expr(callees, object),
        Target::Element { array, index, .. } => {
            of_expr(callees, array)?;
            of_expr(callees, index)
        }
    }
}

/// Adds what places call.
fn of_targets(callees: &mut Vec<usize>, targets: &[Target]) -> Result<(), Memory>
    ensures { OnOk result (callees.new.items ≡ callees.old.items ++ calls_in (flat_map gathering.of_target (map target_of targets.now))) }
{
    for target in targets {
        of_target(callees, target)?;
    }
    Ok(())
}

/// Adds the method or lemma that a right side calls.
fn of_call(callees: &mut Vec<usize>, source: &Source) -> Result<(), Memory>
    ensures { OnOk result (callees.new.items ≡ callees.old.items ++ called_by_source (source_of source.now)) }
{
    match source {
        Source::Value(_) | Source::Array { .. } => {}
        Source::Results { call, .. } => callees.push(call.callee)?,
    }
    Ok(())
}

/// Adds the methods and lemmas that right sides call.
fn of_calls(callees: &mut Vec<usize>, sources: &[Source]) -> Result<(), Memory>
    ensures { OnOk result (callees.new.items ≡ callees.old.items ++ flat_map called_by_source (map source_of sources.now)) }
{
    for source in sources {
        of_call(callees, source)?;
    }
    Ok(())
}

/// Adds what the elements of a new array call, where they are listed.
fn of_elements(callees: &mut Vec<usize>, elements: &Option<Vec<Expr>>) -> Result<(), Memory>
    ensures { OnOk result (callees.new.items ≡ callees.old.items ++ calls_in (gathering.of_elements (option_map (λ es. exprs_of (map expr_of es.items)) elements.now))) }
{
    match elements {
        Some(elements) => of_exprs(callees, elements),
        None => Ok(()),
    }
}

/// Adds what the expressions of a right side call.
fn of_source(callees: &mut Vec<usize>, source: &Source) -> Result<(), Memory>
    ensures { OnOk result (callees.new.items ≡ callees.old.items ++ calls_in (gathering.of_source (source_of source.now))) }
{
    match source {
        Source::Value(value) => of_expr(callees, &value.value),
        Source::Results { call, .. } => of_exprs(callees, &call.arguments),
        Source::Array { size, elements, .. } => {
            of_expr(callees, size)?;
            of_elements(callees, elements)
        }
    }
}

/// Adds what the expressions of right sides call.
fn of_sources(callees: &mut Vec<usize>, sources: &[Source]) -> Result<(), Memory>
    ensures { OnOk result (callees.new.items ≡ callees.old.items ++ calls_in (flat_map gathering.of_source (map source_of sources.now))) }
{
    for source in sources {
        of_source(callees, source)?;
    }
    Ok(())
}

/// Adds what an update calls: its right sides themselves, and then its expressions.
fn of_update(callees: &mut Vec<usize>, update: &Update) -> Result<(), Memory>
    ensures { OnOk result (callees.new.items ≡ callees.old.items ++ (called_by_update (Some (update_of update.now)) ++ calls_in (gathering.of_update (Some (update_of update.now))))) }
{
    of_calls(callees, &update.sources)?;
    of_targets(callees, &update.targets)?;
    of_sources(callees, &update.sources)
}

/// Adds what an update calls, where there is one.
fn of_optional(callees: &mut Vec<usize>, update: &Option<Update>) -> Result<(), Memory>
    ensures { OnOk result (callees.new.items ≡ callees.old.items ++ (called_by_update (option_map update_of update.now) ++ calls_in (gathering.of_update (option_map update_of update.now)))) }
{
    match update {
        Some(update) => of_update(callees, update),
        None => Ok(()),
    }
}

/// Adds what ranges call.
fn of_ranges(callees: &mut Vec<usize>, ranges: &[Range]) -> Result<(), Memory>
    ensures { OnOk result (callees.new.items ≡ callees.old.items ++ calls_in (flat_map gathering.of_range (map range_of ranges.now))) }
{
    for range in ranges {
        of_extent(callees, &range.extent)?;
    }
    Ok(())
}

/// Adds what a given condition calls.
fn of_given(callees: &mut Vec<usize>, given: &Option<Expr>) -> Result<(), Memory>
    ensures { OnOk result (callees.new.items ≡ callees.old.items ++ calls_in (gathering.of_given (option_map expr_of given.now))) }
{
    match given {
        Some(given) => of_expr(callees, given),
        None => Ok(()),
    }
}

/// Adds what the aim of a proof calls.
fn of_aim(callees: &mut Vec<usize>, aim: &Aim) -> Result<(), Memory>
    ensures { OnOk result (callees.new.items ≡ callees.old.items ++ calls_in (flat_map gathering.of_range (aim_of aim.now).ranges ++ (gathering.of_given (aim_of aim.now).given ++ gathering.of_demands (aim_of aim.now).claims))) }
{
    of_ranges(callees, &aim.ranges)?;
    of_given(callees, &aim.given)?;
    of_demands(callees, &aim.claims)
}

/// Adds what the places, the ranges and the condition of a choice call.
fn of_choice(
    callees: &mut Vec<usize>,
    targets: &[Target],
    ranges: &[Range],
    condition: &Expr,
) -> Result<(), Memory>
    ensures { OnOk result (callees.new.items ≡ callees.old.items ++ calls_in (flat_map gathering.of_target (map target_of targets.now) ++ (flat_map gathering.of_range (map range_of ranges.now) ++ expr_of condition.now ∷ []))) }
{
    of_targets(callees, targets)?;
    of_ranges(callees, ranges)?;
    of_expr(callees, condition)
}

/// Adds what the guard, the invariants and the measure of a loop call.
fn of_loop(
    callees: &mut Vec<usize>,
    guard: &Expr,
    invariants: &[Demand],
    decreases: &Option<Vec<Typed>>,
) -> Result<(), Memory>
    ensures { OnOk result (callees.new.items ≡ callees.old.items ++ calls_in (expr_of guard.now ∷ gathering.of_demands (map demand_of invariants.now) ++ gathering.of_optional (option_map (λ measures. map typed_of measures.items) decreases.now))) }
{
    of_expr(callees, guard)?;
    of_demands(callees, invariants)?;
    of_measure(callees, decreases)
}

/// Adds what a statement calls.
#[cycle(statements)]
fn of_stmt(callees: &mut Vec<usize>, stmt: &Stmt) -> Result<(), Memory>
    ensures { OnOk result (callees.new.items ≡ callees.old.items ++ gather_stmt called called_by (stmt_of stmt.now)) }
{
    match stmt {
        Stmt::Declare { .. } | Stmt::Break { .. } | Stmt::Publish { .. } => Ok(()),
        Stmt::Assign(update) => of_update(callees, update),
        Stmt::Choose {
            targets,
            ranges,
            condition,
            ..
        } => of_choice(callees, targets, ranges, condition),
        Stmt::Branch {
            branches,
            otherwise,
        } => {
            of_branches(callees, branches)?;
            of_stmts(callees, otherwise)
        }
        Stmt::While {
            guard,
            invariants,
            decreases,
            body,
            ..
        } => {
            of_loop(callees, guard, invariants, decreases)?;
            of_stmts(callees, body)
        }
        Stmt::Return { update, .. } => of_optional(callees, update),
        Stmt::Check(demand) => of_expr(callees, &demand.condition),
        Stmt::Prove { aim, body, .. } => {
            of_aim(callees, aim)?;
            of_stmts(callees, body)
        }
        Stmt::Print { operands, .. } => of_typed(callees, operands),
        Stmt::Ghost { body } => of_stmts(callees, body),
    }
}

/// Adds what statements call.
#[cycle(statements)]
pub(crate) fn of_stmts(callees: &mut Vec<usize>, stmts: &Vec<Stmt>) -> Result<(), Memory>
    ensures { OnOk result (callees.new.items ≡ callees.old.items ++ gather_stmts called called_by (stmts_in stmts.now.items)) }
{
    for stmt in stmts {
        of_stmt(callees, stmt)?;
    }
    Ok(())
}

/// Adds what the branches of an `if` call.
#[cycle(statements)]
fn of_branches(callees: &mut Vec<usize>, branches: &Vec<Branch>) -> Result<(), Memory>
    ensures { OnOk result (callees.new.items ≡ callees.old.items ++ gather_branches called called_by (branches_in branches.now.items)) }
{
    for branch in branches {
        of_expr(callees, &branch.guard)?;
        of_stmts(callees, &branch.body)?;
    }
    Ok(())
}
