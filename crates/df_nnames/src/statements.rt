//! Names in statements.

ghost use Rattle.std.specs.Prelude.{◌≡◌, ◌++◌, map, OnOk};
ghost use Rattle.std.specs.List.{flat_map};
ghost use Rattle.df_ntree.specs.Expr.{expr_of};
ghost use Rattle.df_ntree.specs.File.{clause_of, operand_of, statement_of, statements_of, block_of, branch_of, branches_of};
ghost use Rattle.df_nnames.specs.Scope.{enter, declare};
ghost use Rattle.df_nnames.specs.Faults as faults;
ghost use Rattle.df_nnames.specs.Faults.{new_faults, written_faults, expr_faults, exprs_faults, clause_faults, operand_faults, local_faults, scope_after, statement_faults, statements_faults, branches_faults};
ghost use Rattle.df_nnames.specs.Meanings.{meanings_of};
ghost use Rattle.df_nnames.specs.Telling.{Tells};

use crate::expressions::{expr, exprs, twice, ty};
use crate::globals::Globals;
use crate::scope::Scope;
use df_base::Stop;
use df_ntree::{Block, Branch, Clause, Expr, Ident, Local, PrintOperand, Statement};

/// Tests that the name is new in its scope.
pub(crate) fn new(scope: &Scope, ident: &Ident) -> Result<(), Stop>
    ensures { Tells result (new_faults scope.now ident.now) }
{
    if scope.is_new(ident.name) {
        Ok(())
    } else {
        Err(twice(ident))
    }
}

/// Looks up the names of one thing that is printed.
fn operand(globals: &Globals, scope: &Scope, operand: &PrintOperand) -> Result<(), Stop>
    ensures { Tells result (operand_faults (meanings_of globals.now) scope.now (operand_of operand.now)) }
{
    match operand {
        PrintOperand::Text(_) => Ok(()),
        PrintOperand::Value(e) => expr(globals, scope, e),
    }
}

/// Looks up the names of what is printed.
fn operands(globals: &Globals, scope: &Scope, all: &[PrintOperand]) -> Result<(), Stop>
    ensures { Tells result (flat_map (operand_faults (meanings_of globals.now) scope.now) (map operand_of all.now)) }
{
    for each in all {
        operand(globals, scope, each)?;
    }
    Ok(())
}

/// Looks up the names of a clause.
pub(crate) fn clause(globals: &Globals, scope: &Scope, clause: &Clause) -> Result<(), Stop>
    ensures { Tells result (clause_faults (meanings_of globals.now) scope.now (clause_of clause.now)) }
{
    match clause {
        Clause::Condition { condition, .. } => expr(globals, scope, condition),
        Clause::Decreases { values, .. } => exprs(globals, scope, values),
    }
}

/// Looks up the names of the clauses of a loop.
fn clauses(globals: &Globals, scope: &Scope, all: &[Clause]) -> Result<(), Stop>
    ensures { Tells result (flat_map (clause_faults (meanings_of globals.now) scope.now) (map clause_of all.now)) }
{
    for each in all {
        clause(globals, scope, each)?;
    }
    Ok(())
}

/// Looks up the type of a declared local, and declares it.
fn local(globals: &Globals, scope: &mut Scope, local: &Local) -> Result<(), Stop>
    ensures faults { Tells result (new_faults scope.old local.now.name ++ written_faults (meanings_of globals.now) local.now.ty) }
    ensures scope { OnOk result (scope.new ≡ declare scope.old local.now.name.name) }
{
    new(scope, &local.name)?;
    if let Some(written) = &local.ty {
        ty(globals, written)?;
    }
    scope.declare(local.name.name)?;
    Ok(())
}

/// Looks up the types of declared locals, and declares them.
fn locals(globals: &Globals, scope: &mut Scope, all: &[Local]) -> Result<(), Stop>
    ensures faults { Tells result (local_faults (meanings_of globals.now) scope.old all.now) }
    ensures scope { OnOk result (scope.new ≡ faults.with_locals scope.old all.now) }
{
    for each in all {
        local(globals, scope, each)?;
    }
    Ok(())
}

/// Looks up the names of `var locals := values`. The values do not see the locals, but what is told
/// of those comes first.
fn var(
    globals: &Globals,
    scope: &mut Scope,
    declared: &[Local],
    values: &[Expr],
) -> Result<(), Stop>
    ensures faults { Tells result (local_faults (meanings_of globals.now) scope.old declared.now ++ exprs_faults (meanings_of globals.now) scope.old (map expr_of values.now)) }
    ensures scope { OnOk result (scope.new ≡ faults.with_locals scope.old declared.now) }
{
    let values = exprs(globals, scope, values);
    locals(globals, scope, declared)?;
    values
}

/// Looks up the names of both sides of an assignment.
fn assign(globals: &Globals, scope: &Scope, targets: &[Expr], values: &[Expr]) -> Result<(), Stop>
    ensures { Tells result (exprs_faults (meanings_of globals.now) scope.now (map expr_of targets.now) ++ exprs_faults (meanings_of globals.now) scope.now (map expr_of values.now)) }
{
    exprs(globals, scope, targets)?;
    exprs(globals, scope, values)
}

/// Looks up the names of a statement. What it declares is in scope after it.
#[cycle(statement)]
fn statement(globals: &Globals, scope: &mut Scope, statement: &Statement) -> Result<(), Stop>
    ensures faults { Tells result (statement_faults (meanings_of globals.now) scope.old (statement_of statement.now)) }
    ensures scope { OnOk result (scope.new ≡ scope_after scope.old (statement_of statement.now)) }
{
    match statement {
        Statement::Block(inner) => block(globals, scope, inner),
        Statement::Var { locals, values, .. } => var(globals, scope, locals, values),
        Statement::Assign { targets, values } => assign(globals, scope, targets, values),
        Statement::Expression(value) => expr(globals, scope, value),
        Statement::If {
            first,
            others,
            otherwise,
        } => {
            branch(globals, scope, first)?;
            branches(globals, scope, others)?;
            match otherwise {
                None => Ok(()),
                Some(last) => block(globals, scope, last),
            }
        }
        Statement::While {
            guard,
            clauses: all,
            body,
            ..
        } => {
            expr(globals, scope, guard)?;
            clauses(globals, scope, all)?;
            block(globals, scope, body)
        }
        Statement::Return { values, .. } => exprs(globals, scope, values),
        Statement::Break { .. } => Ok(()),
        Statement::Assert { condition, .. } => expr(globals, scope, condition),
        Statement::Print { operands: all, .. } => operands(globals, scope, all),
    }
}

/// Looks up the names of a block, whose locals are in scope until its end.
#[cycle(statement)]
pub(crate) fn block(globals: &Globals, scope: &mut Scope, block: &Block) -> Result<(), Stop>
    ensures faults { Tells result (statements_faults (meanings_of globals.now) (enter scope.old) (block_of block.now).statements) }
    ensures scope { OnOk result (scope.new ≡ scope.old) }
{
    let mark = scope.enter();
    statements(globals, scope, &block.statements)?;
    scope.leave(mark);
    Ok(())
}

/// Looks up the names of statements.
#[cycle(statement)]
fn statements(globals: &Globals, scope: &mut Scope, all: &Vec<Statement>) -> Result<(), Stop>
    ensures faults { Tells result (statements_faults (meanings_of globals.now) scope.old (statements_of (map statement_of all.now.items))) }
    ensures scope { OnOk result (scope.new.outer ≡ scope.old.outer) }
{
    for each in all {
        statement(globals, scope, each)?;
    }
    Ok(())
}

/// Looks up the names of a guard and its block.
#[cycle(statement)]
fn branch(globals: &Globals, scope: &mut Scope, branch: &Branch) -> Result<(), Stop>
    ensures faults { Tells result (expr_faults (meanings_of globals.now) scope.old (branch_of branch.now).guard ++ statements_faults (meanings_of globals.now) (enter scope.old) (branch_of branch.now).body.statements) }
    ensures scope { OnOk result (scope.new ≡ scope.old) }
{
    expr(globals, scope, &branch.guard)?;
    block(globals, scope, &branch.body)
}

/// Looks up the names of a run of `else if`.
#[cycle(statement)]
fn branches(globals: &Globals, scope: &mut Scope, all: &Vec<Branch>) -> Result<(), Stop>
    ensures faults { Tells result (branches_faults (meanings_of globals.now) scope.old (branches_of (map branch_of all.now.items))) }
    ensures scope { OnOk result (scope.new ≡ scope.old) }
{
    for each in all {
        branch(globals, scope, each)?;
    }
    Ok(())
}
