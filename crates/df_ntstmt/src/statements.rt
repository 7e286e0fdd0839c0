//! Statements.

ghost use Rattle.std.specs.Prelude.{◌≡◌, map, IfOk, OnOk};
ghost use Rattle.df_lang.specs.Stmt as pure;
ghost use Rattle.df_lang.specs.StmtView as view;
ghost use Rattle.df_ntree.specs.Expr.{expr_of};
ghost use Rattle.df_ntree.specs.File as source;
ghost use Rattle.df_ntyping.specs.Environment as environment;
ghost use Rattle.df_ntyping.specs.Environment.{past, behind, locals_in_all, locals_in_branches};
ghost use Rattle.df_ntyping.specs.Places.{beginning_of_first};
ghost use Rattle.df_ntyping.specs.mirror.Parts.{or_start};
ghost use Rattle.df_ntexpr.specs.Replies.{Replies};
ghost use Rattle.df_ntstmt.specs.Headings.{heading_of};
ghost use Rattle.df_ntstmt.specs.Views.{branch_of};
ghost use Rattle.df_ntstmt.specs.mirror.Statements as mirror;
ghost use Rattle.df_ninfer.specs.Behind.{behind_all};
ghost use Rattle.df_ntstmt.specs.mirror.Statements.{whole_in, statement_in, statements_in, branch_in, branches_in};

use crate::broken::{Rule, broken, unless};
use crate::calls::call;
use crate::clauses::{Clauses, has_decreases, loop_clauses, operands};
use crate::places::{assigned, declared, returned, variables};
use crate::sources::{may_update, update};
use df_base::{Global, Pos, Stop};
use df_lang::{Branch, Stmt};
use df_nenv::{Environment, Role};
use df_ninfer::has_measure;
use df_nrules::beginning_of;
use df_ntexpr::{Typed, Wanted, walked};
use df_ntree as tree;
use df_ntree::{Block, Clause, Expr, Local, PrintOperand, Statement};
use std::alloc::AllocError;

/// Locals are declared.
fn declare_all(env: &mut Environment<'_>, locals: &[Local]) -> Result<(), AllocError>
    ensures { OnOk result (env.new ≡ environment.declare_variables env.old locals.now) }
{
    for local in locals {
        env.declare(Role::Variable, local.name.name)?;
    }
    Ok(())
}

/// `var locals := values`: the values do not see the locals.
fn var(
    alloc: Global,
    env: &Environment<'_>,
    pos: Pos,
    locals: &[Local],
    values: &[Expr],
) -> Result<Stmt, Stop>
    ensures { Replies view.stmt_of result (statement_in env.now (source.Var pos locals.now (map expr_of values.now))) }
{
    let places = declared(alloc, env, values, locals)?;
    let update = may_update(alloc, env, Rule::Assigned, pos, &places, values)?;
    let variables = variables(alloc, &places)?;
    Ok(Stmt::Var {
        pos,
        variables,
        update,
    })
}

/// The same, and the locals are in scope behind it.
fn declaring(
    alloc: Global,
    env: &mut Environment<'_>,
    pos: Pos,
    locals: &[Local],
    values: &[Expr],
) -> Result<Stmt, Stop>
    ensures stmt { Replies view.stmt_of result (statement_in env.old (source.Var pos locals.now (map expr_of values.now))) }
    ensures env { OnOk result (env.new ≡ environment.declare_variables env.old locals.now) }
{
    let stmt = var(alloc, env, pos, locals, values)?;
    match declare_all(env, locals) {
        Ok(()) => Ok(stmt),
        Err(_) => {
            drop(stmt);
            Err(Stop::Memory)
        }
    }
}

/// Where the first of expressions begins.
fn begin(targets: &[Expr]) -> Pos
    ensures { result ≡ or_start (beginning_of_first (map expr_of targets.now)) }
{
    match targets {
        [first, ..] => beginning_of(first),
        [] => Pos { line: 0, col: 0 },
    }
}

/// `targets := values`
fn assign(
    alloc: Global,
    env: &Environment<'_>,
    targets: &[Expr],
    values: &[Expr],
) -> Result<Stmt, Stop>
    ensures { Replies view.stmt_of result (statement_in env.now (source.Assign (map expr_of targets.now) (map expr_of values.now))) }
{
    let pos = begin(targets);
    let places = assigned(alloc, env, targets)?;
    let update = update(alloc, env, Rule::Assigned, pos, &places, values)?;
    Ok(Stmt::Assign { pos, update })
}

/// A statement that is no call: what it breaks itself, else that.
fn no_call(alloc: Global, env: &Environment<'_>, e: &Expr) -> Result<Stmt, Stop>
    ensures { Replies view.stmt_of result (mirror.no_call_in env.now (expr_of e.now)) }
{
    drop(walked(alloc, env, Wanted::Nothing, e)?);
    Err(broken(Rule::Calls, beginning_of(e)))
}

/// A statement that is one expression: a call for what it does.
fn whole(alloc: Global, env: &Environment<'_>, e: &Expr) -> Result<Stmt, Stop>
    ensures { Replies view.stmt_of result (whole_in env.now (expr_of e.now)) }
{
    match e {
        Expr::Call { callee, arguments } => {
            let call = call(alloc, env, true, callee, arguments)?;
            Ok(Stmt::Call(call))
        }
        Expr::Number(_)
        | Expr::Character { .. }
        | Expr::Truth { .. }
        | Expr::Name(_)
        | Expr::Parentheses { .. }
        | Expr::Unary { .. }
        | Expr::Cast { .. }
        | Expr::Operations { .. }
        | Expr::Leading { .. } => no_call(alloc, env, e),
    }
}

/// `return values`
fn give_back(alloc: Global, env: &Environment<'_>, pos: Pos, values: &[Expr]) -> Result<Stmt, Stop>
    ensures { Replies view.stmt_of result (statement_in env.now (source.Return pos (map expr_of values.now))) }
{
    if values.is_empty() {
        return Ok(Stmt::Return { pos, update: None });
    }
    let places = returned(alloc, env, pos)?;
    let update = may_update(alloc, env, Rule::Returned, pos, &places, values)?;
    Ok(Stmt::Return { pos, update })
}

/// The `if` of these branches.
fn joined(
    first: Branch,
    mut branches: Vec<Branch>,
    otherwise: Vec<Stmt>,
) -> Result<Stmt, AllocError>
    ensures { IfOk result (λ s. view.stmt_of s ≡ pure.If (pure.branch (branch_of first).pos (branch_of first).guard (branch_of first).body (view.branches_of (map branch_of branches.items))) (view.stmts_of (map view.stmt_of otherwise.items))) }
{
    branches.insert(0, first)?;
    Ok(Stmt::If {
        branches,
        otherwise,
    })
}

/// `break`
fn broken_off(env: &Environment<'_>, pos: Pos) -> Result<Stmt, Stop>
    ensures { Replies view.stmt_of result (statement_in env.now (source.Break pos)) }
{
    unless(env.in_loop(), Rule::Broken, pos)?;
    Ok(Stmt::Break { pos })
}

/// `assert condition`
fn asserted(alloc: Global, env: &Environment<'_>, pos: Pos, e: &Expr) -> Result<Stmt, Stop>
    ensures { Replies view.stmt_of result (statement_in env.now (source.Assert pos (expr_of e.now))) }
{
    let typed = walked(alloc, env, Wanted::Truth, e)?;
    Ok(Stmt::Assert {
        pos,
        condition: typed.expr,
    })
}

/// `print operands`
fn printed(
    alloc: Global,
    env: &Environment<'_>,
    pos: Pos,
    all: &[PrintOperand],
) -> Result<Stmt, Stop>
    ensures { Replies view.stmt_of result (statement_in env.now (source.Print pos (map source.operand_of all.now))) }
{
    let operands = operands(alloc, env, all)?;
    Ok(Stmt::Print { pos, operands })
}

/// Whether a loop of these parts has a measure.
fn is_measured(env: &Environment<'_>, guard: &Expr, clauses: &[Clause]) -> bool
    ensures { result ≡ mirror.is_measured env.now (expr_of guard.now) (map source.clause_of clauses.now) }
{
    has_decreases(clauses) || has_measure(env, guard)
}

/// What stands before the body of a loop: its guard and its clauses, and whether it has a measure.
#[derive(Drop)]
struct Heading {
    guard: Typed,
    clauses: Clauses,
    is_measured: bool,
}

/// The guard of a loop and its clauses.
fn loop_heading(
    alloc: Global,
    env: &Environment<'_>,
    guard: &Expr,
    clauses: &[Clause],
) -> Result<Heading, Stop>
    ensures parts { Replies heading_of result (mirror.heading_in env.now (expr_of guard.now) (map source.clause_of clauses.now)) }
    ensures measured { IfOk result (λ heading. heading.is_measured ≡ mirror.is_measured env.now (expr_of guard.now) (map source.clause_of clauses.now)) }
{
    let condition = walked(alloc, env, Wanted::Truth, guard)?;
    match loop_clauses(alloc, env, clauses) {
        Ok(all) => Ok(Heading {
            guard: condition,
            clauses: all,
            is_measured: is_measured(env, guard, clauses),
        }),
        Err(stop) => {
            drop(condition);
            Err(stop)
        }
    }
}

/// The loop of these parts, if it has a measure.
fn looped(heading: Heading, pos: Pos, body: Vec<Stmt>) -> Result<Stmt, Stop>
    ensures { Replies view.stmt_of result (mirror.looped_in heading.is_measured (heading_of heading) pos (view.stmts_of (map view.stmt_of body.items))) }
{
    match unless(heading.is_measured, Rule::Clauses, pos) {
        Ok(()) => Ok(Stmt::While {
            pos,
            guard: heading.guard.expr,
            invariants: heading.clauses.invariants,
            decreases: heading.clauses.decreases,
            body,
        }),
        Err(stop) => {
            drop(heading.guard);
            Err(stop)
        }
    }
}

/// A statement. What it declares is in scope behind it.
#[cycle(statement)]
fn statement(alloc: Global, env: &mut Environment<'_>, statement: &Statement) -> Result<Stmt, Stop>
    ensures stmt { Replies view.stmt_of result (statement_in env.old (source.statement_of statement.now)) }
    ensures env { OnOk result (env.new ≡ behind env.old (source.statement_of statement.now)) }
{
    match statement {
        Statement::Block(inner) => {
            let body = typed_block(alloc, env, inner)?;
            Ok(Stmt::Block {
                pos: inner.pos,
                body,
            })
        }
        Statement::Var {
            pos,
            locals,
            values,
        } => declaring(alloc, env, *pos, locals, values),
        Statement::Assign { targets, values } => assign(alloc, env, targets, values),
        Statement::Expression(e) => whole(alloc, env, e),
        Statement::If {
            first,
            others,
            otherwise,
        } => {
            let first = branch(alloc, env, first)?;
            let others = branches(alloc, env, others)?;
            match otherwise {
                None => Ok(joined(first, others, Vec::new(alloc))?),
                Some(last) => {
                    let last = typed_block(alloc, env, last)?;
                    Ok(joined(first, others, last)?)
                }
            }
        }
        Statement::While {
            pos,
            guard,
            clauses,
            body,
        } => {
            let heading = loop_heading(alloc, env, guard, clauses)?;
            let body = turn(alloc, env, body)?;
            looped(heading, *pos, body)
        }
        Statement::Return { pos, values } => give_back(alloc, env, *pos, values),
        Statement::Break { pos } => broken_off(env, *pos),
        Statement::Assert { pos, condition } => asserted(alloc, env, *pos, condition),
        Statement::Print { pos, operands } => printed(alloc, env, *pos, operands),
    }
}

/// A block, whose locals are in scope until its end.
#[cycle(statement)]
pub fn typed_block(
    alloc: Global,
    env: &mut Environment<'_>,
    block: &Block,
) -> Result<Vec<Stmt>, Stop>
    ensures stmts { Replies (λ v. view.stmts_of (map view.stmt_of v.items)) result (statements_in (environment.enter env.old) (source.block_of block.now).statements) }
    ensures env { OnOk result (env.new ≡ past env.old (locals_in_all (source.block_of block.now).statements)) }
{
    let mark = env.enter();
    let stmts = statements(alloc, env, &block.statements)?;
    env.leave(mark);
    Ok(stmts)
}

/// A block that a loop is around.
#[cycle(statement)]
fn turn(alloc: Global, env: &mut Environment<'_>, body: &Block) -> Result<Vec<Stmt>, Stop>
    ensures stmts { Replies (λ v. view.stmts_of (map view.stmt_of v.items)) result (statements_in (environment.inside_loop (environment.enter env.old)) (source.block_of body.now).statements) }
    ensures env { OnOk result (env.new ≡ past env.old (locals_in_all (source.block_of body.now).statements)) }
{
    let around = env.in_loop();
    env.set_loop(true);
    let stmts = typed_block(alloc, env, body)?;
    env.set_loop(around);
    Ok(stmts)
}

/// Statements one after another.
#[cycle(statement)]
fn statements(
    alloc: Global,
    env: &mut Environment<'_>,
    all: &Vec<Statement>,
) -> Result<Vec<Stmt>, Stop>
    ensures stmts { Replies (λ v. view.stmts_of (map view.stmt_of v.items)) result (statements_in env.old (source.statements_of (map source.statement_of all.now.items))) }
    ensures env { OnOk result (env.new ≡ behind_all env.old (source.statements_of (map source.statement_of all.now.items))) }
{
    let mut stmts = Vec::new(alloc);
    for each in all {
        let stmt = statement(alloc, env, each)?;
        stmts.push(stmt)?;
    }
    Ok(stmts)
}

/// A guard and its block.
#[cycle(statement)]
fn branch(alloc: Global, env: &mut Environment<'_>, branch: &tree::Branch) -> Result<Branch, Stop>
    ensures branch { Replies branch_of result (branch_in env.old (source.branch_of branch.now)) }
    ensures env { OnOk result (env.new ≡ past env.old (locals_in_all (source.branch_of branch.now).body.statements)) }
{
    let condition = walked(alloc, env, Wanted::Truth, &branch.guard)?;
    match typed_block(alloc, env, &branch.body) {
        Ok(body) => Ok(Branch {
            pos: branch.pos,
            guard: condition.expr,
            body,
        }),
        Err(stop) => {
            drop(condition);
            Err(stop)
        }
    }
}

/// A run of `else if`.
#[cycle(statement)]
fn branches(
    alloc: Global,
    env: &mut Environment<'_>,
    all: &Vec<tree::Branch>,
) -> Result<Vec<Branch>, Stop>
    ensures branches { Replies (λ v. view.branches_of (map branch_of v.items)) result (branches_in env.old (source.branches_of (map source.branch_of all.now.items))) }
    ensures env { OnOk result (env.new ≡ past env.old (locals_in_branches (source.branches_of (map source.branch_of all.now.items)))) }
{
    let mut branches = Vec::new(alloc);
    for each in all {
        let one = branch(alloc, env, each)?;
        branches.push(one)?;
    }
    Ok(branches)
}
