//! Statements.

ghost use Rattle.std.specs.Prelude.{◌≡◌, ◌<◌, ◌≤◌, [], ◌∷◌, ◌++◌, length, map, OnOk};
ghost use Rattle.df_nplain.specs.ExprView.{expr_of};
ghost use Rattle.df_nplain.specs.StmtView as view;
ghost use Rattle.df_nplain.specs.View.{plain_of};
ghost use Rattle.df_nplain.specs.Plain.{results_at};
ghost use Rattle.df_nemit.specs.mirror.Drafts.{draft_of, choice_of};
ghost use Rattle.df_nemit.specs.mirror.Emitting as mirror;

use crate::draft::Draft;
use crate::expressions::expr;
use crate::instructions::{land, leave, put};
use crate::updates::{call, drops, optional, print, update};
use df_nmach::Instruction;
use df_nplain::{Branch, Expr, Plain, Stmt};
use std::alloc::AllocError;
use std::mem;

/// How many results the method of a number has.
fn results_at(plain: &Plain, number: usize) -> usize
    ensures { result ≡ results_at (plain_of plain.now) number }
{
    match plain.methods.get(number) {
        Some(method) => method.results.len(),
        None => 0,
    }
}

/// A guard, and a jump over what it guards, whose target comes later.
fn guard(code: &mut Vec<Instruction>, scratch: usize, guard: &Expr) -> Result<(), AllocError>
    ensures ok { OnOk result (code.new.items ≡ mirror.guarded scratch code.old.items (expr_of guard.now)) }
    ensures longer { OnOk result (length code.old.items < length code.new.items) }
    ensures long { length code.old.items ≤ length code.new.items }
{
    expr(code, scratch, guard)?;
    put(code, Instruction::Unless(0))
}

/// A statement of a method of the program.
#[cycle(stmt)]
fn stmt(plain: &Plain, scratch: usize, draft: &mut Draft, stmt: &Stmt) -> Result<(), AllocError>
    ensures ok { OnOk result (draft_of draft.new ≡ mirror.emit_stmt (plain_of plain.now) scratch (draft_of draft.old) (view.stmt_of stmt.now)) }
    ensures longer { length draft.old.code.items ≤ length draft.new.code.items }
{
    match stmt {
        Stmt::Block(body) => stmts(plain, scratch, draft, body),
        Stmt::Var { update, .. } => optional(&mut draft.code, scratch, update),
        Stmt::Assign(given) => update(&mut draft.code, scratch, given),
        Stmt::Call(given) => {
            call(&mut draft.code, scratch, given)?;
            drops(&mut draft.code, results_at(plain, given.callee))
        }
        Stmt::If {
            branches,
            otherwise,
        } => {
            let mut exits = Vec::new(*draft.code.allocator());
            choices(plain, scratch, draft, &mut exits, branches)?;
            stmts(plain, scratch, draft, otherwise)?;
            let end = draft.code.len();
            land(&mut draft.code, &exits, end);
            Ok(())
        }
        Stmt::While { guard: test, body } => {
            let start = draft.code.len();
            guard(&mut draft.code, scratch, test)?;
            turns(plain, scratch, draft, start, body)
        }
        Stmt::Break => leave(&mut draft.code, &mut draft.breaks),
        Stmt::Return(given) => {
            optional(&mut draft.code, scratch, given)?;
            leave(&mut draft.code, &mut draft.returns)
        }
        Stmt::Print(operands) => print(&mut draft.code, scratch, operands),
    }
}

/// Statements in order.
#[cycle(stmt)]
pub(crate) fn stmts(
    plain: &Plain,
    scratch: usize,
    draft: &mut Draft,
    all: &Vec<Stmt>,
) -> Result<(), AllocError>
    ensures ok { OnOk result (draft_of draft.new ≡ mirror.emit_stmts (plain_of plain.now) scratch (draft_of draft.old) (view.stmts_of (map view.stmt_of all.now.items))) }
    ensures longer { length draft.old.code.items ≤ length draft.new.code.items }
{
    for one in all {
        stmt(plain, scratch, draft, one)?;
    }
    Ok(())
}

/// Branches in order, each with a jump behind the choice.
#[cycle(stmt)]
fn choices(
    plain: &Plain,
    scratch: usize,
    draft: &mut Draft,
    exits: &mut Vec<usize>,
    branches: &Vec<Branch>,
) -> Result<(), AllocError>
    ensures ok { OnOk result (choice_of draft.new exits.new ≡ mirror.emit_branches (plain_of plain.now) scratch (choice_of draft.old exits.old) (view.branches_of (map view.branch_of branches.now.items))) }
    ensures longer { length draft.old.code.items ≤ length draft.new.code.items }
{
    for one in branches {
        branch(plain, scratch, draft, exits, one)?;
    }
    Ok(())
}

/// A guard, the statements that it guards, and a jump behind the choice.
#[cycle(stmt)]
fn branch(
    plain: &Plain,
    scratch: usize,
    draft: &mut Draft,
    exits: &mut Vec<usize>,
    branch: &Branch,
) -> Result<(), AllocError>
    ensures ok { OnOk result (choice_of draft.new exits.new ≡ mirror.emit_branch (plain_of plain.now) scratch (choice_of draft.old exits.old) (view.branch_of branch.now).guard (view.branch_of branch.now).body) }
    ensures longer { length draft.old.code.items ≤ length draft.new.code.items }
{
    guard(&mut draft.code, scratch, &branch.guard)?;
    let opened = draft.code.len();
    stmts(plain, scratch, draft, &branch.body)?;
    leave(&mut draft.code, exits)?;
    let after = draft.code.len();
    draft.code[opened - 1] = Instruction::Unless(after);
    Ok(())
}

/// The statements of a loop, whose guard begins at the first place and ends here, and a jump back.
#[cycle(stmt)]
fn turns(
    plain: &Plain,
    scratch: usize,
    draft: &mut Draft,
    start: usize,
    body: &Vec<Stmt>,
) -> Result<(), AllocError>
    requires { 0 < length draft.old.code.items }
    ensures ok { OnOk result (draft_of draft.new ≡ mirror.emit_turns (plain_of plain.now) scratch start (draft_of draft.old) (view.stmts_of (map view.stmt_of body.now.items))) }
    ensures longer { length draft.old.code.items ≤ length draft.new.code.items }
{
    let opened = draft.code.len();
    let none = Vec::new(*draft.code.allocator());
    let outer = mem::replace(&mut draft.breaks, none);
    stmts(plain, scratch, draft, body)?;
    let breaks = mem::replace(&mut draft.breaks, outer);
    let after = draft.code.len() + 1;
    land(&mut draft.code, &breaks, after);
    draft.code[opened - 1] = Instruction::Unless(after);
    put(&mut draft.code, Instruction::Jump(start))
}
