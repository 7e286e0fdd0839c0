//! The calls of statements.

ghost use Rattle.std.specs.Prelude.{◌≡◌, ◌++◌, map, flat_map, OnOk};
ghost use Rattle.std.specs.Option.{option_map};
ghost use Rattle.df_lang.specs.StmtView.{source_of, update_of, stmt_of};
ghost use Rattle.df_lang.specs.Groups as pure;
ghost use Rattle.df_groups.specs.Parts.{stmts_in, branches_in};

use df_base::Memory;
use df_lang::{Branch, Source, Stmt, Update};

/// Adds what a right side calls.
fn of_source(callees: &mut Vec<usize>, source: &Source) -> Result<(), Memory>
    ensures { OnOk result (callees.new.items ≡ callees.old.items ++ pure.callees_of_source (source_of source.now)) }
{
    match source {
        Source::Value { .. } => {}
        Source::Call { call, .. } => callees.push(call.callee)?,
    }
    Ok(())
}

/// Adds what right sides call.
fn of_sources(callees: &mut Vec<usize>, sources: &[Source]) -> Result<(), Memory>
    ensures { OnOk result (callees.new.items ≡ callees.old.items ++ flat_map pure.callees_of_source (map source_of sources.now)) }
{
    for source in sources {
        of_source(callees, source)?;
    }
    Ok(())
}

/// Adds what the right sides of an update call, where there is one.
fn of_update(callees: &mut Vec<usize>, update: &Option<Update>) -> Result<(), Memory>
    ensures { OnOk result (callees.new.items ≡ callees.old.items ++ pure.callees_of_update (option_map update_of update.now)) }
{
    match update {
        Some(update) => of_sources(callees, &update.sources),
        None => Ok(()),
    }
}

/// Adds what a statement calls.
#[cycle(callees)]
fn of_stmt(callees: &mut Vec<usize>, stmt: &Stmt) -> Result<(), Memory>
    ensures { OnOk result (callees.new.items ≡ callees.old.items ++ pure.callees (stmt_of stmt.now)) }
{
    match stmt {
        Stmt::Block { body, .. } | Stmt::While { body, .. } => of_stmts(callees, body),
        Stmt::Var { update, .. } | Stmt::Return { update, .. } => of_update(callees, update),
        Stmt::Assign { update, .. } => of_sources(callees, &update.sources),
        Stmt::Call(call) => {
            callees.push(call.callee)?;
            Ok(())
        }
        Stmt::If {
            branches,
            otherwise,
        } => {
            of_branches(callees, branches)?;
            of_stmts(callees, otherwise)
        }
        Stmt::Break { .. } | Stmt::Assert { .. } | Stmt::Print { .. } => Ok(()),
    }
}

/// Adds what statements call.
#[cycle(callees)]
pub(crate) fn of_stmts(callees: &mut Vec<usize>, stmts: &Vec<Stmt>) -> Result<(), Memory>
    ensures { OnOk result (callees.new.items ≡ callees.old.items ++ pure.callees_of_all (stmts_in stmts.now.items)) }
{
    for stmt in stmts {
        of_stmt(callees, stmt)?;
    }
    Ok(())
}

/// Adds what the branches of an `if` call.
#[cycle(callees)]
fn of_branches(callees: &mut Vec<usize>, branches: &Vec<Branch>) -> Result<(), Memory>
    ensures { OnOk result (callees.new.items ≡ callees.old.items ++ pure.callees_of_branches (branches_in branches.now.items)) }
{
    for branch in branches {
        of_stmts(callees, &branch.body)?;
    }
    Ok(())
}
