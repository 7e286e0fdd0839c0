//! Which locals statements change that stand before them.

ghost use Rattle.std.specs.Prelude.{◌≡◌, ◌==◌, ◌++◌, ℕ, Some, map, OnOk, IfOk};
ghost use Rattle.std.specs.List.{list_any};
ghost use Rattle.std.specs.Option.{option_map};
ghost use Rattle.df_groups.specs.Parts.{stmts_in, branches_in};
ghost use Rattle.df_lang.specs.StmtView.{variable_of, update_of, stmt_of};
ghost use Rattle.df_meaning.specs.Modular.{changed_by as all_changed_by, changed_by_all, changed_by_branches, changed_by_update, changed_by_variables};
ghost use Rattle.df_lang.specs.Typing.{variable_numbers};
ghost use Rattle.df_nlocals.specs.Views.{changed_in};
ghost use Rattle.df_npass.specs.Statements as pure;

use df_lang::{Branch, Stmt, Ty, Update, Variable};
use indexmap::IndexSet;
use std::alloc::{AllocError, Global};

/// A local that statements change, and its type.
#[derive(Clone, Copy)]
pub struct Changed {
    pub local: usize,
    pub ty: Ty,
}

/// Adds the targets of an update.
fn by_update(changed: &mut Vec<Changed>, update: &Update) -> Result<(), AllocError>
    ensures { OnOk result (changed_in changed.new.items ≡ changed_in changed.old.items ++ changed_by_update (Some (update_of update.now))) }
{
    for target in &update.targets {
        changed.push(Changed {
            local: target.local,
            ty: target.ty,
        })?;
    }
    Ok(())
}

/// Adds the targets of an update, where there is one.
fn by_optional(changed: &mut Vec<Changed>, update: &Option<Update>) -> Result<(), AllocError>
    ensures { OnOk result (changed_in changed.new.items ≡ changed_in changed.old.items ++ changed_by_update (option_map update_of update.now)) }
{
    match update {
        Some(update) => by_update(changed, update),
        None => Ok(()),
    }
}

/// Adds declared locals.
fn by_variables(changed: &mut Vec<Changed>, variables: &[Variable]) -> Result<(), AllocError>
    ensures { OnOk result (changed_in changed.new.items ≡ changed_in changed.old.items ++ changed_by_variables (map variable_of variables.now)) }
{
    for variable in variables {
        changed.push(Changed {
            local: variable.local,
            ty: variable.ty,
        })?;
    }
    Ok(())
}

/// Adds the locals that a statement declares or assigns.
#[cycle(changed)]
fn by_stmt(changed: &mut Vec<Changed>, stmt: &Stmt) -> Result<(), AllocError>
    ensures { OnOk result (changed_in changed.new.items ≡ changed_in changed.old.items ++ all_changed_by (stmt_of stmt.now)) }
{
    match stmt {
        Stmt::Block { body, .. } | Stmt::While { body, .. } => by_stmts(changed, body)?,
        Stmt::Var {
            variables,
            update,
            ..
        } => {
            by_variables(changed, variables)?;
            by_optional(changed, update)?;
        }
        Stmt::Assign { update, .. } => by_update(changed, update)?,
        Stmt::If {
            branches,
            otherwise,
        } => {
            by_branches(changed, branches)?;
            by_stmts(changed, otherwise)?;
        }
        Stmt::Call(_)
        | Stmt::Break { .. }
        | Stmt::Return { .. }
        | Stmt::Assert { .. }
        | Stmt::Print { .. } => {}
    }
    Ok(())
}

/// Adds those of statements.
#[cycle(changed)]
fn by_stmts(changed: &mut Vec<Changed>, stmts: &Vec<Stmt>) -> Result<(), AllocError>
    ensures { OnOk result (changed_in changed.new.items ≡ changed_in changed.old.items ++ changed_by_all (stmts_in stmts.now.items)) }
{
    for stmt in stmts {
        by_stmt(changed, stmt)?;
    }
    Ok(())
}

/// Adds those of branches.
#[cycle(changed)]
fn by_branches(changed: &mut Vec<Changed>, branches: &Vec<Branch>) -> Result<(), AllocError>
    ensures { OnOk result (changed_in changed.new.items ≡ changed_in changed.old.items ++ changed_by_branches (branches_in branches.now.items)) }
{
    for branch in branches {
        by_stmts(changed, &branch.body)?;
    }
    Ok(())
}

/// Adds the locals that are declared in a statement.
#[cycle(declared)]
fn in_stmt(declared: &mut Vec<usize>, stmt: &Stmt) -> Result<(), AllocError>
    ensures { OnOk result (declared.new.items ≡ declared.old.items ++ pure.declared_by (stmt_of stmt.now)) }
{
    match stmt {
        Stmt::Block { body, .. } | Stmt::While { body, .. } => in_stmts(declared, body)?,
        Stmt::Var { variables, .. } => in_variables(declared, variables)?,
        Stmt::If {
            branches,
            otherwise,
        } => {
            in_branches(declared, branches)?;
            in_stmts(declared, otherwise)?;
        }
        Stmt::Assign { .. }
        | Stmt::Call(_)
        | Stmt::Break { .. }
        | Stmt::Return { .. }
        | Stmt::Assert { .. }
        | Stmt::Print { .. } => {}
    }
    Ok(())
}

/// Adds the numbers of variables.
fn in_variables(declared: &mut Vec<usize>, variables: &[Variable]) -> Result<(), AllocError>
    ensures { OnOk result (declared.new.items ≡ declared.old.items ++ variable_numbers (map variable_of variables.now)) }
{
    for variable in variables {
        declared.push(variable.local)?;
    }
    Ok(())
}

/// Adds those in statements.
#[cycle(declared)]
fn in_stmts(declared: &mut Vec<usize>, stmts: &Vec<Stmt>) -> Result<(), AllocError>
    ensures { OnOk result (declared.new.items ≡ declared.old.items ++ pure.declared_by_all (stmts_in stmts.now.items)) }
{
    for stmt in stmts {
        in_stmt(declared, stmt)?;
    }
    Ok(())
}

/// Adds those in branches.
#[cycle(declared)]
fn in_branches(declared: &mut Vec<usize>, branches: &Vec<Branch>) -> Result<(), AllocError>
    ensures { OnOk result (declared.new.items ≡ declared.old.items ++ pure.declared_by_branches (branches_in branches.now.items)) }
{
    for branch in branches {
        in_stmts(declared, &branch.body)?;
    }
    Ok(())
}

/// The locals that are left out, as a set.
fn marked(alloc: Global, out: &[usize]) -> Result<IndexSet<usize>, AllocError>
    ensures { IfOk result (λ met. (q : ℕ) → list_any (λ n. q == n) met.keys ≡ list_any (λ n. n == q) out.now) }
{
    let mut met = IndexSet::new(alloc);
    for local in out {
        met.insert(*local)?;
    }
    Ok(met)
}

/// Adds the first of each local that was not met.
fn add_new(
    met: &mut IndexSet<usize>,
    all: &mut Vec<Changed>,
    changed: &[Changed],
) -> Result<(), AllocError>
    ensures { OnOk result (changed_in all.new.items ≡ changed_in all.old.items ++ pure.each_once met.old.keys (changed_in changed.now)) }
{
    for one in changed {
        if met.insert(one.local)? {
            all.push(*one)?;
        }
    }
    Ok(())
}

/// The first of each local, but for those that are left out.
fn each_once(alloc: Global, out: &[usize], changed: &[Changed]) -> Result<Vec<Changed>, AllocError>
    ensures { IfOk result (λ all. changed_in all.items ≡ pure.each_once out.now (changed_in changed.now)) }
{
    let mut met = marked(alloc, out)?;
    let mut all = Vec::new(alloc);
    add_new(&mut met, &mut all, changed)?;
    Ok(all)
}

/// The locals that statements change that stand before them.
pub fn outside(alloc: Global, body: &Vec<Stmt>) -> Result<Vec<Changed>, AllocError>
    ensures { IfOk result (λ all. changed_in all.items ≡ pure.changed_outside (stmts_in body.now.items)) }
{
    let mut changed = Vec::new(alloc);
    by_stmts(&mut changed, body)?;
    let mut declared = Vec::new(alloc);
    in_stmts(&mut declared, body)?;
    each_once(alloc, &declared, &changed)
}

/// Those of each branch.
fn outside_branches(alloc: Global, branches: &Vec<Branch>) -> Result<Vec<Changed>, AllocError>
    ensures { IfOk result (λ all. changed_in all.items ≡ pure.changed_in_branches (branches_in branches.now.items)) }
{
    let mut all = Vec::new(alloc);
    for branch in branches {
        let changed = outside(alloc, &branch.body)?;
        all.extend_from_slice(&changed)?;
    }
    Ok(all)
}

/// The locals that the branches of an `if` change that stand before it.
pub fn outside_if(
    alloc: Global,
    branches: &Vec<Branch>,
    otherwise: &Vec<Stmt>,
) -> Result<Vec<Changed>, AllocError>
    ensures { IfOk result (λ all. changed_in all.items ≡ pure.changed_outside_if (branches_in branches.now.items) (stmts_in otherwise.now.items)) }
{
    let mut all = outside_branches(alloc, branches)?;
    let changed = outside(alloc, otherwise)?;
    all.extend_from_slice(&changed)?;
    each_once(alloc, &[], &all)
}
