//! The locals of methods.

ghost use Rattle.std.specs.Prelude.{◌≡◌, ◌++◌, length, map, OnOk, IfOk};
ghost use Rattle.df_groups.specs.Parts.{stmts_in, branches_in};
ghost use Rattle.df_lang.specs.DeclView.{method_of, param_of};
ghost use Rattle.df_lang.specs.Program.{types_of};
ghost use Rattle.df_lang.specs.StmtView.{stmt_of, variable_of};
ghost use Rattle.df_lang.specs.Typing.{locals_after, locals_after_all, locals_after_branches, variable_types};
ghost use Rattle.df_nlocals.specs.Views.{changed_in};
ghost use Rattle.df_npass.specs.Methods.{locals_of, locals_from};

use crate::changed::Changed;
use df_lang::{Branch, Method, Param, Stmt, Ty, Variable};
use std::alloc::{AllocError, Global};

/// Adds the types of variables.
fn after_variables(types: &mut Vec<Ty>, variables: &[Variable]) -> Result<(), AllocError>
    ensures { OnOk result (types.new.items ≡ types.old.items ++ variable_types (map variable_of variables.now)) }
{
    for variable in variables {
        types.push(variable.ty)?;
    }
    Ok(())
}

/// Adds the types of the locals that are declared in a statement.
#[cycle(locals)]
fn after_stmt(types: &mut Vec<Ty>, stmt: &Stmt) -> Result<(), AllocError>
    ensures { OnOk result (types.new.items ≡ locals_after types.old.items (stmt_of stmt.now)) }
{
    match stmt {
        Stmt::Block { body, .. } | Stmt::While { body, .. } => after_stmts(types, body)?,
        Stmt::Var { variables, .. } => after_variables(types, variables)?,
        Stmt::If {
            branches,
            otherwise,
        } => {
            after_branches(types, branches)?;
            after_stmts(types, otherwise)?;
        }
        Stmt::Assign { .. }
        | Stmt::Call(_)
        | Stmt::Break { .. }
        | Stmt::Return { .. }
        | Stmt::Assert { .. }
        | Stmt::Print { .. } => {}
    }
    Ok(())
}

/// Adds those in statements.
#[cycle(locals)]
fn after_stmts(types: &mut Vec<Ty>, stmts: &Vec<Stmt>) -> Result<(), AllocError>
    ensures { OnOk result (types.new.items ≡ locals_after_all types.old.items (stmts_in stmts.now.items)) }
{
    for stmt in stmts {
        after_stmt(types, stmt)?;
    }
    Ok(())
}

/// Adds those in branches.
#[cycle(locals)]
fn after_branches(types: &mut Vec<Ty>, branches: &Vec<Branch>) -> Result<(), AllocError>
    ensures { OnOk result (types.new.items ≡ locals_after_branches types.old.items (branches_in branches.now.items)) }
{
    for branch in branches {
        after_stmts(types, &branch.body)?;
    }
    Ok(())
}

/// Adds the types of parameters or results.
fn after_params(types: &mut Vec<Ty>, params: &[Param]) -> Result<(), AllocError>
    ensures { OnOk result (types.new.items ≡ types.old.items ++ types_of (map param_of params.now)) }
{
    for param in params {
        types.push(param.ty)?;
    }
    Ok(())
}

/// The types of all locals of a method, by their numbers.
pub fn locals(alloc: Global, method: &Method) -> Result<Vec<Ty>, AllocError>
    ensures { IfOk result (λ types. types.items ≡ locals_of (method_of method.now)) }
{
    let mut types = Vec::new(alloc);
    after_params(&mut types, &method.parameters)?;
    after_params(&mut types, &method.results)?;
    after_stmts(&mut types, &method.body)?;
    Ok(types)
}

/// Adds parameters or results, by their numbers.
fn add_params(exits: &mut Vec<Changed>, params: &[Param]) -> Result<(), AllocError>
    ensures { OnOk result (changed_in exits.new.items ≡ changed_in exits.old.items ++ locals_from (length exits.old.items) (map param_of params.now)) }
{
    for param in params {
        exits.push(Changed {
            local: exits.len(),
            ty: param.ty,
        })?;
    }
    Ok(())
}

/// The parameters and the results, by their numbers.
pub fn exits(alloc: Global, method: &Method) -> Result<Vec<Changed>, AllocError>
    ensures { IfOk result (λ exits. changed_in exits.items ≡ locals_from 0 (map param_of method.now.parameters.items ++ map param_of method.now.results.items)) }
{
    let mut exits = Vec::new(alloc);
    add_params(&mut exits, &method.parameters)?;
    add_params(&mut exits, &method.results)?;
    Ok(exits)
}
