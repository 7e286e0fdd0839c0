//! Methods.

ghost use Rattle.std.specs.Prelude.{◌≡◌, ◌++◌, ◌<◌, map, length, IfOk, OnOk};
ghost use Rattle.df_lang.specs.DeclView as view;
ghost use Rattle.df_lang.specs.StmtView.{stmt_of, stmts_of};
ghost use Rattle.df_ntree.specs.File as source;
ghost use Rattle.df_ntyping.specs.Environment.{with_types, enter, declare_parameters};
ghost use Rattle.df_ntyping.specs.FileNodes as over;
ghost use Rattle.df_ntyping.specs.Laws.{HaveTexts, IsDeclaredByText};
ghost use Rattle.df_ntyping.specs.LocalTypes.{fixed_by, inferred_behind_all};
ghost use Rattle.df_ntyping.specs.Table as tables;
ghost use Rattle.df_nenv.specs.Environments.{role_of};
ghost use Rattle.df_ntexpr.specs.Replies.{Replies};
ghost use Rattle.df_ntstmt.specs.Said.{clauses_of};
ghost use Rattle.df_ntdecl.specs.Results.{declare_results};
ghost use Rattle.df_ntstmt.specs.mirror.Statements.{statements_in};
ghost use Rattle.df_ntdecl.specs.mirror.Declarations as mirror;
ghost use Rattle.df_ntdecl.specs.mirror.Declarations.{param_in, params_in, method_with, method_in};

use crate::newtypes::declared;
use df_base::{Global, Memory, Names, Stop};
use df_lang::{Method, Param, Stmt};
use df_nenv::{Environment, Inferred, Role};
use df_ninfer::infer_block;
use df_nnames::Table;
use df_ntree::{Block, MethodDeclaration, Parameter};
use df_ntstmt::{Clauses, contract, or_int, typed_block};
use std::alloc::AllocError;

/// The results of a method; there are none where `returns` is not written.
fn results_of(tree: &MethodDeclaration) -> &[Parameter]
    ensures { result.now ≡ tables.results_of (source.method_of tree.now) }
{
    match &tree.results {
        None => &[],
        Some(results) => results,
    }
}

/// Parameters are declared, with their types.
fn declare_all(env: &mut Environment<'_>, all: &[Parameter]) -> Result<(), AllocError>
    ensures { OnOk result (env.new ≡ with_types (declare_parameters env.old (role_of Role.Parameter) all.now) (env.old.types ++ fixed_by env.old all.now)) }
{
    for parameter in all {
        env.push_type(Inferred::Fixed(env.type_of(parameter.ty)))?;
        env.declare(Role::Parameter, parameter.name.name)?;
    }
    Ok(())
}

/// Results are declared, with their types.
fn declare_results(env: &mut Environment<'_>, all: &[Parameter]) -> Result<(), AllocError>
    ensures { OnOk result (env.new ≡ with_types (declare_results env.old all.now) (env.old.types ++ fixed_by env.old all.now)) }
{
    for result in all {
        env.push_type(Inferred::Fixed(env.type_of(result.ty)))?;
        env.declare_result(result.name.name)?;
    }
    Ok(())
}

/// What callers see of a method: its parameters.
fn over_parameters<'t>(
    alloc: Global,
    table: &'t Table,
    tree: &MethodDeclaration,
) -> Result<Environment<'t>, AllocError>
    ensures { IfOk result (λ env. env ≡ over.over_parameters table.now (source.method_of tree.now)) }
{
    let mut env = Environment::new(alloc, table);
    declare_all(&mut env, &tree.parameters)?;
    Ok(env)
}

/// What a method sees: its results too.
fn over_both<'t>(
    alloc: Global,
    table: &'t Table,
    tree: &MethodDeclaration,
) -> Result<Environment<'t>, AllocError>
    ensures { IfOk result (λ env. env ≡ over.over_both table.now (source.method_of tree.now)) }
{
    let mut env = over_parameters(alloc, table, tree)?;
    declare_results(&mut env, results_of(tree))?;
    Ok(env)
}

/// The clauses of a method.
fn typed_contract(alloc: Global, table: &Table, tree: &MethodDeclaration) -> Result<Clauses, Stop>
    ensures { Replies clauses_of result (mirror.contract_in table.now (source.method_of tree.now)) }
{
    let parameters = over_parameters(alloc, table, tree)?;
    let both = over_both(alloc, table, tree)?;
    contract(alloc, &parameters, &both, &tree.clauses)
}

/// A body over these locals: what fixes the types of its own is found first.
fn body(alloc: Global, env: &mut Environment<'_>, block: &Block) -> Result<Vec<Stmt>, Stop>
    ensures { Replies (λ v. stmts_of (map stmt_of v.items)) result (mirror.body_in env.old (source.block_of block.now).statements) }
{
    let first = env.next_number();
    infer_block(alloc, env, block)?;
    // Its locals get their numbers once more.
    env.renumber(first);
    typed_block(alloc, env, block)
}

/// The body of a method.
fn typed_body(alloc: Global, table: &Table, tree: &MethodDeclaration) -> Result<Vec<Stmt>, Stop>
    ensures { Replies (λ v. stmts_of (map stmt_of v.items)) result (statements_in (over.over_body table.now (source.method_of tree.now)) (source.method_of tree.now).body.statements) }
{
    let mut env = over_both(alloc, table, tree)?;
    body(alloc, &mut env, &tree.body)
}

/// A parameter or a result of the program.
fn param(
    alloc: Global,
    names: &Names,
    table: &Table,
    parameter: &Parameter,
) -> Result<Param, Memory>
    requires { parameter.now.name.name < length names.now }
    ensures { IfOk result (λ p. view.param_of p ≡ param_in names.now table.now parameter.now) }
{
    Ok(Param {
        declared: declared(alloc, names, parameter.name)?,
        ty: or_int(table.ty(&parameter.ty)),
        is_ghost: false,
    })
}

/// Parameters or results of the program.
fn params(
    alloc: Global,
    names: &Names,
    table: &Table,
    all: &[Parameter],
) -> Result<Vec<Param>, Memory>
    requires { HaveTexts names.now all.now }
    ensures { IfOk result (λ v. map view.param_of v.items ≡ params_in names.now table.now all.now) }
{
    let mut params = Vec::new(alloc);
    for parameter in all {
        let one = param(alloc, names, table, parameter)?;
        params.push(one)?;
    }
    Ok(params)
}

/// The method of these parts.
fn with_parts(
    alloc: Global,
    names: &Names,
    table: &Table,
    tree: &MethodDeclaration,
    clauses: Clauses,
    body: Vec<Stmt>,
) -> Result<Method, Memory>
    requires { IsDeclaredByText names.now (source.Method (source.method_of tree.now)) }
    ensures { IfOk result (λ method. view.method_of method ≡ method_with names.now table.now (source.method_of tree.now) (clauses_of clauses) (stmts_of (map stmt_of body.items))) }
{
    Ok(Method {
        declared: declared(alloc, names, tree.name)?,
        parameters: params(alloc, names, table, &tree.parameters)?,
        results: params(alloc, names, table, results_of(tree))?,
        preconditions: clauses.preconditions,
        postconditions: clauses.postconditions,
        decreases: clauses.decreases,
        pos: tree.body.pos,
        body,
    })
}

/// The method of the program.
pub(crate) fn method(
    alloc: Global,
    names: &Names,
    table: &Table,
    tree: &MethodDeclaration,
) -> Result<Method, Stop>
    requires { IsDeclaredByText names.now (source.Method (source.method_of tree.now)) }
    ensures { Replies view.method_of result (method_in names.now table.now (source.method_of tree.now)) }
{
    let clauses = typed_contract(alloc, table, tree)?;
    let body = typed_body(alloc, table, tree)?;
    let method = with_parts(alloc, names, table, tree, clauses, body)?;
    Ok(method)
}
