//! Names in declarations.

ghost use Rattle.std.specs.Prelude.{◌≡◌, ◌++◌, map, option_map, false, Some, IfOk, OnOk};
ghost use Rattle.std.specs.List.{flat_map};
ghost use Rattle.df_ntree.specs.Expr.{expr_of};
ghost use Rattle.df_ntree.specs.File.{clause_of, newtype_of, method_of, declaration_of};
ghost use Rattle.df_ntyping.specs.FileNodes as nodes;
ghost use Rattle.df_ntyping.specs.Table.{results_in, results_of};
ghost use Rattle.df_nnames.specs.Scope.{no_locals, enter, declare};
ghost use Rattle.df_nnames.specs.Table.{no_table, signature_of};
ghost use Rattle.df_nnames.specs.Listing.{type_meant, types_meant, signature_meant, is_declared, with_declaration, with_declarations};
ghost use Rattle.df_nnames.specs.Faults as faults;
ghost use Rattle.df_nnames.specs.Faults.{expr_faults, new_faults, statements_faults, type_faults, parameter_faults, contract_faults, method_faults, witness_faults, newtype_faults, declaration_faults, declarations_faults};
ghost use Rattle.df_nnames.specs.Meanings.{meanings_of};
ghost use Rattle.df_nnames.specs.Telling.{Tells};

use crate::expressions::{expr, twice, ty};
use crate::globals::Globals;
use crate::scope::Scope;
use crate::statements::{block, clause, new};
use crate::tables::{Method, Signature, Table};
use df_base::{Global, Stop};
use df_lang::{DeclId, Ty};
use df_ntree::{
    Clause, ConditionKind, Declaration, Expr, Ident, MethodDeclaration, NewtypeDeclaration,
    Parameter,
};
use std::alloc::AllocError;

/// The type of a parameter or a result, which is declared.
fn parameter(globals: &Globals, scope: &mut Scope, parameter: &Parameter) -> Result<Ty, Stop>
    ensures faults { Tells result (new_faults scope.old parameter.now.name ++ type_faults (meanings_of globals.now) parameter.now.ty) }
    ensures scope { OnOk result (scope.new ≡ declare scope.old parameter.now.name.name) }
    ensures ty { IfOk result (λ ty. type_meant (meanings_of globals.now) parameter.now.ty ≡ Some ty) }
{
    new(scope, &parameter.name)?;
    let ty = ty(globals, &parameter.ty)?;
    scope.declare(parameter.name.name)?;
    Ok(ty)
}

/// The types of parameters or results, which are declared.
fn parameters(
    alloc: Global,
    globals: &Globals,
    scope: &mut Scope,
    all: &[Parameter],
) -> Result<Vec<Ty>, Stop>
    ensures faults { Tells result (parameter_faults (meanings_of globals.now) scope.old all.now) }
    ensures scope { OnOk result (scope.new ≡ faults.with_parameters scope.old all.now) }
    ensures types { IfOk result (λ types. map Some types.items ≡ types_meant (meanings_of globals.now) all.now) }
{
    let mut types = Vec::new(alloc);
    for each in all {
        let ty = parameter(globals, scope, each)?;
        types.push(ty)?;
    }
    Ok(types)
}

/// Declares parameters.
fn declare_all(scope: &mut Scope, all: &[Parameter]) -> Result<(), AllocError>
    ensures { OnOk result (scope.new ≡ faults.with_parameters scope.old all.now) }
{
    for parameter in all {
        scope.declare(parameter.name.name)?;
    }
    Ok(())
}

/// The types of results, which are declared. There are none where `returns` is not written.
fn results(
    alloc: Global,
    globals: &Globals,
    scope: &mut Scope,
    all: &Option<Vec<Parameter>>,
) -> Result<Vec<Ty>, Stop>
    ensures faults { Tells result (parameter_faults (meanings_of globals.now) scope.old (results_in (option_map (λ results. results.items) all.now))) }
    ensures scope { OnOk result (scope.new ≡ faults.with_parameters scope.old (results_in (option_map (λ results. results.items) all.now))) }
    ensures types { IfOk result (λ types. map Some types.items ≡ types_meant (meanings_of globals.now) (results_in (option_map (λ results. results.items) all.now))) }
{
    match all {
        None => Ok(Vec::new(alloc)),
        Some(all) => parameters(alloc, globals, scope, all),
    }
}

/// Looks up the names of a clause of a method. Only what is owed behind the body sees the results.
fn contract_clause(
    globals: &Globals,
    parameters: &Scope,
    both: &Scope,
    each: &Clause,
) -> Result<(), Stop>
    ensures { Tells result (contract_faults (meanings_of globals.now) parameters.now both.now (clause_of each.now)) }
{
    match each {
        Clause::Condition {
            kind: ConditionKind::Ensures,
            ..
        } => clause(globals, both, each),
        _ => clause(globals, parameters, each),
    }
}

/// Looks up the names of a contract.
fn contract(globals: &Globals, parameters: &Scope, both: &Scope, all: &[Clause]) -> Result<(), Stop>
    ensures { Tells result (flat_map (contract_faults (meanings_of globals.now) parameters.now both.now) (map clause_of all.now)) }
{
    for each in all {
        contract_clause(globals, parameters, both, each)?;
    }
    Ok(())
}

/// The types of a method's signature. Its parameters are declared in both scopes, its results in the
/// second alone.
fn signature(
    alloc: Global,
    globals: &Globals,
    before: &mut Scope,
    both: &mut Scope,
    method: &MethodDeclaration,
) -> Result<Signature, Stop>
    ensures faults { Tells result (parameter_faults (meanings_of globals.now) before.old method.now.parameters.items ++ parameter_faults (meanings_of globals.now) (faults.with_parameters both.old method.now.parameters.items) (results_of (method_of method.now))) }
    ensures before { OnOk result (before.new ≡ faults.with_parameters before.old method.now.parameters.items) }
    ensures both { OnOk result (both.new ≡ faults.with_parameters (faults.with_parameters both.old method.now.parameters.items) (results_of (method_of method.now))) }
    ensures signature { IfOk result (λ made. signature_of made ≡ signature_meant (meanings_of globals.now) (method_of method.now)) }
{
    let parameters = parameters(alloc, globals, before, &method.parameters)?;
    declare_all(both, &method.parameters)?;
    let results = results(alloc, globals, both, &method.results)?;
    Ok(Signature {
        parameters,
        results,
    })
}

/// Looks up the names of a method's contract and of its body.
fn behaviour(
    globals: &Globals,
    parameters: &Scope,
    both: &mut Scope,
    method: &MethodDeclaration,
) -> Result<(), Stop>
    ensures { Tells result (flat_map (contract_faults (meanings_of globals.now) parameters.now both.old) (method_of method.now).clauses ++ statements_faults (meanings_of globals.now) (enter both.old) (method_of method.now).body.statements) }
{
    contract(globals, parameters, both, &method.clauses)?;
    block(globals, both, &method.body)
}

/// Looks up the names of a method, the declaration of this number, in its two scopes, which are empty before.
fn method_within(
    alloc: Global,
    globals: &Globals,
    before: &mut Scope,
    both: &mut Scope,
    id: DeclId,
    method: &MethodDeclaration,
) -> Result<Method, Stop>
    requires before { before.old ≡ no_locals }
    requires both { both.old ≡ no_locals }
    ensures faults { Tells result (method_faults (meanings_of globals.now) (method_of method.now)) }
    ensures id { IfOk result (λ made. made.id ≡ id) }
    ensures signature { IfOk result (λ made. signature_of made.signature ≡ signature_meant (meanings_of globals.now) (method_of method.now)) }
{
    let signature = signature(alloc, globals, before, both, method)?;
    behaviour(globals, before, both, method)?;
    Ok(Method { id, signature })
}

/// Looks up the names of a method, the declaration of this number.
fn method(
    alloc: Global,
    globals: &Globals,
    id: DeclId,
    method: &MethodDeclaration,
) -> Result<Method, Stop>
    ensures faults { Tells result (method_faults (meanings_of globals.now) (method_of method.now)) }
    ensures id { IfOk result (λ made. made.id ≡ id) }
    ensures signature { IfOk result (λ made. signature_of made.signature ≡ signature_meant (meanings_of globals.now) (method_of method.now)) }
{
    let mut before = Scope::new(alloc);
    let mut both = Scope::new(alloc);
    method_within(alloc, globals, &mut before, &mut both, id, method)
}

/// Looks up the names of a newtype's predicate, which sees the variable.
fn predicate(globals: &Globals, scope: &mut Scope, newtype: &NewtypeDeclaration) -> Result<(), Stop>
    ensures { Tells result (expr_faults (meanings_of globals.now) (declare scope.old newtype.now.variable.name) (newtype_of newtype.now).predicate) }
{
    scope.declare(newtype.variable.name)?;
    expr(globals, scope, &newtype.predicate)
}

/// Looks up the names of a newtype's witness, which sees no local.
fn witness(alloc: Global, globals: &Globals, witness: &Option<Expr>) -> Result<(), Stop>
    ensures { Tells result (witness_faults (meanings_of globals.now) (option_map expr_of witness.now)) }
{
    match witness {
        None => Ok(()),
        Some(witness) => expr(globals, &Scope::new(alloc), witness),
    }
}

/// Looks up the names of a newtype.
fn newtype(alloc: Global, globals: &Globals, newtype: &NewtypeDeclaration) -> Result<(), Stop>
    ensures { Tells result (newtype_faults (meanings_of globals.now) (newtype_of newtype.now)) }
{
    predicate(globals, &mut Scope::new(alloc), newtype)?;
    witness(alloc, globals, &newtype.witness)
}

/// The name that a declaration declares.
fn declared_name(declaration: &Declaration) -> Ident
    ensures { result ≡ nodes.declared_name (declaration_of declaration.now) }
{
    match declaration {
        Declaration::Newtype(newtype) => newtype.name,
        Declaration::Method(method) => method.name,
    }
}

/// Looks up the names of a declaration of a new name, and puts it into the table.
fn declaration(
    alloc: Global,
    globals: &Globals,
    table: &mut Table,
    id: DeclId,
    declaration: &Declaration,
) -> Result<(), Stop>
    requires { is_declared table.old (nodes.declared_name (declaration_of declaration.now)).name ≡ false }
    ensures faults { Tells result (declaration_faults (meanings_of globals.now) (declaration_of declaration.now)) }
    ensures table { OnOk result (table.new ≡ with_declaration (meanings_of globals.now) table.old id (declaration_of declaration.now)) }
{
    match declaration {
        Declaration::Newtype(inner) => {
            newtype(alloc, globals, inner)?;
            table.add_newtype(inner.name.name, id)?;
        }
        Declaration::Method(inner) => {
            let made = method(alloc, globals, id, inner)?;
            table.add_method(inner.name.name, made)?;
        }
    }
    Ok(())
}

/// The table of declarations in which each name has one meaning.
pub(crate) fn declarations(
    alloc: Global,
    globals: &Globals,
    all: &[Declaration],
) -> Result<Table, Stop>
    ensures faults { Tells result (declarations_faults (meanings_of globals.now) no_table 0 (map declaration_of all.now)) }
    ensures table { IfOk result (λ table. table ≡ with_declarations (meanings_of globals.now) no_table 0 (map declaration_of all.now)) }
{
    let mut table = Table::new(alloc);
    for (id, each) in all.iter().enumerate() {
        let ident = declared_name(each);
        if table.is_declared(ident.name) {
            return Err(twice(&ident));
        }
        declaration(alloc, globals, &mut table, id, each)?;
    }
    Ok(table)
}
