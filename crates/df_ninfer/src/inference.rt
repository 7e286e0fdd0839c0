//! What fixes the types of a method's locals: one way through its body, which tells nothing.

ghost use Rattle.std.specs.Prelude.{◌≡◌, ◌++◌, ◌∷◌, [], map, drop, Some, IfOk, OnOk};
ghost use Rattle.std.specs.List.{flat_map};
ghost use Rattle.df_ntree.specs.Expr.{expr_of, operation_of, members_of, arguments_of};
ghost use Rattle.df_ntree.specs.File as tree;
ghost use Rattle.df_ntyping.specs.Environment.{declare_variables, behind};
ghost use Rattle.df_ntyping.specs.LocalTypes as fixing;
ghost use Rattle.df_ntyping.specs.LocalTypes.{names_in, names_in_members, names_in_arguments, used_inside, used_in_clause, used_in_operand, inferred_all, over, inferred_behind, inferred_behind_all};
ghost use Rattle.df_nenv.specs.Environments as environments;
ghost use Rattle.df_ninfer.specs.Marks as marks;
ghost use Rattle.df_ninfer.specs.Marks.{marked, took, behind_block, behind_branches, behind_otherwise};
ghost use Rattle.df_ninfer.specs.Behind.{behind_all};

use df_base::Global;
use df_lang::Ty;
use df_nenv::{Environment, Inferred, Role, results_of, value_type};
use df_ntree::{Block, Branch, Clause, Expr, Local, Operation, PrintOperand, Statement};
use std::alloc::AllocError;

/// The names in an expression are used.
#[cycle(mark)]
fn mark(env: &mut Environment<'_>, e: &Expr)
    ensures { env.new ≡ marked env.old (names_in (expr_of e.now)) }
{
    match e {
        Expr::Number(_) | Expr::Character { .. } | Expr::Truth { .. } => {}
        Expr::Name(ident) => env.fix(ident.name, Inferred::Used),
        Expr::Parentheses { inner, .. } => mark(env, inner),
        Expr::Call { callee, arguments } => {
            mark(env, callee);
            mark_arguments(env, arguments);
        }
        Expr::Unary { operand, .. } => mark(env, operand),
        Expr::Cast { operand, .. } => mark(env, operand),
        Expr::Operations { first, rest } => {
            mark(env, first);
            mark_operations(env, rest);
        }
        Expr::Leading { operations } => mark_operations(env, operations),
    }
}

/// The names in operands are used.
#[cycle(mark)]
fn mark_operations(env: &mut Environment<'_>, all: &Vec<Operation>)
    ensures { env.new ≡ marked env.old (names_in_members (members_of (map operation_of all.now.items))) }
{
    for operation in all {
        mark(env, &operation.operand);
    }
}

/// The names in arguments are used.
#[cycle(mark)]
fn mark_arguments(env: &mut Environment<'_>, all: &Vec<Expr>)
    ensures { env.new ≡ marked env.old (names_in_arguments (arguments_of (map expr_of all.now.items))) }
{
    for e in all {
        mark(env, e);
    }
}

/// The names in expressions are used.
fn mark_all(env: &mut Environment<'_>, all: &[Expr])
    ensures { env.new ≡ marked env.old (flat_map names_in (map expr_of all.now)) }
{
    for e in all {
        mark(env, e);
    }
}

/// The names in a left side are used, unless it is one.
fn mark_target(env: &mut Environment<'_>, e: &Expr)
    ensures { env.new ≡ marked env.old (used_inside (expr_of e.now)) }
{
    match e {
        Expr::Name(_) => {}
        Expr::Number(_)
        | Expr::Character { .. }
        | Expr::Truth { .. }
        | Expr::Parentheses { .. }
        | Expr::Call { .. }
        | Expr::Unary { .. }
        | Expr::Cast { .. }
        | Expr::Operations { .. }
        | Expr::Leading { .. } => mark(env, e),
    }
}

/// The names in left sides are used.
fn mark_targets(env: &mut Environment<'_>, all: &[Expr])
    ensures { env.new ≡ marked env.old (flat_map used_inside (map expr_of all.now)) }
{
    for e in all {
        mark_target(env, e);
    }
}

/// The names in a clause are used.
fn mark_clause(env: &mut Environment<'_>, clause: &Clause)
    ensures { env.new ≡ marked env.old (used_in_clause (tree.clause_of clause.now)) }
{
    match clause {
        Clause::Condition { condition, .. } => mark(env, condition),
        Clause::Decreases { values, .. } => mark_all(env, values),
    }
}

/// The names in clauses are used.
fn mark_clauses(env: &mut Environment<'_>, all: &[Clause])
    ensures { env.new ≡ marked env.old (flat_map used_in_clause (map tree.clause_of all.now)) }
{
    for clause in all {
        mark_clause(env, clause);
    }
}

/// The names in what is printed are used.
fn mark_operand(env: &mut Environment<'_>, operand: &PrintOperand)
    ensures { env.new ≡ marked env.old (used_in_operand (tree.operand_of operand.now)) }
{
    match operand {
        PrintOperand::Text(_) => {}
        PrintOperand::Value(e) => mark(env, e),
    }
}

/// The names in all that is printed are used.
fn mark_operands(env: &mut Environment<'_>, all: &[PrintOperand])
    ensures { env.new ≡ marked env.old (flat_map used_in_operand (map tree.operand_of all.now)) }
{
    for operand in all {
        mark_operand(env, operand);
    }
}

/// Known types as values have them.
fn known(alloc: Global, all: &[Ty]) -> Result<Vec<Option<Ty>>, AllocError>
    ensures { IfOk result (λ v. v.items ≡ map Some all.now) }
{
    let mut types = Vec::new(alloc);
    for ty in all {
        types.push(Some(*ty))?;
    }
    Ok(types)
}

/// The type of the value of a right side that is no call.
fn single(alloc: Global, ty: Option<Ty>) -> Result<Vec<Option<Ty>>, AllocError>
    ensures { IfOk result (λ v. v.items ≡ ty ∷ []) }
{
    let mut types = Vec::new(alloc);
    types.push(ty)?;
    Ok(types)
}

/// The types of the values of a right side.
fn types_of_value(
    alloc: Global,
    env: &Environment<'_>,
    e: &Expr,
) -> Result<Vec<Option<Ty>>, AllocError>
    ensures { IfOk result (λ v. v.items ≡ fixing.types_of_value env.now (expr_of e.now)) }
{
    match e {
        Expr::Call { callee, .. } => known(alloc, results_of(env, callee)),
        Expr::Number(_)
        | Expr::Character { .. }
        | Expr::Truth { .. }
        | Expr::Name(_)
        | Expr::Parentheses { .. }
        | Expr::Unary { .. }
        | Expr::Cast { .. }
        | Expr::Operations { .. }
        | Expr::Leading { .. } => single(alloc, value_type(env, e)),
    }
}

/// The type of the first result.
fn first_of(results: &[Ty]) -> Option<Ty>
    ensures { result ≡ fixing.next_type (map Some results.now) }
{
    match results {
        [first, ..] => Some(*first),
        [] => None,
    }
}

/// The type of the first value of a right side.
fn first_type(env: &Environment<'_>, e: &Expr) -> Option<Ty>
    ensures { result ≡ fixing.next_type (fixing.types_of_value env.now (expr_of e.now)) }
{
    match e {
        Expr::Call { callee, .. } => first_of(results_of(env, callee)),
        Expr::Number(_)
        | Expr::Character { .. }
        | Expr::Truth { .. }
        | Expr::Name(_)
        | Expr::Parentheses { .. }
        | Expr::Unary { .. }
        | Expr::Cast { .. }
        | Expr::Operations { .. }
        | Expr::Leading { .. } => value_type(env, e),
    }
}

/// The types of the first values of right sides.
fn first_types(
    alloc: Global,
    env: &Environment<'_>,
    values: &[Expr],
) -> Result<Vec<Option<Ty>>, AllocError>
    ensures { IfOk result (λ v. v.items ≡ map (λ value. fixing.next_type (fixing.types_of_value env.now value)) (map expr_of values.now)) }
{
    let mut types = Vec::new(alloc);
    for e in values {
        types.push(first_type(env, e))?;
    }
    Ok(types)
}

/// The types of the values of right sides: one gives all, of several each gives one.
fn types_of_values(
    alloc: Global,
    env: &Environment<'_>,
    values: &[Expr],
) -> Result<Vec<Option<Ty>>, AllocError>
    ensures { IfOk result (λ v. v.items ≡ fixing.types_of_values env.now (map expr_of values.now)) }
{
    match values {
        [e] => types_of_value(alloc, env, e),
        [] | [_, _, ..] => first_types(alloc, env, values),
    }
}

/// The type of the value of this number, if there is one and its type is known.
fn type_at(types: &[Option<Ty>], i: usize) -> Option<Ty>
    ensures { result ≡ fixing.next_type (drop i types.now) }
{
    match types.get(i) {
        Some(ty) => *ty,
        None => None,
    }
}

/// A left side takes a value of the type.
fn take(env: &mut Environment<'_>, e: &Expr, ty: Option<Ty>)
    ensures { env.new ≡ over env.old (fixing.taken env.old (expr_of e.now) ty env.old.types) }
{
    match e {
        Expr::Name(ident) => env.fix(ident.name, Inferred::Fixed(ty)),
        Expr::Number(_)
        | Expr::Character { .. }
        | Expr::Truth { .. }
        | Expr::Parentheses { .. }
        | Expr::Call { .. }
        | Expr::Unary { .. }
        | Expr::Cast { .. }
        | Expr::Operations { .. }
        | Expr::Leading { .. } => {}
    }
}

/// Left sides take values of the types.
fn take_all(env: &mut Environment<'_>, targets: &[Expr], types: &[Option<Ty>])
    ensures { env.new ≡ took env.old (map expr_of targets.now) types.now }
{
    for (i, e) in targets.iter().enumerate() {
        take(env, e, type_at(types, i));
    }
}

/// What fixes the type of a declared local.
fn inferred(env: &Environment<'_>, local: &Local, has_values: bool, ty: Option<Ty>) -> Inferred
    ensures { environments.inferred_of result ≡ marks.inferred_by env.now local.now.ty has_values ty }
{
    match local.ty {
        Some(written) => Inferred::Fixed(env.type_of(written)),
        None if has_values => Inferred::Fixed(ty),
        None => Inferred::Open,
    }
}

/// Locals are declared, with what fixes their types.
fn declare_all(
    env: &mut Environment<'_>,
    locals: &[Local],
    has_values: bool,
    types: &[Option<Ty>],
) -> Result<(), AllocError>
    ensures { OnOk result (env.new ≡ over (declare_variables env.old locals.now) (env.old.types ++ marks.inferred_all_by env.old locals.now has_values types.now)) }
{
    for (i, local) in locals.iter().enumerate() {
        let found = inferred(env, local, has_values, type_at(types, i));
        env.push_type(found)?;
        env.declare(Role::Variable, local.name.name)?;
    }
    Ok(())
}

/// `var locals := values`: the values do not see the locals.
fn var(
    alloc: Global,
    env: &mut Environment<'_>,
    locals: &[Local],
    values: &[Expr],
) -> Result<(), AllocError>
    ensures { OnOk result (env.new ≡ over (declare_variables env.old locals.now) (fixing.used env.old (map expr_of values.now) ++ inferred_all env.old locals.now (map expr_of values.now) (fixing.types_of_values env.old (map expr_of values.now)))) }
{
    let types = types_of_values(alloc, env, values)?;
    mark_all(env, values);
    declare_all(env, locals, !values.is_empty(), &types)
}

/// `targets := values`
fn assign(
    alloc: Global,
    env: &mut Environment<'_>,
    targets: &[Expr],
    values: &[Expr],
) -> Result<(), AllocError>
    ensures { OnOk result (env.new ≡ over env.old (inferred_behind env.old (tree.Assign (map expr_of targets.now) (map expr_of values.now)))) }
{
    let types = types_of_values(alloc, env, values)?;
    mark_targets(env, targets);
    mark_all(env, values);
    take_all(env, targets, &types);
    Ok(())
}

/// What fixes the types behind a statement.
#[cycle(infer)]
fn infer(alloc: Global, env: &mut Environment<'_>, statement: &Statement) -> Result<(), AllocError>
    ensures { OnOk result (env.new ≡ over (behind env.old (tree.statement_of statement.now)) (inferred_behind env.old (tree.statement_of statement.now))) }
{
    match statement {
        Statement::Block(inner) => infer_block(alloc, env, inner),
        Statement::Var { locals, values, .. } => var(alloc, env, locals, values),
        Statement::Assign { targets, values } => assign(alloc, env, targets, values),
        Statement::Expression(e) => {
            mark(env, e);
            Ok(())
        }
        Statement::If {
            first,
            others,
            otherwise,
        } => {
            infer_branch(alloc, env, first)?;
            infer_branches(alloc, env, others)?;
            match otherwise {
                None => Ok(()),
                Some(last) => infer_block(alloc, env, last),
            }
        }
        Statement::While {
            guard,
            clauses,
            body,
            ..
        } => {
            mark(env, guard);
            mark_clauses(env, clauses);
            infer_block(alloc, env, body)
        }
        Statement::Return { values, .. } => {
            mark_all(env, values);
            Ok(())
        }
        Statement::Break { .. } => Ok(()),
        Statement::Assert { condition, .. } => {
            mark(env, condition);
            Ok(())
        }
        Statement::Print { operands, .. } => {
            mark_operands(env, operands);
            Ok(())
        }
    }
}

/// The same of a block, whose locals are in scope until its end.
#[cycle(infer)]
pub fn infer_block(
    alloc: Global,
    env: &mut Environment<'_>,
    block: &Block,
) -> Result<(), AllocError>
    ensures { OnOk result (env.new ≡ behind_block env.old (tree.block_of block.now).statements) }
{
    let mark = env.enter();
    infer_all(alloc, env, &block.statements)?;
    env.leave(mark);
    Ok(())
}

/// The same of statements.
#[cycle(infer)]
fn infer_all(
    alloc: Global,
    env: &mut Environment<'_>,
    all: &Vec<Statement>,
) -> Result<(), AllocError>
    ensures { OnOk result (env.new ≡ over (behind_all env.old (tree.statements_of (map tree.statement_of all.now.items))) (inferred_behind_all env.old (tree.statements_of (map tree.statement_of all.now.items)))) }
{
    for statement in all {
        infer(alloc, env, statement)?;
    }
    Ok(())
}

/// The same of a guard and its block.
#[cycle(infer)]
fn infer_branch(alloc: Global, env: &mut Environment<'_>, branch: &Branch) -> Result<(), AllocError>
    ensures { OnOk result (env.new ≡ behind_block (marked env.old (names_in (tree.branch_of branch.now).guard)) (tree.branch_of branch.now).body.statements) }
{
    mark(env, &branch.guard);
    infer_block(alloc, env, &branch.body)
}

/// The same of a run of `else if`.
#[cycle(infer)]
fn infer_branches(
    alloc: Global,
    env: &mut Environment<'_>,
    all: &Vec<Branch>,
) -> Result<(), AllocError>
    ensures { OnOk result (env.new ≡ behind_branches env.old (tree.branches_of (map tree.branch_of all.now.items))) }
{
    for branch in all {
        infer_branch(alloc, env, branch)?;
    }
    Ok(())
}
