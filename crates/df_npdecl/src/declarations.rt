//! Declarations.

ghost use Rattle.std.specs.Prelude.{◌≡◌, map, option_map};
ghost use Rattle.df_ntree.specs.Expr.{expr_of};
ghost use Rattle.df_ntree.specs.File.{newtype_of, method_of, declaration_of};
ghost use Rattle.df_ntree.specs.mirror.Reading.{all_of, some_stands, optionally, next_by, one_or_more};
ghost use Rattle.df_ntree.specs.mirror.FileReading.{parameter_at, parameters_in, parameters_at, results_at, typed_at, witness_at, newtype_head_at, predicate_at, newtype_at, method_head_at, method_at, declaration_at};
ghost use Rattle.df_npexpr.specs.Reads.{Reads};
ghost use Rattle.df_npexpr.specs.Rest.{rest_of};

use crate::nesting::block;
use crate::parts::clauses;
use df_base::{Global, Stop};
use df_npexpr::{Cursor, HEIGHT_LIMIT, syntax};
use df_ntree::{Declaration, Expr, Ident, MethodDeclaration, NewtypeDeclaration, Parameter};
use df_tok::{Kind, Sign, Word};

/// Takes `name: ty`.
#[tactic(auto, unfolding(df_ntree::specs::mirror::FileReading::parameter_at))]
fn parameter(cursor: &mut Cursor) -> Result<Parameter, Stop>
    ensures { Reads (λ x. (x, rest_of cursor.new)) result (parameter_at (rest_of cursor.old)) }
{
    let name = cursor.name()?;
    cursor.sign(Sign::Colon)?;
    let ty = cursor.ty()?;
    Ok(Parameter { name, ty })
}

/// Takes a comma and a parameter, or nothing where no comma stands.
fn next_parameter(cursor: &mut Cursor) -> Result<Option<Parameter>, Stop>
    ensures { Reads (λ x. (x, rest_of cursor.new)) result (next_by parameter_at (rest_of cursor.old)) }
{
    if cursor.sign_stands(Sign::Comma) {
        cursor.sign(Sign::Comma)?;
        Ok(Some(parameter(cursor)?))
    } else {
        Ok(None)
    }
}

/// Takes parameters with commas between them, at least one.
#[tactic(auto, unfolding(df_ntree::specs::mirror::Reading::one_or_more))]
fn some_parameters(cursor: &mut Cursor, alloc: Global) -> Result<Vec<Parameter>, Stop>
    ensures { Reads (λ x. (x.items, rest_of cursor.new)) result (one_or_more parameter_at (rest_of cursor.old)) }
{
    let mut parameters = Vec::new(alloc);
    parameters.push(parameter(cursor)?)?;
    while let Some(parameter) = next_parameter(cursor)? {
        parameters.push(parameter)?;
    }
    Ok(parameters)
}

/// Takes the parameters before a closing parenthesis.
#[tactic(auto, unfolding(df_ntree::specs::mirror::FileReading::parameters_in))]
fn parameters_inside(cursor: &mut Cursor, alloc: Global) -> Result<Vec<Parameter>, Stop>
    ensures { Reads (λ x. (x.items, rest_of cursor.new)) result (parameters_in (rest_of cursor.old)) }
{
    if cursor.sign_stands(Sign::CloseParenthesis) {
        Ok(Vec::new(alloc))
    } else {
        some_parameters(cursor, alloc)
    }
}

/// Takes parameters in parentheses.
#[tactic(auto, unfolding(df_ntree::specs::mirror::FileReading::parameters_at))]
fn parameters(cursor: &mut Cursor, alloc: Global) -> Result<Vec<Parameter>, Stop>
    ensures { Reads (λ x. (x.items, rest_of cursor.new)) result (parameters_at (rest_of cursor.old)) }
{
    cursor.sign(Sign::OpenParenthesis)?;
    let parameters = parameters_inside(cursor, alloc)?;
    cursor.sign(Sign::CloseParenthesis)?;
    Ok(parameters)
}

/// Takes `returns` and the results, or nothing where the word does not stand.
#[tactic(auto, unfolding(df_ntree::specs::mirror::FileReading::results_at))]
fn results(cursor: &mut Cursor, alloc: Global) -> Result<Option<Vec<Parameter>>, Stop>
    ensures { Reads (λ x. (option_map (λ results. results.items) x, rest_of cursor.new)) result (results_at (rest_of cursor.old)) }
{
    if cursor.word_stands(Word::Returns) {
        cursor.word(Word::Returns)?;
        Ok(Some(parameters(cursor, alloc)?))
    } else {
        Ok(None)
    }
}

/// Takes `method name(parameters)`.
#[tactic(auto, unfolding(df_ntree::specs::mirror::FileReading::method_head_at))]
fn method_head(cursor: &mut Cursor, alloc: Global) -> Result<(Ident, Vec<Parameter>), Stop>
    ensures { Reads (λ x. ((x.0, x.1.items), rest_of cursor.new)) result (method_head_at (rest_of cursor.old)) }
{
    cursor.word(Word::Method)?;
    let name = cursor.name()?;
    let parameters = parameters(cursor, alloc)?;
    Ok((name, parameters))
}

/// Takes a method.
#[tactic(auto, unfolding(df_ntree::specs::mirror::FileReading::method_at, df_ntree::specs::mirror::Reading::many))]
fn method(cursor: &mut Cursor, alloc: Global) -> Result<MethodDeclaration, Stop>
    ensures { Reads (λ x. (method_of x, rest_of cursor.new)) result (method_at (rest_of cursor.old)) }
{
    let (name, parameters) = method_head(cursor, alloc)?;
    let results = results(cursor, alloc)?;
    let clauses = clauses(cursor, alloc, HEIGHT_LIMIT)?;
    let body = block(cursor, alloc, HEIGHT_LIMIT)?;
    Ok(MethodDeclaration {
        name,
        parameters,
        results,
        clauses,
        body,
    })
}

/// Takes `: int` where a colon stands, and says whether it did.
#[tactic(auto, unfolding(df_ntree::specs::mirror::FileReading::typed_at))]
fn typed(cursor: &mut Cursor) -> Result<bool, Stop>
    ensures { Reads (λ x. (x, rest_of cursor.new)) result (typed_at (rest_of cursor.old)) }
{
    if cursor.sign_stands(Sign::Colon) {
        cursor.sign(Sign::Colon)?;
        cursor.word(Word::Int)?;
        Ok(true)
    } else {
        Ok(false)
    }
}

/// Takes `witness` and its value, or nothing where the word does not stand.
#[tactic(auto, unfolding(df_ntree::specs::mirror::FileReading::witness_at))]
fn witness(cursor: &mut Cursor, alloc: Global) -> Result<Option<Expr>, Stop>
    ensures { Reads (λ x. (option_map expr_of x, rest_of cursor.new)) result (witness_at (rest_of cursor.old)) }
{
    if cursor.word_stands(Word::Witness) {
        cursor.word(Word::Witness)?;
        Ok(Some(cursor.expression(alloc, HEIGHT_LIMIT)?))
    } else {
        Ok(None)
    }
}

/// Takes `newtype name = variable`.
#[tactic(auto, unfolding(df_ntree::specs::mirror::FileReading::newtype_head_at))]
fn newtype_head(cursor: &mut Cursor) -> Result<(Ident, Ident), Stop>
    ensures { Reads (λ x. ((x.0, x.1), rest_of cursor.new)) result (newtype_head_at (rest_of cursor.old)) }
{
    cursor.word(Word::Newtype)?;
    let name = cursor.name()?;
    cursor.sign(Sign::Define)?;
    let variable = cursor.name()?;
    Ok((name, variable))
}

/// Takes `| predicate`.
#[tactic(auto, unfolding(df_ntree::specs::mirror::FileReading::predicate_at))]
fn predicate(cursor: &mut Cursor, alloc: Global) -> Result<Expr, Stop>
    ensures { Reads (λ x. (expr_of x, rest_of cursor.new)) result (predicate_at (rest_of cursor.old)) }
{
    cursor.sign(Sign::Bar)?;
    cursor.expression(alloc, HEIGHT_LIMIT)
}

/// Takes a newtype.
#[tactic(auto, unfolding(df_ntree::specs::mirror::FileReading::newtype_at))]
fn newtype(cursor: &mut Cursor, alloc: Global) -> Result<NewtypeDeclaration, Stop>
    ensures { Reads (λ x. (newtype_of x, rest_of cursor.new)) result (newtype_at (rest_of cursor.old)) }
{
    let (name, variable) = newtype_head(cursor)?;
    let is_typed = typed(cursor)?;
    let predicate = predicate(cursor, alloc)?;
    match witness(cursor, alloc) {
        Ok(witness) => Ok(NewtypeDeclaration {
            name,
            variable,
            is_typed,
            predicate,
            witness,
        }),
        Err(stop) => {
            drop(predicate);
            Err(stop)
        }
    }
}

/// Takes a declaration.
#[tactic(auto, unfolding(df_ntree::specs::mirror::FileReading::declaration_at))]
fn declaration(cursor: &mut Cursor, alloc: Global) -> Result<Declaration, Stop>
    ensures { Reads (λ x. (declaration_of x, rest_of cursor.new)) result (declaration_at (rest_of cursor.old)) }
{
    match cursor.kind() {
        Some(Kind::Word(Word::Newtype)) => Ok(Declaration::Newtype(newtype(cursor, alloc)?)),
        Some(Kind::Word(Word::Method)) => Ok(Declaration::Method(method(cursor, alloc)?)),
        _ => Err(syntax(cursor.pos())),
    }
}

/// Takes the next declaration, or nothing at the end.
fn next_declaration(cursor: &mut Cursor, alloc: Global) -> Result<Option<Declaration>, Stop>
    ensures { Reads (λ x. (option_map declaration_of x, rest_of cursor.new)) result (optionally some_stands declaration_at (rest_of cursor.old)) }
{
    if cursor.some_stands() {
        Ok(Some(declaration(cursor, alloc)?))
    } else {
        Ok(None)
    }
}

/// Takes declarations up to the end.
pub(crate) fn declarations(cursor: &mut Cursor, alloc: Global) -> Result<Vec<Declaration>, Stop>
    ensures { Reads (λ x. (map declaration_of x.items, rest_of cursor.new)) result (all_of (optionally some_stands declaration_at) (rest_of cursor.old)) }
{
    let mut declarations = Vec::new(alloc);
    while let Some(declaration) = next_declaration(cursor, alloc)? {
        declarations.push(declaration)?;
    }
    Ok(declarations)
}
