//! Statements that hold no other statement.

ghost use Rattle.std.specs.Prelude.{◌≡◌, map, option_map};
ghost use Rattle.df_ntree.specs.Expr.{expr_of};
ghost use Rattle.df_ntree.specs.File.{operand_of, statement_of};
ghost use Rattle.df_ntree.specs.mirror.Reading.{next_by, one_or_more};
ghost use Rattle.df_ntree.specs.mirror.FileReading.{operand_at, print_at, assert_at, break_at, returned_at, return_at, type_within, typing_at, local_at, assigned_at, initial_at, var_at, alone, expression_begins, primaries_begin, primaries_at};
ghost use Rattle.df_npexpr.specs.Reads.{Reads};
ghost use Rattle.df_npexpr.specs.Rest.{rest_of};

use crate::parts::{text, values};
use df_base::{Global, Stop};
use df_npexpr::{Cursor, syntax};
use df_ntree::{Expr, Level, Local, PrintOperand, Statement, TreeType};
use df_tok::{Kind, Sign, Word};

// ---- print

/// Takes what is printed.
#[tactic(auto, unfolding(df_ntree::specs::mirror::FileReading::operand_at))]
fn operand(cursor: &mut Cursor, alloc: Global, room: usize) -> Result<PrintOperand, Stop>
    ensures { Reads (λ x. (operand_of x, rest_of cursor.new)) result (operand_at room (rest_of cursor.old)) }
{
    match cursor.kind() {
        Some(Kind::Text) => {
            if 0 < room {
                Ok(PrintOperand::Text(text(cursor, alloc)?))
            } else {
                Err(syntax(cursor.pos()))
            }
        }
        _ => Ok(PrintOperand::Value(cursor.expression(alloc, room)?)),
    }
}

/// Takes a comma and an operand, or nothing where no comma stands.
fn next_operand(
    cursor: &mut Cursor,
    alloc: Global,
    room: usize,
) -> Result<Option<PrintOperand>, Stop>
    ensures { Reads (λ x. (option_map operand_of x, rest_of cursor.new)) result (next_by (operand_at room) (rest_of cursor.old)) }
{
    if cursor.sign_stands(Sign::Comma) {
        cursor.sign(Sign::Comma)?;
        Ok(Some(operand(cursor, alloc, room)?))
    } else {
        Ok(None)
    }
}

/// Takes operands with commas between them.
#[tactic(auto, unfolding(df_ntree::specs::mirror::Reading::one_or_more))]
fn operands(cursor: &mut Cursor, alloc: Global, room: usize) -> Result<Vec<PrintOperand>, Stop>
    ensures { Reads (λ x. (map operand_of x.items, rest_of cursor.new)) result (one_or_more (operand_at room) (rest_of cursor.old)) }
{
    let mut operands = Vec::new(alloc);
    operands.push(operand(cursor, alloc, room)?)?;
    while let Some(operand) = next_operand(cursor, alloc, room)? {
        operands.push(operand)?;
    }
    Ok(operands)
}

/// Takes `print operands;`.
#[tactic(auto, unfolding(df_ntree::specs::mirror::FileReading::print_at))]
pub(crate) fn print(cursor: &mut Cursor, alloc: Global, room: usize) -> Result<Statement, Stop>
    ensures { Reads (λ x. (statement_of x, rest_of cursor.new)) result (print_at room (rest_of cursor.old)) }
{
    let pos = cursor.pos_of_word(Word::Print)?;
    let operands = operands(cursor, alloc, room)?;
    cursor.sign(Sign::Semicolon)?;
    Ok(Statement::Print { pos, operands })
}

// ---- assert, break and return

/// Takes `assert condition;`.
#[tactic(auto, unfolding(df_ntree::specs::mirror::FileReading::assert_at))]
pub(crate) fn assertion(cursor: &mut Cursor, alloc: Global, room: usize) -> Result<Statement, Stop>
    ensures { Reads (λ x. (statement_of x, rest_of cursor.new)) result (assert_at room (rest_of cursor.old)) }
{
    let pos = cursor.pos_of_word(Word::Assert)?;
    let condition = cursor.expression(alloc, room)?;
    match cursor.sign(Sign::Semicolon) {
        Ok(()) => Ok(Statement::Assert { pos, condition }),
        Err(stop) => {
            drop(condition);
            Err(stop)
        }
    }
}

/// Takes `break;`.
#[tactic(auto, unfolding(df_ntree::specs::mirror::FileReading::break_at))]
pub(crate) fn break_statement(cursor: &mut Cursor) -> Result<Statement, Stop>
    ensures { Reads (λ x. (statement_of x, rest_of cursor.new)) result (break_at (rest_of cursor.old)) }
{
    let pos = cursor.pos_of_word(Word::Break)?;
    cursor.sign(Sign::Semicolon)?;
    Ok(Statement::Break { pos })
}

/// Takes the values before a semicolon, if any.
#[tactic(auto, unfolding(df_ntree::specs::mirror::FileReading::returned_at))]
fn returned(cursor: &mut Cursor, alloc: Global, room: usize) -> Result<Vec<Expr>, Stop>
    ensures { Reads (λ x. (map expr_of x.items, rest_of cursor.new)) result (returned_at room (rest_of cursor.old)) }
{
    if cursor.sign_stands(Sign::Semicolon) {
        Ok(Vec::new(alloc))
    } else {
        values(cursor, alloc, room)
    }
}

/// Takes `return values;`.
#[tactic(auto, unfolding(df_ntree::specs::mirror::FileReading::return_at))]
pub(crate) fn return_statement(
    cursor: &mut Cursor,
    alloc: Global,
    room: usize,
) -> Result<Statement, Stop>
    ensures { Reads (λ x. (statement_of x, rest_of cursor.new)) result (return_at room (rest_of cursor.old)) }
{
    let pos = cursor.pos_of_word(Word::Return)?;
    let values = returned(cursor, alloc, room)?;
    cursor.sign(Sign::Semicolon)?;
    Ok(Statement::Return { pos, values })
}

// ---- locals

/// Takes a type, where there is room for it.
#[tactic(auto, unfolding(df_ntree::specs::mirror::FileReading::type_within))]
fn ty(cursor: &mut Cursor, room: usize) -> Result<TreeType, Stop>
    ensures { Reads (λ x. (x, rest_of cursor.new)) result (type_within room (rest_of cursor.old)) }
{
    if 0 < room {
        cursor.ty()
    } else {
        Err(syntax(cursor.pos()))
    }
}

/// Takes a colon and a type, or nothing where no colon stands.
#[tactic(auto, unfolding(df_ntree::specs::mirror::FileReading::typing_at))]
fn typing(cursor: &mut Cursor, room: usize) -> Result<Option<TreeType>, Stop>
    ensures { Reads (λ x. (x, rest_of cursor.new)) result (typing_at room (rest_of cursor.old)) }
{
    if cursor.sign_stands(Sign::Colon) {
        cursor.sign(Sign::Colon)?;
        Ok(Some(ty(cursor, room)?))
    } else {
        Ok(None)
    }
}

/// Takes a name, and its type if it has one.
#[tactic(auto, unfolding(df_ntree::specs::mirror::FileReading::local_at))]
fn local(cursor: &mut Cursor, room: usize) -> Result<Local, Stop>
    ensures { Reads (λ x. (x, rest_of cursor.new)) result (local_at room (rest_of cursor.old)) }
{
    let name = cursor.name()?;
    let ty = typing(cursor, room)?;
    Ok(Local { name, ty })
}

/// Takes a comma and a local, or nothing where no comma stands.
fn next_local(cursor: &mut Cursor, room: usize) -> Result<Option<Local>, Stop>
    ensures { Reads (λ x. (x, rest_of cursor.new)) result (next_by (local_at room) (rest_of cursor.old)) }
{
    if cursor.sign_stands(Sign::Comma) {
        cursor.sign(Sign::Comma)?;
        Ok(Some(local(cursor, room)?))
    } else {
        Ok(None)
    }
}

/// Takes locals with commas between them.
#[tactic(auto, unfolding(df_ntree::specs::mirror::Reading::one_or_more))]
fn locals(cursor: &mut Cursor, alloc: Global, room: usize) -> Result<Vec<Local>, Stop>
    ensures { Reads (λ x. (x.items, rest_of cursor.new)) result (one_or_more (local_at room) (rest_of cursor.old)) }
{
    let mut locals = Vec::new(alloc);
    locals.push(local(cursor, room)?)?;
    while let Some(local) = next_local(cursor, room)? {
        locals.push(local)?;
    }
    Ok(locals)
}

/// Takes `:= values`.
#[tactic(auto, unfolding(df_ntree::specs::mirror::FileReading::assigned_at))]
fn assigned(cursor: &mut Cursor, alloc: Global, room: usize) -> Result<Vec<Expr>, Stop>
    ensures { Reads (λ x. (map expr_of x.items, rest_of cursor.new)) result (assigned_at room (rest_of cursor.old)) }
{
    cursor.sign(Sign::Assign)?;
    values(cursor, alloc, room)
}

/// Takes `:= values`, or nothing where the sign does not stand.
#[tactic(auto, unfolding(df_ntree::specs::mirror::FileReading::initial_at))]
fn initial(cursor: &mut Cursor, alloc: Global, room: usize) -> Result<Vec<Expr>, Stop>
    ensures { Reads (λ x. (map expr_of x.items, rest_of cursor.new)) result (initial_at room (rest_of cursor.old)) }
{
    if cursor.sign_stands(Sign::Assign) {
        assigned(cursor, alloc, room)
    } else {
        Ok(Vec::new(alloc))
    }
}

/// Takes `var locals := values;`.
#[tactic(auto, unfolding(df_ntree::specs::mirror::FileReading::var_at))]
pub(crate) fn var(cursor: &mut Cursor, alloc: Global, room: usize) -> Result<Statement, Stop>
    ensures { Reads (λ x. (statement_of x, rest_of cursor.new)) result (var_at room (rest_of cursor.old)) }
{
    let pos = cursor.pos_of_word(Word::Var)?;
    let locals = locals(cursor, alloc, room)?;
    let values = initial(cursor, alloc, room)?;
    cursor.sign(Sign::Semicolon)?;
    Ok(Statement::Var {
        pos,
        locals,
        values,
    })
}

// ---- what primaries begin

/// The statement of the only expression.
fn alone(mut targets: Vec<Expr>) -> Option<Statement>
    ensures { option_map statement_of result ≡ alone (map expr_of targets.items) }
{
    let value = targets.pop()?;
    if targets.is_empty() {
        Some(Statement::Expression(value))
    } else {
        drop(value);
        None
    }
}

/// Takes the semicolon after the only expression.
#[tactic(auto, unfolding(df_ntree::specs::mirror::FileReading::expression_begins))]
fn expression_statement(cursor: &mut Cursor, targets: Vec<Expr>) -> Result<Statement, Stop>
    ensures { Reads (λ x. (statement_of x, rest_of cursor.new)) result (expression_begins (map expr_of targets.items) (rest_of cursor.old)) }
{
    match alone(targets) {
        Some(statement) => match cursor.sign(Sign::Semicolon) {
            Ok(()) => Ok(statement),
            Err(stop) => {
                drop(statement);
                Err(stop)
            }
        },
        None => Err(syntax(cursor.pos())),
    }
}

/// Takes what follows targets: `:= values;`, or `;` after one.
#[tactic(auto, unfolding(df_ntree::specs::mirror::FileReading::primaries_begin))]
fn primaries_begin(
    cursor: &mut Cursor,
    alloc: Global,
    room: usize,
    targets: Vec<Expr>,
) -> Result<Statement, Stop>
    ensures { Reads (λ x. (statement_of x, rest_of cursor.new)) result (primaries_begin room (map expr_of targets.items) (rest_of cursor.old)) }
{
    if cursor.sign_stands(Sign::Assign) {
        let values = assigned(cursor, alloc, room)?;
        cursor.sign(Sign::Semicolon)?;
        Ok(Statement::Assign { targets, values })
    } else {
        expression_statement(cursor, targets)
    }
}

/// Takes a statement that begins with primaries.
#[tactic(auto, unfolding(df_ntree::specs::mirror::FileReading::primaries_at))]
pub(crate) fn primaries(cursor: &mut Cursor, alloc: Global, room: usize) -> Result<Statement, Stop>
    ensures { Reads (λ x. (statement_of x, rest_of cursor.new)) result (primaries_at room (rest_of cursor.old)) }
{
    let targets = cursor.expressions(alloc, room, Level::Primary)?;
    primaries_begin(cursor, alloc, room, targets)
}
