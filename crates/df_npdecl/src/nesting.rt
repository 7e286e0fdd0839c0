//! Statements and blocks inside one another.

ghost use Rattle.std.specs.Prelude.{◌≡◌, ◌<◌, ◌-◌, map, option_map};
ghost use Rattle.df_ntree.specs.File.{statement_of, block_of, branch_of};
ghost use Rattle.df_ntree.specs.mirror.Reading.{all_of, kind_at, is_open, optionally};
ghost use Rattle.df_ntree.specs.mirror.FileReading.{else_if_stands, block_by, branch_by, else_if_by, otherwise_by, if_by, while_by, statement_by, statement_at, block_at};
ghost use Rattle.df_npexpr.specs.Reads.{Reads};
ghost use Rattle.df_npexpr.specs.Rest.{rest_of};

use crate::parts::{clauses, else_if_stands};
use crate::statements::{assertion, break_statement, primaries, print, return_statement, var};
use df_base::{Global, Stop};
use df_npexpr::{Cursor, syntax};
use df_ntree::{Block, Branch, Statement};
use df_tok::{Kind, Sign, Word};

/// Takes a statement of at most this height.
#[cycle(statement)]
fn statement(cursor: &mut Cursor, alloc: Global, room: usize) -> Result<Statement, Stop>
    ensures { Reads (λ x. (statement_of x, rest_of cursor.new)) result (statement_at room (rest_of cursor.old)) }
{
    if room == 0 {
        Err(syntax(cursor.pos()))
    } else {
        statement_by_kind(cursor, alloc, room)
    }
}

/// Takes a statement, by the kind of its first token.
#[cycle(statement)]
fn statement_by_kind(cursor: &mut Cursor, alloc: Global, room: usize) -> Result<Statement, Stop>
    requires { 0 < room }
    ensures { Reads (λ x. (statement_of x, rest_of cursor.new)) result (statement_by (room - 1) (block_at room) (block_at (room - 1)) (kind_at (rest_of cursor.old)) (rest_of cursor.old)) }
{
    match cursor.kind() {
        Some(Kind::Sign(Sign::OpenBrace)) => Ok(Statement::Block(block(cursor, alloc, room)?)),
        Some(Kind::Word(Word::Var)) => var(cursor, alloc, room - 1),
        Some(Kind::Word(Word::If)) => if_statement(cursor, alloc, room - 1),
        Some(Kind::Word(Word::While)) => while_statement(cursor, alloc, room - 1),
        Some(Kind::Word(Word::Return)) => return_statement(cursor, alloc, room - 1),
        Some(Kind::Word(Word::Break)) => break_statement(cursor),
        Some(Kind::Word(Word::Assert)) => assertion(cursor, alloc, room - 1),
        Some(Kind::Word(Word::Print)) => print(cursor, alloc, room - 1),
        _ => primaries(cursor, alloc, room - 1),
    }
}

/// Takes a block of at most this height.
#[cycle(statement)]
pub(crate) fn block(cursor: &mut Cursor, alloc: Global, room: usize) -> Result<Block, Stop>
    ensures { Reads (λ x. (block_of x, rest_of cursor.new)) result (block_at room (rest_of cursor.old)) }
{
    if room == 0 {
        Err(syntax(cursor.pos()))
    } else {
        braces(cursor, alloc, room - 1)
    }
}

/// Takes a block whose statements have at most this height.
#[cycle(statement)]
#[tactic(auto, unfolding(df_ntree::specs::mirror::FileReading::block_by, df_ntree::specs::mirror::Reading::many))]
fn braces(cursor: &mut Cursor, alloc: Global, room: usize) -> Result<Block, Stop>
    ensures { Reads (λ x. (block_of x, rest_of cursor.new)) result (block_by (statement_at room) (rest_of cursor.old)) }
{
    let pos = cursor.pos_of_sign(Sign::OpenBrace)?;
    let statements = statements(cursor, alloc, room)?;
    cursor.sign(Sign::CloseBrace)?;
    Ok(Block { pos, statements })
}

/// Takes statements up to a closing brace.
#[cycle(statement)]
fn statements(cursor: &mut Cursor, alloc: Global, room: usize) -> Result<Vec<Statement>, Stop>
    ensures { Reads (λ x. (map statement_of x.items, rest_of cursor.new)) result (all_of (optionally (is_open Sign.CloseBrace) (statement_at room)) (rest_of cursor.old)) }
{
    let mut statements = Vec::new(alloc);
    while let Some(statement) = next_statement(cursor, alloc, room)? {
        statements.push(statement)?;
    }
    Ok(statements)
}

/// Takes the next statement, or nothing before a closing brace.
#[cycle(statement)]
fn next_statement(
    cursor: &mut Cursor,
    alloc: Global,
    room: usize,
) -> Result<Option<Statement>, Stop>
    ensures { Reads (λ x. (option_map statement_of x, rest_of cursor.new)) result (optionally (is_open Sign.CloseBrace) (statement_at room) (rest_of cursor.old)) }
{
    if cursor.sign_stands(Sign::CloseBrace) {
        Ok(None)
    } else {
        Ok(Some(statement(cursor, alloc, room)?))
    }
}

/// Takes a run of branches.
#[cycle(statement)]
#[tactic(auto, unfolding(df_ntree::specs::mirror::FileReading::if_by, df_ntree::specs::mirror::Reading::many))]
fn if_statement(cursor: &mut Cursor, alloc: Global, room: usize) -> Result<Statement, Stop>
    ensures { Reads (λ x. (statement_of x, rest_of cursor.new)) result (if_by room (block_at room) (rest_of cursor.old)) }
{
    let first = branch(cursor, alloc, room)?;
    let others = else_ifs(cursor, alloc, room)?;
    let otherwise = otherwise(cursor, alloc, room)?;
    Ok(Statement::If {
        first,
        others,
        otherwise,
    })
}

/// Takes `if`, a guard and its block.
#[cycle(statement)]
#[tactic(auto, unfolding(df_ntree::specs::mirror::FileReading::branch_by))]
fn branch(cursor: &mut Cursor, alloc: Global, room: usize) -> Result<Branch, Stop>
    ensures { Reads (λ x. (branch_of x, rest_of cursor.new)) result (branch_by room (block_at room) (rest_of cursor.old)) }
{
    let pos = cursor.pos_of_word(Word::If)?;
    let guard = cursor.expression(alloc, room)?;
    match block(cursor, alloc, room) {
        Ok(body) => Ok(Branch { pos, guard, body }),
        Err(stop) => {
            drop(guard);
            Err(stop)
        }
    }
}

/// Takes `while guard`, the clauses and the body.
#[cycle(statement)]
#[tactic(auto, unfolding(df_ntree::specs::mirror::FileReading::while_by, df_ntree::specs::mirror::Reading::many))]
fn while_statement(cursor: &mut Cursor, alloc: Global, room: usize) -> Result<Statement, Stop>
    ensures { Reads (λ x. (statement_of x, rest_of cursor.new)) result (while_by room (block_at room) (rest_of cursor.old)) }
{
    let pos = cursor.pos_of_word(Word::While)?;
    let guard = cursor.expression(alloc, room)?;
    let clauses = clauses(cursor, alloc, room)?;
    let body = block(cursor, alloc, room)?;
    Ok(Statement::While {
        pos,
        guard,
        clauses,
        body,
    })
}

/// Takes a run of `else if`.
#[cycle(statement)]
fn else_ifs(cursor: &mut Cursor, alloc: Global, room: usize) -> Result<Vec<Branch>, Stop>
    ensures { Reads (λ x. (map branch_of x.items, rest_of cursor.new)) result (all_of (optionally else_if_stands (else_if_by room (block_at room))) (rest_of cursor.old)) }
{
    let mut branches = Vec::new(alloc);
    while let Some(branch) = next_else_if(cursor, alloc, room)? {
        branches.push(branch)?;
    }
    Ok(branches)
}

/// Takes the next `else if` with its branch, or nothing where none stands.
#[cycle(statement)]
#[tactic(auto, unfolding(df_ntree::specs::mirror::FileReading::else_if_by))]
fn next_else_if(cursor: &mut Cursor, alloc: Global, room: usize) -> Result<Option<Branch>, Stop>
    ensures { Reads (λ x. (option_map branch_of x, rest_of cursor.new)) result (optionally else_if_stands (else_if_by room (block_at room)) (rest_of cursor.old)) }
{
    if else_if_stands(cursor) {
        cursor.word(Word::Else)?;
        Ok(Some(branch(cursor, alloc, room)?))
    } else {
        Ok(None)
    }
}

/// Takes `else` and its block, or nothing where it does not stand.
#[cycle(statement)]
#[tactic(auto, unfolding(df_ntree::specs::mirror::FileReading::otherwise_by))]
fn otherwise(cursor: &mut Cursor, alloc: Global, room: usize) -> Result<Option<Block>, Stop>
    ensures { Reads (λ x. (option_map block_of x, rest_of cursor.new)) result (otherwise_by (block_at room) (rest_of cursor.old)) }
{
    if cursor.word_stands(Word::Else) {
        cursor.word(Word::Else)?;
        Ok(Some(block(cursor, alloc, room)?))
    } else {
        Ok(None)
    }
}
