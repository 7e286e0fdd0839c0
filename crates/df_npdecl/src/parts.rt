//! What statements and declarations share.

ghost use Rattle.std.specs.Prelude.{◌≡◌, map, option_map};
ghost use Rattle.df_ntree.specs.Expr.{expr_of};
ghost use Rattle.df_ntree.specs.File.{clause_of};
ghost use Rattle.df_ntree.specs.mirror.Reading.{all_of, kind_at, optionally, text_at};
ghost use Rattle.df_ntree.specs.mirror.FileReading.{else_if_stands, clause_stands, condition_by, values_at, condition_word_at, condition_at, decreases_at, clause_at};
ghost use Rattle.df_npexpr.specs.Reads.{Reads};
ghost use Rattle.df_npexpr.specs.Rest.{rest_of};

use crate::text::characters;
use df_base::{Global, Pos, Stop};
use df_npexpr::{Cursor, begins_with_word, syntax};
use df_ntree::{Clause, ConditionKind, Expr, Level};
use df_tok::{Kind, Word};

/// Whether `else if` is next.
pub(crate) fn else_if_stands(cursor: &Cursor) -> bool
    ensures { result ≡ else_if_stands (rest_of cursor.now) }
{
    match cursor.rest {
        [] => false,
        [_, behind @ ..] => { cursor.word_stands(Word::Else) && begins_with_word(behind, Word::If) }
    }
}

/// Takes a string literal, and gives its characters.
#[tactic(auto, unfolding(df_ntree::specs::mirror::Reading::text_at))]
pub(crate) fn text(cursor: &mut Cursor, alloc: Global) -> Result<Vec<u8>, Stop>
    ensures { Reads (λ x. (x.items, rest_of cursor.new)) result (text_at (rest_of cursor.old)) }
{
    let [token, rest @ ..] = cursor.rest else {
        return Err(syntax(cursor.pos()));
    };
    let pos = token.pos;
    match token.kind {
        Kind::Text => {
            let text = characters(alloc, token.text, pos)?;
            cursor.rest = rest;
            Ok(text)
        }
        _ => Err(syntax(pos)),
    }
}

/// Takes expressions with commas between them, of at most this height.
pub(crate) fn values(cursor: &mut Cursor, alloc: Global, room: usize) -> Result<Vec<Expr>, Stop>
    ensures { Reads (λ x. (map expr_of x.items, rest_of cursor.new)) result (values_at room (rest_of cursor.old)) }
{
    cursor.expressions(alloc, room, Level::Equivalence)
}

/// What the word of a condition says.
fn condition_kind(kind: Kind) -> Option<ConditionKind>
    ensures { result ≡ condition_by kind }
{
    match kind {
        Kind::Word(Word::Requires) => Some(ConditionKind::Requires),
        Kind::Word(Word::Ensures) => Some(ConditionKind::Ensures),
        Kind::Word(Word::Invariant) => Some(ConditionKind::Invariant),
        _ => None,
    }
}

/// Takes the word of a condition, and says where it stood.
#[tactic(auto, unfolding(df_ntree::specs::mirror::FileReading::condition_word_at))]
fn condition_word(cursor: &mut Cursor) -> Result<(ConditionKind, Pos), Stop>
    ensures { Reads (λ x. ((x.0, x.1), rest_of cursor.new)) result (condition_word_at (rest_of cursor.old)) }
{
    let [token, rest @ ..] = cursor.rest else {
        return Err(syntax(cursor.pos()));
    };
    let pos = token.pos;
    match condition_kind(token.kind) {
        Some(kind) => {
            cursor.rest = rest;
            Ok((kind, pos))
        }
        None => Err(syntax(pos)),
    }
}

/// Takes a clause with a condition.
#[tactic(auto, unfolding(df_ntree::specs::mirror::FileReading::condition_at))]
fn condition(cursor: &mut Cursor, alloc: Global, room: usize) -> Result<Clause, Stop>
    ensures { Reads (λ x. (clause_of x, rest_of cursor.new)) result (condition_at room (rest_of cursor.old)) }
{
    let (kind, pos) = condition_word(cursor)?;
    let condition = cursor.expression(alloc, room)?;
    Ok(Clause::Condition {
        kind,
        pos,
        condition,
    })
}

/// Takes `decreases values`.
#[tactic(auto, unfolding(df_ntree::specs::mirror::FileReading::decreases_at))]
fn decreases(cursor: &mut Cursor, alloc: Global, room: usize) -> Result<Clause, Stop>
    ensures { Reads (λ x. (clause_of x, rest_of cursor.new)) result (decreases_at room (rest_of cursor.old)) }
{
    let pos = cursor.pos_of_word(Word::Decreases)?;
    let values = values(cursor, alloc, room)?;
    Ok(Clause::Decreases { pos, values })
}

/// Takes a clause of at most this height.
#[tactic(auto, unfolding(df_ntree::specs::mirror::FileReading::clause_at))]
fn clause(cursor: &mut Cursor, alloc: Global, room: usize) -> Result<Clause, Stop>
    ensures { Reads (λ x. (clause_of x, rest_of cursor.new)) result (clause_at room (rest_of cursor.old)) }
{
    match cursor.kind() {
        Some(Kind::Word(Word::Decreases)) => decreases(cursor, alloc, room),
        _ => condition(cursor, alloc, room),
    }
}

/// Whether a clause is next.
fn clause_stands(cursor: &Cursor) -> bool
    ensures { result ≡ clause_stands (rest_of cursor.now) }
{
    match cursor.kind() {
        Some(Kind::Word(Word::Requires | Word::Ensures | Word::Invariant | Word::Decreases)) => {
            true
        }
        _ => false,
    }
}

/// Takes the next clause, or nothing where none stands.
fn next_clause(cursor: &mut Cursor, alloc: Global, room: usize) -> Result<Option<Clause>, Stop>
    ensures { Reads (λ x. (option_map clause_of x, rest_of cursor.new)) result (optionally clause_stands (clause_at room) (rest_of cursor.old)) }
{
    if clause_stands(cursor) {
        Ok(Some(clause(cursor, alloc, room)?))
    } else {
        Ok(None)
    }
}

/// Takes clauses of at most this height.
pub(crate) fn clauses(cursor: &mut Cursor, alloc: Global, room: usize) -> Result<Vec<Clause>, Stop>
    ensures { Reads (λ x. (map clause_of x.items, rest_of cursor.new)) result (all_of (optionally clause_stands (clause_at room)) (rest_of cursor.old)) }
{
    let mut clauses = Vec::new(alloc);
    while let Some(clause) = next_clause(cursor, alloc, room)? {
        clauses.push(clause)?;
    }
    Ok(clauses)
}
