//! Lines of steps that are read.

ghost use Rattle.std.specs.Prelude.{◌≡◌, ◌<◌, ◌^◌, map, position, length, codes, IfOk, IfSome};
ghost use Rattle.std.specs.Option.{option_map};
ghost use Rattle.df_base.specs.Names.{same_text};
ghost use Rattle.df_form.specs.Log.{step_of};
ghost use Rattle.df_logtext.specs.Numeral.{number_of, integer_of};
ghost use Rattle.df_logtext.specs.Arguments as spec;
ghost use Rattle.df_logtext.specs.View.{names_of};

use crate::number::{integer, number};
use crate::parting::parts;
use crate::words::{combinations, index, indices, literals, op, pairs};
use df_form::{Node, Op, Step};
use std::alloc::{AllocError, Global};

fn hypothesis(words: &[&[u8]]) -> Option<Step>
    ensures { option_map step_of result ≡ spec.hypothesis_of (map (λ word. word.now) words.now) }
{
    match words {
        [number] => Some(Step::Hypothesis(index(number)?)),
        _ => None,
    }
}

fn goal(words: &[&[u8]]) -> Option<Step>
    ensures { option_map step_of result ≡ spec.goal_of (map (λ word. word.now) words.now) }
{
    match words {
        [] => Some(Step::Goal),
        [_, ..] => None,
    }
}

fn connective(words: &[&[u8]]) -> Option<Step>
    ensures { option_map step_of result ≡ spec.connective_of (map (λ word. word.now) words.now) }
{
    match words {
        [node, clause] => Some(Step::Connective {
            node: index(node)?,
            clause: index(clause)?,
        }),
        _ => None,
    }
}

fn schema_number(word: &[u8]) -> Option<u8>
    ensures { result ≡ number_of (2 ^ 8) word.now }
{
    Some(number(1 << 8, word)? as u8)
}

fn schema_clause(word: &[u8]) -> Option<u32>
    ensures { result ≡ number_of (2 ^ 32) word.now }
{
    Some(number(1 << 32, word)? as u32)
}

fn schema(alloc: Global, words: &[&[u8]]) -> Result<Option<Step>, AllocError>
    ensures { IfOk result (λ step. option_map step_of step ≡ spec.schema_of (map (λ word. word.now) words.now)) }
{
    let [schema, clause, others @ ..] = words else {
        return Ok(None);
    };
    let Some(schema) = schema_number(schema) else {
        return Ok(None);
    };
    let Some(clause) = schema_clause(clause) else {
        return Ok(None);
    };
    let Some(terms) = indices(alloc, others)? else {
        return Ok(None);
    };
    Ok(Some(Step::Schema {
        schema,
        clause,
        terms,
    }))
}

/// Where the first colon stands.
fn colon(words: &[&[u8]]) -> Option<usize>
    ensures at { result ≡ spec.colon (map (λ word. word.now) words.now) }
    ensures within { IfSome result (λ at. at < length words.now) }
{
    for (at, word) in words.iter().enumerate() {
        if *word == b":".as_slice() {
            return Some(at);
        }
    }
    None
}

fn propagated(
    alloc: Global,
    clauses: &[&[u8]],
    conclusion: &[&[u8]],
) -> Result<Option<Step>, AllocError>
    ensures { IfOk result (λ step. option_map step_of step ≡ spec.propagated_of (map (λ word. word.now) clauses.now) (map (λ word. word.now) conclusion.now)) }
{
    let Some(clauses) = indices(alloc, clauses)? else {
        return Ok(None);
    };
    let Some(conclusion) = literals(alloc, conclusion)? else {
        return Ok(None);
    };
    Ok(Some(Step::Propagation {
        clauses,
        conclusion,
    }))
}

fn propagation(alloc: Global, words: &[&[u8]]) -> Result<Option<Step>, AllocError>
    ensures { IfOk result (λ step. option_map step_of step ≡ spec.propagation_of (map (λ word. word.now) words.now)) }
{
    match colon(words) {
        Some(at) => propagated(alloc, &words[..at], &words[at + 1..]),
        None => Ok(None),
    }
}

fn joined(alloc: Global, conclusion: &[&[u8]], named: &[&[u8]]) -> Result<Option<Step>, AllocError>
    ensures { IfOk result (λ step. option_map step_of step ≡ spec.joined_of (map (λ word. word.now) conclusion.now) (map (λ word. word.now) named.now)) }
{
    let Some(conclusion) = literals(alloc, conclusion)? else {
        return Ok(None);
    };
    let Some(pairs) = pairs(alloc, named)? else {
        return Ok(None);
    };
    Ok(Some(Step::Congruence { conclusion, pairs }))
}

fn congruence(alloc: Global, words: &[&[u8]]) -> Result<Option<Step>, AllocError>
    ensures { IfOk result (λ step. option_map step_of step ≡ spec.congruence_of (map (λ word. word.now) words.now)) }
{
    match colon(words) {
        Some(at) => joined(alloc, &words[..at], &words[at + 1..]),
        None => Ok(None),
    }
}

fn combined(alloc: Global, conclusion: &[&[u8]], sums: &[&[u8]]) -> Result<Option<Step>, AllocError>
    ensures { IfOk result (λ step. option_map step_of step ≡ spec.combined_of (map (λ word. word.now) conclusion.now) (map (λ word. word.now) sums.now)) }
{
    let Some(conclusion) = literals(alloc, conclusion)? else {
        return Ok(None);
    };
    let Some(combinations) = combinations(alloc, sums)? else {
        return Ok(None);
    };
    Ok(Some(Step::Linear {
        conclusion,
        combinations,
    }))
}

fn linear(alloc: Global, words: &[&[u8]]) -> Result<Option<Step>, AllocError>
    ensures { IfOk result (λ step. option_map step_of step ≡ spec.linear_of (map (λ word. word.now) words.now)) }
{
    match colon(words) {
        Some(at) => combined(alloc, &words[..at], &words[at + 1..]),
        None => Ok(None),
    }
}

fn split(words: &[&[u8]]) -> Option<Step>
    ensures { option_map step_of result ≡ spec.split_of (map (λ word. word.now) words.now) }
{
    match words {
        [node, bound] => Some(Step::Split {
            node: index(node)?,
            bound: integer(bound)?,
        }),
        _ => None,
    }
}

fn made(alloc: Global, op: Option<Op>, words: &[&[u8]]) -> Result<Option<Step>, AllocError>
    ensures { IfOk result (λ step. option_map step_of step ≡ spec.made_of op (map (λ word. word.now) words.now)) }
{
    let Some(op) = op else {
        return Ok(None);
    };
    let Some(parts) = indices(alloc, words)? else {
        return Ok(None);
    };
    Ok(Some(Step::Make(Node { op, parts })))
}

/// The operation of a number.
fn number_op(word: &[u8]) -> Option<Op>
    ensures { result ≡ option_map (λ n. Op.Number n) (integer_of word.now) }
{
    match integer(word) {
        Some(number) => Some(Op::Number(number)),
        None => None,
    }
}

fn number_made(alloc: Global, words: &[&[u8]]) -> Result<Option<Step>, AllocError>
    ensures { IfOk result (λ step. option_map step_of step ≡ spec.number_made_of (map (λ word. word.now) words.now)) }
{
    match words {
        [] => Ok(None),
        [number, others @ ..] => made(alloc, number_op(number), others),
    }
}

fn make(alloc: Global, names: &[String], words: &[&[u8]]) -> Result<Option<Step>, AllocError>
    ensures { IfOk result (λ step. option_map step_of step ≡ spec.make_of (names_of names.now) (map (λ word. word.now) words.now)) }
{
    let [word, others @ ..] = words else {
        return Ok(None);
    };
    if *word == b"num".as_slice() {
        number_made(alloc, others)
    } else {
        made(alloc, op(names, word), others)
    }
}

fn by_letter(
    alloc: Global,
    names: &[String],
    letter: u8,
    words: &[&[u8]],
) -> Result<Option<Step>, AllocError>
    ensures { IfOk result (λ step. option_map step_of step ≡ spec.by_letter (names_of names.now) letter (map (λ word. word.now) words.now)) }
{
    match letter {
        b'h' => Ok(hypothesis(words)),
        b'g' => Ok(goal(words)),
        b'x' => Ok(connective(words)),
        b'a' => schema(alloc, words),
        b'u' => propagation(alloc, words),
        b'e' => congruence(alloc, words),
        b'l' => linear(alloc, words),
        b's' => Ok(split(words)),
        b'n' => make(alloc, names, words),
        _ => Ok(None),
    }
}

fn of_words(alloc: Global, names: &[String], words: &[&[u8]]) -> Result<Option<Step>, AllocError>
    ensures { IfOk result (λ step. option_map step_of step ≡ spec.step_of_words (names_of names.now) (map (λ word. word.now) words.now)) }
{
    match words {
        [[letter], others @ ..] => by_letter(alloc, names, *letter, others),
        _ => Ok(None),
    }
}

/// The step of a line, if it is one of a step.
pub fn step(alloc: Global, names: &[String], line: &[u8]) -> Result<Option<Step>, AllocError>
    ensures { IfOk result (λ step. option_map step_of step ≡ spec.read_step (names_of names.now) line.now) }
{
    let words = parts(alloc, line, b' ')?;
    of_words(alloc, names, &words)
}
