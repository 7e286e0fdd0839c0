//! Lines of steps that are written.

ghost use Rattle.std.specs.Prelude.{◌≡◌, ◌<◌, ◌^◌, ◌++◌, ◌∷◌, [], map, slice_get, unwrap_or, codes, OnOk};
ghost use Rattle.std.specs.List.{flat_map, AllByRecursion};
ghost use Rattle.std.specs.Fmt.{decimal, signed_decimal};
ghost use Rattle.df_form.specs.Log.{step_of, combination_of};
ghost use Rattle.df_form.specs.Node.{node_of};
ghost use Rattle.df_logtext.specs.HasText.{IsIndex, IsWide, HasLiteral, HasPair, HasCombination, HasNumber, HasNumbers};
ghost use Rattle.df_logtext.specs.Joined.{behind};
ghost use Rattle.df_logtext.specs.StepText.{literal_word, pair_words, combination_words, type_name, word_of, payload_word, op_word, op_number, node_words, letter as letter_of, arguments, step_line};
ghost use Rattle.df_logtext.specs.LogText.{ended};
ghost use Rattle.df_logtext.specs.View.{names_of};
ghost use Rattle.df_logtext.specs.Writes.{Writes};

use crate::word::{
    push_combinations, push_integer, push_literals, push_number, push_numbers, push_pairs,
    push_word,
};
use df_form::{Combination, Lit, Node, Op, Pair, Payload, Step, Symbol};
use df_lang::Ty;
use std::alloc::AllocError;

/// The name of a declaration, or an empty one where there is none of its number.
fn name_at(names: &[String], number: usize) -> &str
    ensures { result.now ≡ unwrap_or (slice_get (names_of names.now) number) [] }
{
    match names.get(number) {
        Some(name) => name.as_str(),
        None => "",
    }
}

/// The name of a type, or an empty one where there is no declaration of its number.
fn type_name(names: &[String], ty: Ty) -> &str
    ensures { result.now ≡ type_name (names_of names.now) ty }
{
    match ty {
        Ty::Newtype(number) => name_at(names, number),
        Ty::Int => "int",
        Ty::Nat => "nat",
        Ty::Bool => "bool",
        Ty::Char => "char",
    }
}

/// The word of a symbol.
fn word_of(symbol: Symbol) -> &'static [u8]
    ensures { result.now ≡ word_of symbol }
{
    match symbol.row() {
        Some(row) => row.word,
        None => b"",
    }
}

/// What stands with a symbol, behind its word.
fn push_payload(text: &mut Vec<u8>, names: &[String], payload: Payload) -> Result<(), AllocError>
    ensures { OnOk result (text.new.items ≡ text.old.items ++ payload_word (names_of names.now) payload) }
{
    match payload {
        Payload::Nothing => Ok(()),
        Payload::Type(ty) => {
            text.extend_from_slice(b":")?;
            text.extend_from_slice(type_name(names, ty).as_bytes())?;
            Ok(())
        }
    }
}

fn push_symbol(
    text: &mut Vec<u8>,
    names: &[String],
    symbol: Symbol,
    payload: Payload,
) -> Result<(), AllocError>
    ensures { OnOk result (text.new.items ≡ text.old.items ++ behind 32 (op_word (names_of names.now) (Op.Of symbol payload) ∷ [])) }
{
    push_word(text, word_of(symbol))?;
    push_payload(text, names, payload)
}

fn push_op(text: &mut Vec<u8>, names: &[String], op: Op) -> Result<(), AllocError>
    ensures { OnOk result (Writes text.old.items text.new.items (behind 32 (op_word (names_of names.now) op ∷ op_number op)) (HasNumber op)) }
{
    match op {
        Op::Number(number) => {
            push_word(text, b"num")?;
            push_integer(text, number)
        }
        Op::Free(_) => push_word(text, b""),
        Op::Plus => push_word(text, b"plus"),
        Op::Times => push_word(text, b"times"),
        Op::Equal => push_word(text, b"eq"),
        Op::AtMost => push_word(text, b"le"),
        Op::Not => push_word(text, b"not"),
        Op::And => push_word(text, b"and"),
        Op::Or => push_word(text, b"or"),
        Op::Implies => push_word(text, b"imp"),
        Op::Iff => push_word(text, b"iff"),
        Op::Of(symbol, payload) => push_symbol(text, names, symbol, payload),
    }
}

fn push_node(text: &mut Vec<u8>, names: &[String], node: &Node) -> Result<(), AllocError>
    ensures { OnOk result (Writes text.old.items text.new.items (behind 32 (node_words (names_of names.now) (node_of node.now))) (HasNumber node.now.op × AllByRecursion IsIndex node.now.parts.items)) }
{
    push_op(text, names, node.op)?;
    push_numbers(text, &node.parts)
}

fn push_schema(
    text: &mut Vec<u8>,
    schema: u8,
    clause: u32,
    terms: &[usize],
) -> Result<(), AllocError>
    ensures { OnOk result (Writes text.old.items text.new.items (behind 32 (decimal schema ∷ decimal clause ∷ map decimal terms.now)) ((schema < 2 ^ 8) × (clause < 2 ^ 32) × AllByRecursion IsIndex terms.now)) }
{
    push_number(text, schema.into())?;
    push_number(text, clause.into())?;
    push_numbers(text, terms)
}

fn push_propagation(
    text: &mut Vec<u8>,
    clauses: &[usize],
    conclusion: &[Lit],
) -> Result<(), AllocError>
    ensures { OnOk result (Writes text.old.items text.new.items (behind 32 (map decimal clauses.now ++ codes ":" ∷ map literal_word conclusion.now)) (AllByRecursion IsIndex clauses.now × AllByRecursion HasLiteral conclusion.now)) }
{
    push_numbers(text, clauses)?;
    push_word(text, b":")?;
    push_literals(text, conclusion)
}

fn push_congruence(text: &mut Vec<u8>, conclusion: &[Lit], pairs: &[Pair]) -> Result<(), AllocError>
    ensures { OnOk result (Writes text.old.items text.new.items (behind 32 (map literal_word conclusion.now ++ codes ":" ∷ flat_map pair_words pairs.now)) (AllByRecursion HasLiteral conclusion.now × AllByRecursion HasPair pairs.now)) }
{
    push_literals(text, conclusion)?;
    push_word(text, b":")?;
    push_pairs(text, pairs)
}

fn push_linear(
    text: &mut Vec<u8>,
    conclusion: &[Lit],
    combinations: &[Combination],
) -> Result<(), AllocError>
    ensures { OnOk result (Writes text.old.items text.new.items (behind 32 (map literal_word conclusion.now ++ codes ":" ∷ flat_map combination_words (map combination_of combinations.now))) (AllByRecursion HasLiteral conclusion.now × AllByRecursion HasCombination (map combination_of combinations.now))) }
{
    push_literals(text, conclusion)?;
    push_word(text, b":")?;
    push_combinations(text, combinations)
}

fn push_two(text: &mut Vec<u8>, first: usize, second: usize) -> Result<(), AllocError>
    ensures { OnOk result (Writes text.old.items text.new.items (behind 32 (decimal first ∷ decimal second ∷ [])) (IsIndex first × IsIndex second)) }
{
    push_number(text, first as u64)?;
    push_number(text, second as u64)
}

fn push_split(text: &mut Vec<u8>, node: usize, bound: i128) -> Result<(), AllocError>
    ensures { OnOk result (Writes text.old.items text.new.items (behind 32 (decimal node ∷ signed_decimal bound ∷ [])) (IsIndex node × IsWide bound)) }
{
    push_number(text, node as u64)?;
    push_integer(text, bound)
}

fn letter(step: &Step) -> &'static [u8]
    ensures { result.now ≡ letter_of (step_of step.now) }
{
    match step {
        Step::Hypothesis(_) => b"h",
        Step::Goal => b"g",
        Step::Connective { .. } => b"x",
        Step::Schema { .. } => b"a",
        Step::Propagation { .. } => b"u",
        Step::Congruence { .. } => b"e",
        Step::Linear { .. } => b"l",
        Step::Split { .. } => b"s",
        Step::Make(_) => b"n",
    }
}

fn push_arguments(text: &mut Vec<u8>, names: &[String], step: &Step) -> Result<(), AllocError>
    ensures { OnOk result (Writes text.old.items text.new.items (behind 32 (arguments (names_of names.now) (step_of step.now))) (HasNumbers (step_of step.now))) }
{
    match step {
        Step::Hypothesis(number) => push_number(text, *number as u64),
        Step::Goal => Ok(()),
        Step::Connective { node, clause } => push_two(text, *node, *clause),
        Step::Schema {
            schema,
            clause,
            terms,
        } => push_schema(text, *schema, *clause, terms),
        Step::Propagation {
            clauses,
            conclusion,
        } => push_propagation(text, clauses, conclusion),
        Step::Congruence { conclusion, pairs } => push_congruence(text, conclusion, pairs),
        Step::Linear {
            conclusion,
            combinations,
        } => push_linear(text, conclusion, combinations),
        Step::Split { node, bound } => push_split(text, *node, *bound),
        Step::Make(node) => push_node(text, names, node),
    }
}

/// The line of a step.
pub fn push_step(text: &mut Vec<u8>, names: &[String], step: &Step) -> Result<(), AllocError>
    ensures { OnOk result (Writes text.old.items text.new.items (ended (step_line (names_of names.now) (step_of step.now))) (HasNumbers (step_of step.now))) }
{
    text.extend_from_slice(letter(step))?;
    push_arguments(text, names, step)?;
    text.extend_from_slice(b"\n")?;
    Ok(())
}
