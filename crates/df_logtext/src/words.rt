//! Words that are read.

ghost use Rattle.std.specs.Prelude.{◌≡◌, ◌==◌, ◌+◌, ◌<◌, ◌^◌, Some, [], map, drop, take, position, length, codes, IfOk, IfSome, OnOk};
ghost use Rattle.std.specs.Option.{option_map};
ghost use Rattle.std.specs.List.{find};
ghost use Rattle.df_base.specs.Names.{same_text};
ghost use Rattle.df_form.specs.Log.{combination_of};
ghost use Rattle.df_form.specs.Symbol.{entry_of};
ghost use Rattle.df_form.specs.Node.{test_of};
ghost use Rattle.df_logtext.specs.Numeral.{integer_of};
ghost use Rattle.df_logtext.specs.Words as spec;
ghost use Rattle.df_logtext.specs.View.{names_of};

use crate::number::{integer, number};
use crate::parting::parts;
use df_form::{
    Combination, Lit, Multiple, Op, Pair, Payload, PayloadKind, Symbol, SymbolEntry, symbols,
};
use df_lang::Ty;
use std::alloc::{AllocError, Global};

/// The number of a node, a clause, a row or a hypothesis.
pub fn index(word: &[u8]) -> Option<usize>
    ensures { result ≡ spec.index_of word.now }
{
    Some(number(1 << 64, word)? as usize)
}

/// Such numbers, if each word is one.
pub fn indices(alloc: Global, words: &[&[u8]]) -> Result<Option<Vec<usize>>, AllocError>
    ensures { IfOk result (λ found. option_map (λ numbers. numbers.items) found ≡ spec.indices_of (map (λ word. word.now) words.now)) }
{
    let mut numbers = Vec::new(alloc);
    for word in words {
        let Some(number) = index(word) else {
            return Ok(None);
        };
        numbers.push(number)?;
    }
    Ok(Some(numbers))
}

#[tactic(auto, unfolding(crate::specs::Words::literal_of))]
fn literal(word: &[u8]) -> Option<Lit>
    ensures { result ≡ spec.literal_of word.now }
{
    match word {
        [b'+', digits @ ..] => Some(Lit {
            positive: true,
            node: index(digits)?,
        }),
        [b'-', digits @ ..] => Some(Lit {
            positive: false,
            node: index(digits)?,
        }),
        _ => None,
    }
}

/// Literals, if each word is one.
pub fn literals(alloc: Global, words: &[&[u8]]) -> Result<Option<Vec<Lit>>, AllocError>
    ensures { IfOk result (λ found. option_map (λ literals. literals.items) found ≡ spec.literals_of (map (λ word. word.now) words.now)) }
{
    let mut literals = Vec::new(alloc);
    for word in words {
        let Some(literal) = literal(word) else {
            return Ok(None);
        };
        literals.push(literal)?;
    }
    Ok(Some(literals))
}

fn pair(left: &[u8], right: &[u8]) -> Option<Pair>
    ensures { result ≡ spec.pair_of (spec.index_of left.now) (spec.index_of right.now) }
{
    Some(Pair {
        left: index(left)?,
        right: index(right)?,
    })
}

/// Pairs, if the words are two numbers for each.
pub fn pairs(alloc: Global, words: &[&[u8]]) -> Result<Option<Vec<Pair>>, AllocError>
    ensures { IfOk result (λ found. option_map (λ pairs. pairs.items) found ≡ spec.pairs_from [] (map (λ word. word.now) words.now)) }
{
    let mut pairs = Vec::new(alloc);
    let mut rest = words;
    while let [left, right, others @ ..] = rest {
        let Some(pair) = pair(left, right) else {
            return Ok(None);
        };
        pairs.push(pair)?;
        rest = others;
    }
    if rest.is_empty() {
        Ok(Some(pairs))
    } else {
        Ok(None)
    }
}

/// Where the first `*` stands.
fn star(word: &[u8]) -> Option<usize>
    ensures at { result ≡ spec.place_from (λ b. b == 42) 0 word.now }
    ensures within { IfSome result (λ at. at < length word.now) }
{
    for (at, byte) in word.iter().enumerate() {
        if *byte == b'*' {
            return Some(at);
        }
    }
    None
}

fn product(factor: &[u8], row: &[u8]) -> Option<Multiple>
    ensures { result ≡ spec.product_of (integer_of factor.now) (spec.index_of row.now) }
{
    Some(Multiple {
        factor: integer(factor)?,
        row: index(row)?,
    })
}

#[tactic(auto, unfolding(crate::specs::Words::multiple_of))]
fn multiple(word: &[u8]) -> Option<Multiple>
    ensures { result ≡ spec.multiple_of word.now }
{
    match star(word) {
        Some(at) => product(&word[..at], &word[at + 1..]),
        None => None,
    }
}

fn multiples(alloc: Global, words: &[&[u8]]) -> Result<Option<Vec<Multiple>>, AllocError>
    ensures { IfOk result (λ found. option_map (λ multiples. multiples.items) found ≡ spec.each_from spec.multiple_of [] (map (λ word. word.now) words.now)) }
{
    let mut multiples = Vec::new(alloc);
    for word in words {
        let Some(multiple) = multiple(word) else {
            return Ok(None);
        };
        multiples.push(multiple)?;
    }
    Ok(Some(multiples))
}

fn sum(alloc: Global, word: &[u8]) -> Result<Option<Vec<Multiple>>, AllocError>
    ensures { IfOk result (λ found. option_map (λ multiples. multiples.items) found ≡ spec.sum_of word.now) }
{
    let words = parts(alloc, word, b'+')?;
    multiples(alloc, &words)
}

/// Adds the combination of a divisor behind which no sum stands, if there is one.
fn add_divisor(
    alloc: Global,
    combinations: &mut Vec<Combination>,
    divisor: Option<i128>,
) -> Result<(), AllocError>
    ensures { OnOk result (map combination_of combinations.new.items ≡ spec.with_divisor (map combination_of combinations.old.items) divisor) }
{
    let Some(divisor) = divisor else {
        return Ok(());
    };
    combinations.push(Combination {
        divisor,
        members: Vec::new(alloc),
    })?;
    Ok(())
}

/// Combinations of rows, if the words are divisors and sums.
pub fn combinations(alloc: Global, words: &[&[u8]]) -> Result<Option<Vec<Combination>>, AllocError>
    ensures { IfOk result (λ found. option_map (λ combinations. map combination_of combinations.items) found ≡ spec.combinations_from [] None (map (λ word. word.now) words.now)) }
{
    let mut combinations = Vec::new(alloc);
    let mut divisor = None;
    for word in words {
        if let Some(next) = integer(word) {
            add_divisor(alloc, &mut combinations, divisor)?;
            divisor = Some(next);
            continue;
        }
        let Some(before) = divisor else {
            return Ok(None);
        };
        let Some(members) = sum(alloc, word)? else {
            return Ok(None);
        };
        combinations.push(Combination {
            divisor: before,
            members,
        })?;
        divisor = None;
    }
    add_divisor(alloc, &mut combinations, divisor)?;
    Ok(Some(combinations))
}

/// The number of a name.
fn number_of_name(names: &[String], name: &[u8]) -> Option<usize>
    ensures { result ≡ spec.place_from (λ other. same_text other name.now) 0 (names_of names.now) }
{
    for (number, other) in names.iter().enumerate() {
        if other.as_bytes() == name {
            return Some(number);
        }
    }
    None
}

/// A type that no program declares, by its word.
#[tactic(auto, unfolding(crate::specs::Words::known_type_of))]
fn known_type(word: &[u8]) -> Option<Ty>
    ensures { result ≡ spec.known_type_of word.now }
{
    if word == b"int".as_slice() {
        Some(Ty::Int)
    } else if word == b"nat".as_slice() {
        Some(Ty::Nat)
    } else if word == b"bool".as_slice() {
        Some(Ty::Bool)
    } else if word == b"char".as_slice() {
        Some(Ty::Char)
    } else {
        None
    }
}

/// The newtype of a name.
fn newtype(names: &[String], name: &[u8]) -> Option<Ty>
    ensures { result ≡ spec.newtype_of (names_of names.now) name.now }
{
    match number_of_name(names, name) {
        Some(number) => Some(Ty::Newtype(number)),
        None => None,
    }
}

/// The type of a name.
#[tactic(auto, unfolding(crate::specs::Words::type_of))]
fn ty(names: &[String], name: &[u8]) -> Option<Ty>
    ensures { result ≡ spec.type_of (names_of names.now) name.now }
{
    match known_type(name) {
        Some(ty) => Some(ty),
        None => newtype(names, name),
    }
}

/// The operation that tests the type of a name.
fn type_test(names: &[String], name: &[u8]) -> Option<Op>
    ensures { result ≡ option_map test_of (spec.type_of (names_of names.now) name.now) }
{
    match ty(names, name) {
        Some(ty) => Some(Op::Of(Symbol::Is, Payload::Type(ty))),
        None => None,
    }
}

/// A sum or a product, by its word.
#[tactic(auto, unfolding(crate::specs::Words::term_op_of))]
fn term_op(word: &[u8]) -> Option<Op>
    ensures { result ≡ spec.term_op_of word.now }
{
    if word == b"plus".as_slice() {
        Some(Op::Plus)
    } else if word == b"times".as_slice() {
        Some(Op::Times)
    } else {
        None
    }
}

/// The operation of a word that makes a truth, but for tests of types.
#[tactic(auto, unfolding(crate::specs::Words::formula_op_of))]
fn formula_op(word: &[u8]) -> Option<Op>
    ensures { result ≡ spec.formula_op_of word.now }
{
    if word == b"eq".as_slice() {
        Some(Op::Equal)
    } else if word == b"le".as_slice() {
        Some(Op::AtMost)
    } else if word == b"not".as_slice() {
        Some(Op::Not)
    } else if word == b"and".as_slice() {
        Some(Op::And)
    } else if word == b"or".as_slice() {
        Some(Op::Or)
    } else if word == b"imp".as_slice() {
        Some(Op::Implies)
    } else if word == b"iff".as_slice() {
        Some(Op::Iff)
    } else {
        None
    }
}

/// The operation of a word that is the same for each type.
#[tactic(auto, unfolding(crate::specs::Words::plain_op_of))]
fn plain_op(word: &[u8]) -> Option<Op>
    ensures { result ≡ spec.plain_op_of word.now }
{
    match term_op(word) {
        Some(op) => Some(op),
        None => formula_op(word),
    }
}

fn is_bare(kind: PayloadKind) -> bool
    ensures { result ≡ spec.is_bare kind }
{
    match kind {
        PayloadKind::Nothing => true,
        PayloadKind::Type => false,
    }
}

fn is_bare_row(word: &[u8], row: &SymbolEntry) -> bool
    ensures { result ≡ spec.is_bare_row word.now (entry_of row.now) }
{
    is_bare(row.payload) && word == row.word
}

fn find_bare<'a>(rows: &'a [SymbolEntry], word: &[u8]) -> Option<&'a SymbolEntry>
    ensures { option_map (λ row. entry_of row.now) result ≡ find (spec.is_bare_row word.now) (map entry_of rows.now) }
{
    for row in rows {
        if is_bare_row(word, row) {
            return Some(row);
        }
    }
    None
}

/// The symbol of a word, if nothing stands with it.
fn bare_op(word: &[u8]) -> Option<Op>
    ensures { result ≡ spec.bare_op_of word.now }
{
    match find_bare(symbols(), word) {
        Some(row) => Some(Op::Of(row.symbol, Payload::Nothing)),
        None => None,
    }
}

/// The operation of a word that names no type, and else of one that does.
fn symbol_op(names: &[String], word: &[u8]) -> Option<Op>
    ensures { result ≡ spec.found_or (spec.bare_op_of word.now) (λ op. Some op) (spec.typed_op_of (names_of names.now) word.now) }
{
    match bare_op(word) {
        Some(op) => Some(op),
        None => typed_op(names, word),
    }
}

#[tactic(auto, unfolding(crate::specs::Words::typed_op_of))]
fn typed_op(names: &[String], word: &[u8]) -> Option<Op>
    ensures { result ≡ spec.typed_op_of (names_of names.now) word.now }
{
    if word.starts_with(b"is:") {
        type_test(names, &word[3..])
    } else {
        None
    }
}

/// The operation of a word, but for `num`.
#[tactic(auto, unfolding(crate::specs::Words::op_of))]
pub fn op(names: &[String], word: &[u8]) -> Option<Op>
    ensures { result ≡ spec.op_of (names_of names.now) word.now }
{
    match plain_op(word) {
        Some(op) => Some(op),
        None => symbol_op(names, word),
    }
}
