//! The words of the language, and those of Dafny that are outside it.

ghost use Rattle.std.specs.Prelude.{◌≡◌, ◌≤◌, MatchBool, MatchOption, length, nat_eq};
ghost use Rattle.std.specs.Cmp.Lexicographic.{pointwise};
ghost use Rattle.std.specs.List.{find, list_any, prefix_len};
ghost use Rattle.df_tok.specs.Byte as spec;
ghost use Rattle.df_tok.specs.Word.{word_text};
ghost use Rattle.df_tok.specs.Lexeme.{IsWord};
ghost use Rattle.df_tok.specs.Outside.{IsOutside, outside_words};
ghost use Rattle.df_tok.specs.Scanning as scanning;

use crate::byte::is_digit;

/// A word of the language, which no name may be.
#[derive(Clone, Copy, PartialEq, Eq)]
pub enum Word {
    Array,
    ArrayOrNull,
    As,
    Assert,
    Bool,
    Break,
    By,
    Calc,
    Case,
    Char,
    Class,
    Constructor,
    Datatype,
    Decreases,
    Else,
    Ensures,
    Exists,
    False,
    Forall,
    Fresh,
    Function,
    Ghost,
    If,
    Import,
    In,
    Int,
    Invariant,
    Lemma,
    Match,
    Method,
    Modifies,
    Module,
    Nat,
    New,
    Newtype,
    Null,
    Object,
    ObjectOrNull,
    Old,
    Opened,
    Predicate,
    Print,
    Reads,
    Requires,
    Return,
    Returns,
    Seq,
    Set,
    String,
    Then,
    This,
    True,
    Var,
    While,
    Witness,
}

const WORDS: [Word; 55] = [
    Word::Array,
    Word::ArrayOrNull,
    Word::As,
    Word::Assert,
    Word::Bool,
    Word::Break,
    Word::By,
    Word::Calc,
    Word::Case,
    Word::Char,
    Word::Class,
    Word::Constructor,
    Word::Datatype,
    Word::Decreases,
    Word::Else,
    Word::Ensures,
    Word::Exists,
    Word::False,
    Word::Forall,
    Word::Fresh,
    Word::Function,
    Word::Ghost,
    Word::If,
    Word::Import,
    Word::In,
    Word::Int,
    Word::Invariant,
    Word::Lemma,
    Word::Match,
    Word::Method,
    Word::Modifies,
    Word::Module,
    Word::Nat,
    Word::New,
    Word::Newtype,
    Word::Null,
    Word::Object,
    Word::ObjectOrNull,
    Word::Old,
    Word::Opened,
    Word::Predicate,
    Word::Print,
    Word::Reads,
    Word::Requires,
    Word::Return,
    Word::Returns,
    Word::Seq,
    Word::Set,
    Word::String,
    Word::Then,
    Word::This,
    Word::True,
    Word::Var,
    Word::While,
    Word::Witness,
];

impl Word {
    /// How it is written.
    pub fn text(self) -> &'static [u8]
        ensures { result.now ≡ word_text self }
    {
        match self {
            Word::Array => b"array",
            Word::ArrayOrNull => b"array?",
            Word::As => b"as",
            Word::Assert => b"assert",
            Word::Bool => b"bool",
            Word::Break => b"break",
            Word::By => b"by",
            Word::Calc => b"calc",
            Word::Case => b"case",
            Word::Char => b"char",
            Word::Class => b"class",
            Word::Constructor => b"constructor",
            Word::Datatype => b"datatype",
            Word::Decreases => b"decreases",
            Word::Else => b"else",
            Word::Ensures => b"ensures",
            Word::Exists => b"exists",
            Word::False => b"false",
            Word::Forall => b"forall",
            Word::Fresh => b"fresh",
            Word::Function => b"function",
            Word::Ghost => b"ghost",
            Word::If => b"if",
            Word::Import => b"import",
            Word::In => b"in",
            Word::Int => b"int",
            Word::Invariant => b"invariant",
            Word::Lemma => b"lemma",
            Word::Match => b"match",
            Word::Method => b"method",
            Word::Modifies => b"modifies",
            Word::Module => b"module",
            Word::Nat => b"nat",
            Word::New => b"new",
            Word::Newtype => b"newtype",
            Word::Null => b"null",
            Word::Object => b"object",
            Word::ObjectOrNull => b"object?",
            Word::Old => b"old",
            Word::Opened => b"opened",
            Word::Predicate => b"predicate",
            Word::Print => b"print",
            Word::Reads => b"reads",
            Word::Requires => b"requires",
            Word::Return => b"return",
            Word::Returns => b"returns",
            Word::Seq => b"seq",
            Word::Set => b"set",
            Word::String => b"string",
            Word::Then => b"then",
            Word::This => b"this",
            Word::True => b"true",
            Word::Var => b"var",
            Word::While => b"while",
            Word::Witness => b"witness",
        }
    }
}

/// The first of these words that is written so.
fn first_of(text: &[u8], words: &[Word]) -> Option<Word>
    ensures { result ≡ find (scanning.is_written text.now) words.now }
{
    for word in words {
        if text == word.text() {
            return Some(*word);
        }
    }
    None
}

/// The word that is written so.
pub fn word_of(text: &[u8]) -> Option<Word>
    ensures { MatchOption result (¬ IsWord text.now) (λ word. text.now ≡ word_text word) }
{
    first_of(text, &WORDS)
}

/// The words of Dafny that are outside the language, but for those with digits.
const OUTSIDE: [&[u8]; 37] = [
    b"abstract",
    b"allocated",
    b"assume",
    b"codatatype",
    b"const",
    b"continue",
    b"copredicate",
    b"expect",
    b"export",
    b"extends",
    b"for",
    b"greatest",
    b"imap",
    b"include",
    b"is",
    b"iset",
    b"iterator",
    b"label",
    b"least",
    b"map",
    b"modify",
    b"multiset",
    b"nameonly",
    b"opaque",
    b"ORDINAL",
    b"provides",
    b"real",
    b"refines",
    b"reveal",
    b"reveals",
    b"static",
    b"trait",
    b"twostate",
    b"type",
    b"unchanged",
    b"yield",
    b"yields",
];

/// Whether a text is one of these.
fn is_listed(text: &[u8], words: &[&[u8]]) -> bool
    ensures { result ≡ list_any (λ word. pointwise nat_eq text.now word.now) words.now }
{
    for word in words {
        if text == *word {
            return true;
        }
    }
    false
}

/// Whether a text is one of the words outside the language without digits.
fn is_outside_word(text: &[u8]) -> bool
    ensures { result ≡ list_any (pointwise nat_eq text.now) outside_words }
{
    is_listed(text, &OUTSIDE)
}

/// How many digits stand at the front.
fn digits_len(bytes: &[u8]) -> usize
    ensures len { result ≡ prefix_len spec.is_digit bytes.now }
    ensures within { result ≤ length bytes.now }
{
    let mut n = 0;
    for b in bytes {
        if !is_digit(*b) {
            return n;
        }
        n += 1;
    }
    n
}

/// Whether these are digits, at least one, and nothing else.
fn are_digits(bytes: &[u8]) -> bool
    ensures { result ≡ scanning.are_only_digits bytes.now }
{
    let n = digits_len(bytes);
    0 < n && n == bytes.len()
}

/// Whether these are digits, at least one, and then nothing else or `?`.
fn are_array_digits(bytes: &[u8]) -> bool
    ensures { result ≡ scanning.are_array_digits bytes.now }
{
    let n = digits_len(bytes);
    0 < n && (n == bytes.len() || bytes[n..].starts_with(b"?") && n + 1 == bytes.len())
}

/// Whether a text is listed, or is `bv` or `array` and digits.
fn has_outside_form(text: &[u8]) -> bool
    ensures { result ≡ scanning.is_outside text.now }
{
    is_outside_word(text)
        || (text.starts_with(b"bv") && are_digits(&text[2..]))
        || (text.starts_with(b"array") && are_array_digits(&text[5..]))
}

/// Whether a text is a word of Dafny that is outside the language.
pub fn is_outside(text: &[u8]) -> bool
    ensures { MatchBool result (IsOutside text.now) (¬ IsOutside text.now) }
{
    has_outside_form(text)
}
