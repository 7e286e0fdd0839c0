//! Terminals of the grammar: what a token is, without what it says.

ghost use Rattle.std.specs.Prelude.{◌≡◌};
ghost use Rattle.df_tree.specs.Terminal as spec;

use df_tok::{Kind, Sign, Word};

pub const NAME: u8 = 0;

pub const OUTSIDE: u8 = 1;

pub const WILDCARD: u8 = 2;

pub const NUMBER: u8 = 3;

pub const CHARACTER: u8 = 4;

pub const TEXT: u8 = 5;

pub const ARRAY: u8 = 6;

pub const ARRAY_OR_NULL: u8 = 7;

pub const AS: u8 = 8;

pub const ASSERT: u8 = 9;

pub const BOOL: u8 = 10;

pub const BREAK: u8 = 11;

pub const BY: u8 = 12;

pub const CALC: u8 = 13;

pub const CASE: u8 = 14;

pub const CHAR: u8 = 15;

pub const CLASS: u8 = 16;

pub const CONSTRUCTOR: u8 = 17;

pub const DATATYPE: u8 = 18;

pub const DECREASES: u8 = 19;

pub const ELSE: u8 = 20;

pub const ENSURES: u8 = 21;

pub const EXISTS: u8 = 22;

pub const FALSE: u8 = 23;

pub const FORALL: u8 = 24;

pub const FRESH: u8 = 25;

pub const FUNCTION: u8 = 26;

pub const GHOST: u8 = 27;

pub const IF: u8 = 28;

pub const IMPORT: u8 = 29;

pub const IN: u8 = 30;

pub const INT: u8 = 31;

pub const INVARIANT: u8 = 32;

pub const LEMMA: u8 = 33;

pub const MATCH: u8 = 34;

pub const METHOD: u8 = 35;

pub const MODIFIES: u8 = 36;

pub const MODULE: u8 = 37;

pub const NAT: u8 = 38;

pub const NEW: u8 = 39;

pub const NEWTYPE: u8 = 40;

pub const NULL: u8 = 41;

pub const OBJECT: u8 = 42;

pub const OBJECT_OR_NULL: u8 = 43;

pub const OLD: u8 = 44;

pub const OPENED: u8 = 45;

pub const PREDICATE: u8 = 46;

pub const PRINT: u8 = 47;

pub const READS: u8 = 48;

pub const REQUIRES: u8 = 49;

pub const RETURN: u8 = 50;

pub const RETURNS: u8 = 51;

pub const SEQ: u8 = 52;

pub const SET: u8 = 53;

pub const STRING: u8 = 54;

pub const THEN: u8 = 55;

pub const THIS: u8 = 56;

pub const TRUE: u8 = 57;

pub const VAR: u8 = 58;

pub const WHILE: u8 = 59;

pub const WITNESS: u8 = 60;

pub const IFF: u8 = 61;

pub const IMPLIES: u8 = 62;

pub const EXPLIES: u8 = 63;

pub const AND: u8 = 64;

pub const OR: u8 = 65;

pub const EQUAL: u8 = 66;

pub const NOT_EQUAL: u8 = 67;

pub const AT_MOST: u8 = 68;

pub const AT_LEAST: u8 = 69;

pub const LESS: u8 = 70;

pub const GREATER: u8 = 71;

pub const NOT_IN: u8 = 72;

pub const DISJOINT: u8 = 73;

pub const NOT: u8 = 74;

pub const PLUS: u8 = 75;

pub const MINUS: u8 = 76;

pub const TIMES: u8 = 77;

pub const DIVIDE: u8 = 78;

pub const MODULO: u8 = 79;

pub const ASSIGN: u8 = 80;

pub const SUCH_THAT: u8 = 81;

pub const DOUBLE_COLON: u8 = 82;

pub const COLON: u8 = 83;

pub const SEMICOLON: u8 = 84;

pub const COMMA: u8 = 85;

pub const DOT_DOT: u8 = 86;

pub const DOT: u8 = 87;

pub const OPEN_PARENTHESIS: u8 = 88;

pub const CLOSE_PARENTHESIS: u8 = 89;

pub const OPEN_BRACKET: u8 = 90;

pub const CLOSE_BRACKET: u8 = 91;

pub const OPEN_ATTRIBUTE: u8 = 92;

pub const OPEN_BRACE: u8 = 93;

pub const CLOSE_BRACE: u8 = 94;

pub const BAR: u8 = 95;

pub const ARROW: u8 = 96;

pub const DEFINE: u8 = 97;

fn of_word(word: Word) -> u8
    ensures { result ≡ spec.of_word word }
{
    match word {
        Word::Array => ARRAY,
        Word::ArrayOrNull => ARRAY_OR_NULL,
        Word::As => AS,
        Word::Assert => ASSERT,
        Word::Bool => BOOL,
        Word::Break => BREAK,
        Word::By => BY,
        Word::Calc => CALC,
        Word::Case => CASE,
        Word::Char => CHAR,
        Word::Class => CLASS,
        Word::Constructor => CONSTRUCTOR,
        Word::Datatype => DATATYPE,
        Word::Decreases => DECREASES,
        Word::Else => ELSE,
        Word::Ensures => ENSURES,
        Word::Exists => EXISTS,
        Word::False => FALSE,
        Word::Forall => FORALL,
        Word::Fresh => FRESH,
        Word::Function => FUNCTION,
        Word::Ghost => GHOST,
        Word::If => IF,
        Word::Import => IMPORT,
        Word::In => IN,
        Word::Int => INT,
        Word::Invariant => INVARIANT,
        Word::Lemma => LEMMA,
        Word::Match => MATCH,
        Word::Method => METHOD,
        Word::Modifies => MODIFIES,
        Word::Module => MODULE,
        Word::Nat => NAT,
        Word::New => NEW,
        Word::Newtype => NEWTYPE,
        Word::Null => NULL,
        Word::Object => OBJECT,
        Word::ObjectOrNull => OBJECT_OR_NULL,
        Word::Old => OLD,
        Word::Opened => OPENED,
        Word::Predicate => PREDICATE,
        Word::Print => PRINT,
        Word::Reads => READS,
        Word::Requires => REQUIRES,
        Word::Return => RETURN,
        Word::Returns => RETURNS,
        Word::Seq => SEQ,
        Word::Set => SET,
        Word::String => STRING,
        Word::Then => THEN,
        Word::This => THIS,
        Word::True => TRUE,
        Word::Var => VAR,
        Word::While => WHILE,
        Word::Witness => WITNESS,
    }
}

fn of_sign(sign: Sign) -> u8
    ensures { result ≡ spec.of_sign sign }
{
    match sign {
        Sign::Iff => IFF,
        Sign::Implies => IMPLIES,
        Sign::Explies => EXPLIES,
        Sign::And => AND,
        Sign::Or => OR,
        Sign::Equal => EQUAL,
        Sign::NotEqual => NOT_EQUAL,
        Sign::AtMost => AT_MOST,
        Sign::AtLeast => AT_LEAST,
        Sign::Less => LESS,
        Sign::Greater => GREATER,
        Sign::NotIn => NOT_IN,
        Sign::Disjoint => DISJOINT,
        Sign::Not => NOT,
        Sign::Plus => PLUS,
        Sign::Minus => MINUS,
        Sign::Times => TIMES,
        Sign::Divide => DIVIDE,
        Sign::Modulo => MODULO,
        Sign::Assign => ASSIGN,
        Sign::SuchThat => SUCH_THAT,
        Sign::DoubleColon => DOUBLE_COLON,
        Sign::Colon => COLON,
        Sign::Semicolon => SEMICOLON,
        Sign::Comma => COMMA,
        Sign::DotDot => DOT_DOT,
        Sign::Dot => DOT,
        Sign::OpenParenthesis => OPEN_PARENTHESIS,
        Sign::CloseParenthesis => CLOSE_PARENTHESIS,
        Sign::OpenBracket => OPEN_BRACKET,
        Sign::CloseBracket => CLOSE_BRACKET,
        Sign::OpenAttribute => OPEN_ATTRIBUTE,
        Sign::OpenBrace => OPEN_BRACE,
        Sign::CloseBrace => CLOSE_BRACE,
        Sign::Bar => BAR,
        Sign::Arrow => ARROW,
        Sign::Define => DEFINE,
    }
}

/// The terminal of a token of the kind.
pub fn terminal_of(kind: Kind) -> u8
    ensures { result ≡ spec.terminal_of kind }
{
    match kind {
        Kind::Name(_) => NAME,
        Kind::Outside(_) => OUTSIDE,
        Kind::Wildcard => WILDCARD,
        Kind::Number(_) => NUMBER,
        Kind::Character(_) => CHARACTER,
        Kind::Text => TEXT,
        Kind::Word(word) => of_word(word),
        Kind::Sign(sign) => of_sign(sign),
    }
}
