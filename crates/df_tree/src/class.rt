//! Classes of terminals: those with which productions begin, and those that may stand behind them.

ghost use Rattle.std.specs.Prelude.{◌≡◌, map, [], slice_get};
ghost use Rattle.std.specs.Option.{option_map_or};
ghost use Rattle.df_tree.specs.Grammar as spec;
ghost use Rattle.df_tree.specs.Grammar.{classes};

use crate::terminal::*;

/// A class of this number or a higher one is in the list; a lower one is a terminal.
pub const FIRST_CLASS: u8 = 100;

/// No terminal: what is not tested.
pub const NONE: u8 = 255;

pub const FIRST_OF_FILE: u8 = 100;

pub const FIRST_OF_FUNCTION_DECLARATION: u8 = 101;

pub const FIRST_OF_FUNCTION_KIND: u8 = 102;

pub const FIRST_OF_FUNCTION_RESULT: u8 = 103;

pub const FIRST_OF_SOME_PARAMETERS: u8 = 104;

pub const FIRST_OF_CLAUSES: u8 = 105;

pub const FIRST_OF_TYPE: u8 = 106;

pub const FIRST_OF_BASIC_TYPE: u8 = 107;

pub const FIRST_OF_STATEMENTS: u8 = 108;

pub const FIRST_OF_VAR_STATEMENT: u8 = 109;

pub const FIRST_OF_PRIMARY_STATEMENT: u8 = 110;

pub const FIRST_OF_PRIMARY_REST: u8 = 111;

pub const FIRST_OF_ASSIGNMENT: u8 = 112;

pub const FIRST_OF_GUARDED: u8 = 113;

pub const FIRST_OF_ASSERT_END: u8 = 114;

pub const FIRST_OF_OPERAND: u8 = 115;

pub const FIRST_OF_CALC_OPERATOR: u8 = 116;

pub const FIRST_OF_IMPLICATION_REST: u8 = 117;

pub const FIRST_OF_PLAIN: u8 = 118;

pub const FIRST_OF_JUNCTION_REST: u8 = 119;

pub const FIRST_OF_COMPARISONS: u8 = 120;

pub const FIRST_OF_ADDITIONS: u8 = 121;

pub const FIRST_OF_MULTIPLICATIONS: u8 = 122;

pub const FIRST_OF_TARGET_TYPE: u8 = 123;

pub const FIRST_OF_NUMERIC_TYPE: u8 = 124;

pub const FIRST_OF_PRIMARY: u8 = 125;

pub const FIRST_OF_TRUTH_ATOM: u8 = 126;

pub const FIRST_OF_PATTERN: u8 = 127;

pub const AFTER_MAYBE_GHOST: u8 = 128;

pub const AFTER_FUNCTION_RESULT: u8 = 129;

pub const AFTER_PARAMETERS: u8 = 130;

pub const AFTER_NEXT_PARAMETER: u8 = 131;

pub const AFTER_TYPE: u8 = 132;

pub const AFTER_NAMED_TYPE: u8 = 133;

pub const AFTER_BLOCK: u8 = 134;

pub const AFTER_STATEMENT: u8 = 135;

pub const AFTER_LOCALS: u8 = 136;

pub const AFTER_GUARDED: u8 = 137;

pub const AFTER_NEXT_OPERAND: u8 = 138;

pub const AFTER_CALC_OPERATOR: u8 = 139;

pub const AFTER_CALC_LINE: u8 = 140;

pub const AFTER_EXPRESSIONS: u8 = 141;

pub const AFTER_NEXT_EXPRESSION: u8 = 142;

pub const AFTER_SOME_EXPRESSIONS: u8 = 143;

pub const AFTER_APPLICATION: u8 = 144;

/// The terminals whose tokens syntax trees keep.
pub const KEPT: u8 = 145;

/// The classes, in the order of their numbers.
const CLASSES: &[&[u8]] = &[
    // first_of_file
    &[FUNCTION, GHOST, LEMMA, METHOD, NEWTYPE, PREDICATE],
    // first_of_function_declaration
    &[FUNCTION, GHOST, PREDICATE],
    // first_of_function_kind
    &[FUNCTION, PREDICATE],
    // first_of_function_result
    &[NAME, BOOL, CHAR, INT, NAT, OPEN_PARENTHESIS],
    // first_of_some_parameters
    &[NAME, GHOST],
    // first_of_clauses
    &[DECREASES, ENSURES, INVARIANT, REQUIRES],
    // first_of_type
    &[NAME, BOOL, CHAR, INT, NAT],
    // first_of_basic_type
    &[BOOL, CHAR, INT, NAT],
    // first_of_statements
    &[
        NAME,
        NUMBER,
        CHARACTER,
        ASSERT,
        BREAK,
        CALC,
        FALSE,
        GHOST,
        IF,
        PRINT,
        RETURN,
        TRUE,
        VAR,
        WHILE,
        OPEN_PARENTHESIS,
        OPEN_BRACE,
    ],
    // first_of_var_statement
    &[GHOST, VAR],
    // first_of_primary_statement
    &[NAME, NUMBER, CHARACTER, FALSE, TRUE, OPEN_PARENTHESIS],
    // first_of_primary_rest
    &[ASSIGN, SEMICOLON, COMMA],
    // first_of_assignment
    &[ASSIGN, COMMA],
    // first_of_guarded
    &[
        NAME,
        NUMBER,
        CHARACTER,
        FALSE,
        IF,
        TRUE,
        VAR,
        AND,
        OR,
        NOT,
        MINUS,
        OPEN_PARENTHESIS,
    ],
    // first_of_assert_end
    &[BY, SEMICOLON],
    // first_of_operand
    &[
        NAME,
        NUMBER,
        CHARACTER,
        TEXT,
        FALSE,
        IF,
        TRUE,
        VAR,
        AND,
        OR,
        NOT,
        MINUS,
        OPEN_PARENTHESIS,
    ],
    // first_of_calc_operator
    &[IFF, IMPLIES, EQUAL, AT_MOST, LESS],
    // first_of_implication_rest
    &[IMPLIES, EXPLIES],
    // first_of_plain
    &[
        NAME,
        NUMBER,
        CHARACTER,
        FALSE,
        IF,
        TRUE,
        VAR,
        NOT,
        MINUS,
        OPEN_PARENTHESIS,
    ],
    // first_of_junction_rest
    &[AND, OR],
    // first_of_comparisons
    &[EQUAL, NOT_EQUAL, AT_MOST, AT_LEAST, LESS, GREATER],
    // first_of_additions
    &[PLUS, MINUS],
    // first_of_multiplications
    &[TIMES, DIVIDE, MODULO],
    // first_of_target_type
    &[NAME, CHAR, INT, NAT],
    // first_of_numeric_type
    &[CHAR, INT, NAT],
    // first_of_primary
    &[
        NAME,
        NUMBER,
        CHARACTER,
        FALSE,
        IF,
        TRUE,
        VAR,
        OPEN_PARENTHESIS,
    ],
    // first_of_truth_atom
    &[FALSE, TRUE],
    // first_of_pattern
    &[NAME, WILDCARD],
    // after_maybe_ghost
    &[NAME, FUNCTION, PREDICATE, VAR],
    // after_function_result
    &[DECREASES, ENSURES, INVARIANT, REQUIRES, OPEN_BRACE],
    // after_parameters
    &[
        DECREASES, ENSURES, INVARIANT, REQUIRES, RETURNS, COLON, OPEN_BRACE,
    ],
    // after_next_parameter
    &[COMMA, CLOSE_PARENTHESIS],
    // after_type
    &[
        DECREASES,
        ENSURES,
        INVARIANT,
        REQUIRES,
        ASSIGN,
        SEMICOLON,
        COMMA,
        CLOSE_PARENTHESIS,
        OPEN_BRACE,
    ],
    // after_named_type
    &[
        AS,
        BY,
        DECREASES,
        ELSE,
        ENSURES,
        FUNCTION,
        GHOST,
        INVARIANT,
        LEMMA,
        METHOD,
        NEWTYPE,
        PREDICATE,
        REQUIRES,
        THEN,
        WITNESS,
        IFF,
        IMPLIES,
        EXPLIES,
        AND,
        OR,
        EQUAL,
        NOT_EQUAL,
        AT_MOST,
        AT_LEAST,
        LESS,
        GREATER,
        PLUS,
        MINUS,
        TIMES,
        DIVIDE,
        MODULO,
        ASSIGN,
        SEMICOLON,
        COMMA,
        CLOSE_PARENTHESIS,
        OPEN_BRACE,
        CLOSE_BRACE,
    ],
    // after_block
    &[
        NAME,
        NUMBER,
        CHARACTER,
        ASSERT,
        BREAK,
        CALC,
        ELSE,
        FALSE,
        FUNCTION,
        GHOST,
        IF,
        LEMMA,
        METHOD,
        NEWTYPE,
        PREDICATE,
        PRINT,
        RETURN,
        TRUE,
        VAR,
        WHILE,
        AND,
        OR,
        NOT,
        MINUS,
        OPEN_PARENTHESIS,
        OPEN_BRACE,
        CLOSE_BRACE,
    ],
    // after_statement
    &[
        NAME,
        NUMBER,
        CHARACTER,
        ASSERT,
        BREAK,
        CALC,
        FALSE,
        GHOST,
        IF,
        PRINT,
        RETURN,
        TRUE,
        VAR,
        WHILE,
        OPEN_PARENTHESIS,
        OPEN_BRACE,
        CLOSE_BRACE,
    ],
    // after_locals
    &[ASSIGN, SEMICOLON],
    // after_guarded
    &[
        NAME,
        NUMBER,
        CHARACTER,
        ASSERT,
        BREAK,
        CALC,
        ELSE,
        FALSE,
        GHOST,
        IF,
        PRINT,
        RETURN,
        TRUE,
        VAR,
        WHILE,
        OPEN_PARENTHESIS,
        OPEN_BRACE,
        CLOSE_BRACE,
    ],
    // after_next_operand
    &[SEMICOLON, COMMA],
    // after_calc_operator
    &[
        NAME,
        NUMBER,
        CHARACTER,
        FALSE,
        IF,
        TRUE,
        VAR,
        AND,
        OR,
        NOT,
        MINUS,
        OPEN_PARENTHESIS,
        OPEN_BRACE,
        CLOSE_BRACE,
    ],
    // after_calc_line
    &[
        NAME,
        NUMBER,
        CHARACTER,
        FALSE,
        IF,
        TRUE,
        VAR,
        AND,
        OR,
        NOT,
        MINUS,
        OPEN_PARENTHESIS,
        CLOSE_BRACE,
    ],
    // after_expressions
    &[
        DECREASES,
        ENSURES,
        INVARIANT,
        REQUIRES,
        SEMICOLON,
        CLOSE_PARENTHESIS,
        OPEN_BRACE,
    ],
    // after_next_expression
    &[
        DECREASES,
        ENSURES,
        INVARIANT,
        REQUIRES,
        SEMICOLON,
        COMMA,
        CLOSE_PARENTHESIS,
        OPEN_BRACE,
    ],
    // after_some_expressions
    &[SEMICOLON, CLOSE_PARENTHESIS],
    // after_application
    &[
        AS,
        BY,
        DECREASES,
        ELSE,
        ENSURES,
        FUNCTION,
        GHOST,
        INVARIANT,
        LEMMA,
        METHOD,
        NEWTYPE,
        PREDICATE,
        REQUIRES,
        THEN,
        WITNESS,
        IFF,
        IMPLIES,
        EXPLIES,
        AND,
        OR,
        EQUAL,
        NOT_EQUAL,
        AT_MOST,
        AT_LEAST,
        LESS,
        GREATER,
        PLUS,
        MINUS,
        TIMES,
        DIVIDE,
        MODULO,
        ASSIGN,
        SEMICOLON,
        COMMA,
        OPEN_PARENTHESIS,
        CLOSE_PARENTHESIS,
        OPEN_BRACE,
        CLOSE_BRACE,
    ],
    // kept
    &[
        NAME, WILDCARD, NUMBER, CHARACTER, TEXT, BOOL, CHAR, FALSE, GHOST, INT, NAT, TRUE, IFF,
        IMPLIES, EXPLIES, AND, OR, EQUAL, NOT_EQUAL, AT_MOST, AT_LEAST, LESS, GREATER, PLUS, MINUS,
        TIMES, DIVIDE, MODULO, ASSIGN,
    ],
];

#[tactic(auto, unfolding(crate::specs::Grammar::classes))]
fn class_list() -> &'static [&'static [u8]]
    ensures { map (λ c. c.now) result.now ≡ classes }
{
    CLASSES
}

/// The terminals of a class that is not a terminal itself.
fn listed(number: usize) -> &'static [u8]
    ensures { result.now ≡ option_map_or (λ kinds. kinds) (slice_get classes number) [] }
{
    match class_list().get(number) {
        Some(terminals) => terminals,
        None => &[],
    }
}

fn is_among(terminal: u8, terminals: &[u8]) -> bool
    ensures { result ≡ spec.is_in terminal terminals.now }
{
    terminals.iter().any(|k| *k == terminal)
}

/// Whether a terminal is of the class.
#[tactic(auto, unfolding(crate::specs::Grammar::kinds_of))]
pub fn is_in(terminal: u8, class: u8) -> bool
    ensures { result ≡ spec.is_in terminal (spec.kinds_of class) }
{
    if class < FIRST_CLASS {
        class == terminal
    } else {
        is_among(terminal, listed((class - FIRST_CLASS) as usize))
    }
}

fn is_none(terminals: &[u8]) -> bool
    ensures { result ≡ spec.is_nil terminals.now }
{
    match terminals {
        [] => true,
        [_, ..] => false,
    }
}

/// Whether a class is of no terminal, so that it is not tested.
#[tactic(auto, unfolding(crate::specs::Grammar::kinds_of))]
pub fn is_anything(class: u8) -> bool
    ensures { result ≡ spec.is_nil (spec.kinds_of class) }
{
    if class < FIRST_CLASS {
        false
    } else {
        is_none(listed((class - FIRST_CLASS) as usize))
    }
}
