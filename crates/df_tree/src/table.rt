//! The grammar, a row for each production.

ghost use Rattle.std.specs.Prelude.{◌≡◌, map};
ghost use Rattle.df_tree.specs.Row.{entry_of};
ghost use Rattle.df_tree.specs.Grammar as spec;
ghost use Rattle.df_tree.specs.Grammar.{declarations, statements, expressions};

use crate::class::*;
use crate::label::{Label, Way};
use crate::production::{Counting, Form, GrammarRow, Part, Production};
use crate::terminal::*;

/// The numbers of the productions of statements begin here, and those of expressions.
pub const FIRST_STATEMENT: u16 = 1000;

pub const FIRST_EXPRESSION: u16 = 2000;

// ---- the numbers of the productions

/// A whole file.
pub const FILE: u16 = 0;

const DECLARATION: u16 = 1;

const NEWTYPE_DECLARATION: u16 = 2;

const NEWTYPE_VARIABLE: u16 = 3;

const INT_ANNOTATION: u16 = 4;

const OF_INT: u16 = 5;

const INT_TYPE: u16 = 6;

const WITNESS_PART: u16 = 7;

const WITNESS_VALUE: u16 = 8;

const METHOD_DECLARATION: u16 = 9;

const LEMMA_DECLARATION: u16 = 10;

const FUNCTION_DECLARATION: u16 = 11;

const MAYBE_GHOST: u16 = 12;

const FUNCTION_KIND: u16 = 13;

const FUNCTION_REST: u16 = 14;

const PREDICATE_REST: u16 = 15;

const FUNCTION_RESULT: u16 = 16;

const NAMED_RESULT: u16 = 17;

const FUNCTION_BODY: u16 = 18;

const PARAMETERS: u16 = 19;

const SOME_PARAMETERS: u16 = 20;

const PARAMETER_LIST: u16 = 21;

const MORE_PARAMETERS: u16 = 22;

const NEXT_PARAMETER: u16 = 23;

const PARAMETER: u16 = 24;

const RESULTS: u16 = 25;

const RESULT_LIST: u16 = 26;

const CLAUSES: u16 = 27;

const REQUIRES_CLAUSE: u16 = 28;

const ENSURES_CLAUSE: u16 = 29;

const INVARIANT_CLAUSE: u16 = 30;

const DECREASES_CLAUSE: u16 = 31;

/// A type.
pub const TYPE: u16 = 32;

const BASIC_TYPE: u16 = 33;

const NAMED_TYPE: u16 = 34;

const BLOCK: u16 = 1000;

const STATEMENTS: u16 = 1001;

const STATEMENT: u16 = 1002;

const VAR_STATEMENT: u16 = 1003;

const LOCALS: u16 = 1004;

const MORE_LOCALS: u16 = 1005;

const NEXT_LOCAL: u16 = 1006;

const LOCAL: u16 = 1007;

const ANNOTATION: u16 = 1008;

const OF_TYPE: u16 = 1009;

const INITIAL: u16 = 1010;

const INITIAL_VALUES: u16 = 1011;

const PRIMARY_STATEMENT: u16 = 1012;

const PRIMARY_REST: u16 = 1013;

const ASSIGNMENT: u16 = 1014;

const MORE_TARGETS: u16 = 1015;

const NEXT_TARGET: u16 = 1016;

const IF_STATEMENT: u16 = 1017;

const GUARDED: u16 = 1018;

const ELSE_IFS: u16 = 1019;

const ELSE_IF: u16 = 1020;

const OTHERWISE: u16 = 1021;

const ELSE_BLOCK: u16 = 1022;

const WHILE_STATEMENT: u16 = 1023;

const RETURN_STATEMENT: u16 = 1024;

const BREAK_STATEMENT: u16 = 1025;

const ASSERT_STATEMENT: u16 = 1026;

const ASSERT_END: u16 = 1027;

const BY_BLOCK: u16 = 1028;

const PRINT_STATEMENT: u16 = 1029;

const MORE_OPERANDS: u16 = 1030;

const NEXT_OPERAND: u16 = 1031;

const OPERAND: u16 = 1032;

const TEXT_OPERAND: u16 = 1033;

const CALC_STATEMENT: u16 = 1034;

const CALC_OPERATOR: u16 = 1035;

const CALC_LINES: u16 = 1036;

const CALC_LINE: u16 = 1037;

const HINTS: u16 = 1038;

const EXPRESSIONS: u16 = 2000;

const MORE_EXPRESSIONS: u16 = 2001;

const NEXT_EXPRESSION: u16 = 2002;

const SOME_EXPRESSIONS: u16 = 2003;

/// An expression.
pub const EXPRESSION: u16 = 2004;

const EQUIVALENCES: u16 = 2005;

const EQUIVALENT: u16 = 2006;

const IMPLICATION: u16 = 2007;

const IMPLICATION_REST: u16 = 2008;

const CONSEQUENTS: u16 = 2009;

const MORE_CONSEQUENTS: u16 = 2010;

const CONSEQUENT: u16 = 2011;

const ANTECEDENTS: u16 = 2012;

const MORE_ANTECEDENTS: u16 = 2013;

const ANTECEDENT: u16 = 2014;

const JUNCTION: u16 = 2015;

const LEADING_CONJUNCTS: u16 = 2016;

const LEADING_DISJUNCTS: u16 = 2017;

const PLAIN: u16 = 2018;

const JUNCTION_REST: u16 = 2019;

const CONJUNCTS: u16 = 2020;

const MORE_CONJUNCTS: u16 = 2021;

const CONJUNCT: u16 = 2022;

const DISJUNCTS: u16 = 2023;

const MORE_DISJUNCTS: u16 = 2024;

const DISJUNCT: u16 = 2025;

const RELATION: u16 = 2026;

const COMPARISONS: u16 = 2027;

const COMPARISON: u16 = 2028;

const COMPARING: u16 = 2029;

const SUM: u16 = 2030;

const ADDITIONS: u16 = 2031;

const ADDITION: u16 = 2032;

const ADDING: u16 = 2033;

const PRODUCT: u16 = 2034;

const MULTIPLICATIONS: u16 = 2035;

const MULTIPLICATION: u16 = 2036;

const MULTIPLYING: u16 = 2037;

const CAST: u16 = 2038;

const TARGETS: u16 = 2039;

const TARGET: u16 = 2040;

const TARGET_TYPE: u16 = 2041;

const NUMERIC_TYPE: u16 = 2042;

const UNARY: u16 = 2043;

const NEGATED: u16 = 2044;

const DENIED: u16 = 2045;

const PRIMARY: u16 = 2046;

const CLOSED: u16 = 2047;

const SUFFIXES: u16 = 2048;

const APPLICATION: u16 = 2049;

const ATOM: u16 = 2050;

const NAME_ATOM: u16 = 2051;

const PLAIN_NAME: u16 = 2052;

const MAYBE_CALL: u16 = 2053;

const NAMED_CALL: u16 = 2054;

const NUMBER_ATOM: u16 = 2055;

const CHARACTER_ATOM: u16 = 2056;

const TRUTH_ATOM: u16 = 2057;

const PARENTHESES: u16 = 2058;

const CONDITIONAL: u16 = 2059;

const LET_EXPRESSION: u16 = 2060;

const BINDING: u16 = 2061;

/// A pattern.
pub const PATTERN: u16 = 2062;

const NAMED_PATTERN: u16 = 2063;

const FIELDS: u16 = 2064;

const FIELD_LIST: u16 = 2065;

const SOME_PATTERNS: u16 = 2066;

const PATTERNS: u16 = 2067;

const MORE_PATTERNS: u16 = 2068;

const NEXT_PATTERN: u16 = 2069;

// ---- the productions

/// A part: a token of the terminal, or a tree of the production.
macro_rules! part {
    (word $terminal:ident) => {
        Part::Terminal($terminal)
    };
    (sub $row:ident) => {
        Part::Nonterminal($row)
    };
}

/// What a production does for the syntax tree.
macro_rules! way {
    (Pass) => {
        Way::Pass
    };
    (Close) => {
        Way::Close
    };
    (Title $label:ident) => {
        Way::Title(Label::$label)
    };
    (Wrap $label:ident) => {
        Way::Wrap(Label::$label)
    };
    (Make $label:ident) => {
        Way::Make(Label::$label)
    };
}

/// A production: its form, whether it may be empty, and whether it is greedy; what it does for the syntax tree; how it
/// counts for the height, and its rank; its first terminals and those behind it; its parts.
macro_rules! production {
    ($form:ident, $empty:expr, $greedy:expr; $($way:ident)+; $counting:ident $rank:literal; $first:ident => $follow:ident; $($word:ident $part:ident),*) => {
        Production {
            form: Form::$form,
            way: way!($($way)+),
            parts: &[$(part!($word $part)),*],
            empty: $empty,
            greedy: $greedy,
            narrow: false,
            first: $first,
            second: NONE,
            follow: $follow,
            counting: Counting::$counting,
            rank: $rank,
        }
    };
}

/// All of the parts, one after another.
macro_rules! all {
    ($($rest:tt)*) => {
        production!(All, false, false; $($rest)*)
    };
}

/// One of the parts.
macro_rules! one {
    ($($rest:tt)*) => {
        production!(One, false, false; $($rest)*)
    };
}

/// One of the parts, or nothing.
macro_rules! maybe {
    ($($rest:tt)*) => {
        production!(One, true, false; $($rest)*)
    };
}

/// One of the parts wherever one begins.
macro_rules! greedy_maybe {
    ($($rest:tt)*) => {
        production!(One, true, true; $($rest)*)
    };
}

/// The parts, any number of times.
macro_rules! many {
    ($($rest:tt)*) => {
        production!(Many, true, false; $($rest)*)
    };
}

/// The parts, as long as one begins.
macro_rules! greedy_many {
    ($($rest:tt)*) => {
        production!(Many, true, true; $($rest)*)
    };
}

/// All of the parts, where its first and its second token are of the classes.
macro_rules! narrow {
    ($($way:ident)+; $counting:ident $rank:literal; $first:ident $second:ident => $follow:ident; $($word:ident $part:ident),*) => {
        Production {
            form: Form::All,
            way: way!($($way)+),
            parts: &[$(part!($word $part)),*],
            empty: false,
            greedy: false,
            narrow: true,
            first: $first,
            second: $second,
            follow: $follow,
            counting: Counting::$counting,
            rank: $rank,
        }
    };
}

/// Files, declarations, clauses and types, in the order of their numbers.
const DECLARATION_ROWS: &[GrammarRow] = &[
    // file: { declaration }
    many!(Make File; Never 39; FIRST_OF_FILE => NONE; sub DECLARATION),
    // declaration
    one!(Pass; Never 38; FIRST_OF_FILE => FIRST_OF_FILE; sub NEWTYPE_DECLARATION, sub METHOD_DECLARATION, sub LEMMA_DECLARATION, sub FUNCTION_DECLARATION),
    // newtype_declaration: "newtype" name "=" name [ ":" "int" ] "|" expression [ "witness" expression ]
    all!(Make Newtype; Never 32; NEWTYPE => FIRST_OF_FILE; word NEWTYPE, word NAME, word DEFINE, sub NEWTYPE_VARIABLE, word BAR, sub EXPRESSION, sub WITNESS_PART),
    // newtype_variable
    all!(Make Binder; Never 3; NAME => BAR; word NAME, sub INT_ANNOTATION),
    // int_annotation
    maybe!(Pass; Never 2; COLON => BAR; sub OF_INT),
    // of_int
    all!(Pass; Never 1; COLON => BAR; word COLON, sub INT_TYPE),
    // int_type
    all!(Make BasicType; Always 0; INT => BAR; word INT),
    // witness_part
    maybe!(Pass; Never 31; WITNESS => FIRST_OF_FILE; sub WITNESS_VALUE),
    // witness_value
    all!(Make Witness; Never 30; WITNESS => FIRST_OF_FILE; word WITNESS, sub EXPRESSION),
    // method_declaration: "method" name parameters [ "returns" parameters ] { clause } block
    all!(Make Method; Never 35; METHOD => FIRST_OF_FILE; word METHOD, word NAME, sub PARAMETERS, sub RESULTS, sub CLAUSES, sub BLOCK),
    // lemma_declaration: "lemma" name parameters [ "returns" parameters ] { clause } block
    all!(Make Lemma; Never 35; LEMMA => FIRST_OF_FILE; word LEMMA, word NAME, sub PARAMETERS, sub RESULTS, sub CLAUSES, sub BLOCK),
    // function_declaration: [ "ghost" ] ( function | predicate )
    all!(Make Function; Never 37; FIRST_OF_FUNCTION_DECLARATION => FIRST_OF_FILE; sub MAYBE_GHOST, sub FUNCTION_KIND),
    // maybe_ghost
    maybe!(Pass; Never 0; GHOST => AFTER_MAYBE_GHOST; word GHOST),
    // function_kind
    one!(Pass; Never 36; FIRST_OF_FUNCTION_KIND => FIRST_OF_FILE; sub FUNCTION_REST, sub PREDICATE_REST),
    // function_rest: "function" name parameters ":" ( type | "(" name ":" type ")" ) { clause } "{" expression "}"
    all!(Pass; Never 35; FUNCTION => FIRST_OF_FILE; word FUNCTION, word NAME, sub PARAMETERS, word COLON, sub FUNCTION_RESULT, sub CLAUSES, sub FUNCTION_BODY),
    // predicate_rest: "predicate" name parameters { clause } "{" expression "}"
    all!(Title Predicate; Never 35; PREDICATE => FIRST_OF_FILE; word PREDICATE, word NAME, sub PARAMETERS, sub CLAUSES, sub FUNCTION_BODY),
    // function_result
    one!(Make Result; Never 3; FIRST_OF_FUNCTION_RESULT => AFTER_FUNCTION_RESULT; sub TYPE, sub NAMED_RESULT),
    // named_result
    all!(Pass; Never 2; OPEN_PARENTHESIS => AFTER_FUNCTION_RESULT; word OPEN_PARENTHESIS, word NAME, word COLON, sub TYPE, word CLOSE_PARENTHESIS),
    // function_body
    all!(Pass; Never 30; OPEN_BRACE => FIRST_OF_FILE; word OPEN_BRACE, sub EXPRESSION, word CLOSE_BRACE),
    // parameters: "(" [ parameter { "," parameter } ] ")"
    all!(Make Parameters; Never 7; OPEN_PARENTHESIS => AFTER_PARAMETERS; word OPEN_PARENTHESIS, sub SOME_PARAMETERS, word CLOSE_PARENTHESIS),
    // some_parameters
    maybe!(Pass; Never 6; FIRST_OF_SOME_PARAMETERS => CLOSE_PARENTHESIS; sub PARAMETER_LIST),
    // parameter_list
    all!(Pass; Never 5; FIRST_OF_SOME_PARAMETERS => CLOSE_PARENTHESIS; sub PARAMETER, sub MORE_PARAMETERS),
    // more_parameters
    many!(Pass; Never 4; COMMA => CLOSE_PARENTHESIS; sub NEXT_PARAMETER),
    // next_parameter
    all!(Pass; Never 3; COMMA => AFTER_NEXT_PARAMETER; word COMMA, sub PARAMETER),
    // parameter: [ "ghost" ] name ":" type
    all!(Make Parameter; Never 2; FIRST_OF_SOME_PARAMETERS => AFTER_NEXT_PARAMETER; sub MAYBE_GHOST, word NAME, word COLON, sub TYPE),
    // results
    maybe!(Pass; Never 8; RETURNS => AFTER_FUNCTION_RESULT; sub RESULT_LIST),
    // result_list
    all!(Make Results; Never 7; RETURNS => AFTER_FUNCTION_RESULT; word RETURNS, word OPEN_PARENTHESIS, sub SOME_PARAMETERS, word CLOSE_PARENTHESIS),
    // clauses: clause: ( "requires" | "ensures" | "invariant" ) expression | "decreases" expressions
    many!(Pass; Never 34; FIRST_OF_CLAUSES => OPEN_BRACE; sub REQUIRES_CLAUSE, sub ENSURES_CLAUSE, sub INVARIANT_CLAUSE, sub DECREASES_CLAUSE),
    // requires_clause
    all!(Make Requires; Never 30; REQUIRES => AFTER_FUNCTION_RESULT; word REQUIRES, sub EXPRESSION),
    // ensures_clause
    all!(Make Ensures; Never 30; ENSURES => AFTER_FUNCTION_RESULT; word ENSURES, sub EXPRESSION),
    // invariant_clause
    all!(Make Invariant; Never 30; INVARIANT => AFTER_FUNCTION_RESULT; word INVARIANT, sub EXPRESSION),
    // decreases_clause
    all!(Make Decreases; Never 33; DECREASES => AFTER_FUNCTION_RESULT; word DECREASES, sub EXPRESSIONS),
    // type: "int" | "nat" | "bool" | "char" | name
    one!(Close; Never 1; FIRST_OF_TYPE => AFTER_TYPE; sub BASIC_TYPE, sub NAMED_TYPE),
    // basic_type
    one!(Make BasicType; Always 0; FIRST_OF_BASIC_TYPE => AFTER_TYPE; word INT, word NAT, word BOOL, word CHAR),
    // named_type
    all!(Make NamedType; Always 0; NAME => AFTER_NAMED_TYPE; word NAME),
];

/// Blocks and statements.
const STATEMENT_ROWS: &[GrammarRow] = &[
    // block: "{" { statement } "}"
    all!(Make Block; Always 0; OPEN_BRACE => AFTER_BLOCK; word OPEN_BRACE, sub STATEMENTS, word CLOSE_BRACE),
    // statements
    many!(Pass; Never 2; FIRST_OF_STATEMENTS => CLOSE_BRACE; sub STATEMENT),
    // statement; a statement that is a block counts once for the height
    one!(Pass; Never 1; FIRST_OF_STATEMENTS => AFTER_STATEMENT; sub BLOCK, sub VAR_STATEMENT, sub PRIMARY_STATEMENT, sub IF_STATEMENT, sub WHILE_STATEMENT, sub RETURN_STATEMENT, sub BREAK_STATEMENT, sub ASSERT_STATEMENT, sub PRINT_STATEMENT, sub CALC_STATEMENT),
    // var_statement: [ "ghost" ] "var" name [ ":" type ] { "," name [ ":" type ] } [ ":=" expressions ] ";"
    all!(Make Var; Always 0; FIRST_OF_VAR_STATEMENT => AFTER_STATEMENT; sub MAYBE_GHOST, word VAR, sub LOCALS, sub INITIAL, word SEMICOLON),
    // locals
    all!(Pass; Never 7; NAME => AFTER_LOCALS; sub LOCAL, sub MORE_LOCALS),
    // more_locals
    many!(Pass; Never 6; COMMA => AFTER_LOCALS; sub NEXT_LOCAL),
    // next_local
    all!(Pass; Never 5; COMMA => FIRST_OF_PRIMARY_REST; word COMMA, sub LOCAL),
    // local
    all!(Make Local; Never 4; NAME => FIRST_OF_PRIMARY_REST; word NAME, sub ANNOTATION),
    // annotation
    maybe!(Pass; Never 3; COLON => FIRST_OF_PRIMARY_REST; sub OF_TYPE),
    // of_type
    all!(Pass; Never 2; COLON => FIRST_OF_PRIMARY_REST; word COLON, sub TYPE),
    // initial
    maybe!(Pass; Never 34; ASSIGN => SEMICOLON; sub INITIAL_VALUES),
    // initial_values
    all!(Pass; Never 33; ASSIGN => SEMICOLON; word ASSIGN, sub EXPRESSIONS),
    // primary_statement: primary { "," primary } ":=" expressions ";" or primary ";", where the first one does not end in an expression
    all!(Make ExpressionStatement; Always 0; FIRST_OF_PRIMARY_STATEMENT => AFTER_STATEMENT; sub CLOSED, sub PRIMARY_REST),
    // primary_rest
    one!(Pass; Never 34; FIRST_OF_PRIMARY_REST => AFTER_STATEMENT; word SEMICOLON, sub ASSIGNMENT),
    // assignment
    all!(Title Assign; Never 33; FIRST_OF_ASSIGNMENT => AFTER_STATEMENT; sub MORE_TARGETS, word ASSIGN, sub EXPRESSIONS, word SEMICOLON),
    // more_targets
    many!(Pass; Never 6; COMMA => ASSIGN; sub NEXT_TARGET),
    // next_target
    all!(Pass; Never 5; COMMA => FIRST_OF_ASSIGNMENT; word COMMA, sub PRIMARY),
    // if_statement: "if" expression block { "else" "if" expression block } [ "else" block ]
    all!(Make If; Always 0; IF => AFTER_STATEMENT; word IF, sub GUARDED, sub ELSE_IFS, sub OTHERWISE),
    // guarded
    all!(Make Guarded; Never 30; FIRST_OF_GUARDED => AFTER_GUARDED; sub EXPRESSION, sub BLOCK),
    // else_ifs
    greedy_many!(Pass; Never 32; ELSE => AFTER_GUARDED; sub ELSE_IF),
    // else_if
    narrow!(Pass; Never 31; ELSE IF => AFTER_GUARDED; word ELSE, word IF, sub GUARDED),
    // otherwise
    maybe!(Pass; Never 2; ELSE => AFTER_STATEMENT; sub ELSE_BLOCK),
    // else_block
    all!(Pass; Never 1; ELSE => AFTER_STATEMENT; word ELSE, sub BLOCK),
    // while_statement: "while" expression { clause } block
    all!(Make While; Always 0; WHILE => AFTER_STATEMENT; word WHILE, sub EXPRESSION, sub CLAUSES, sub BLOCK),
    // return_statement: "return" [ expressions ] ";"
    all!(Make Return; Always 0; RETURN => AFTER_STATEMENT; word RETURN, sub SOME_EXPRESSIONS, word SEMICOLON),
    // break_statement: "break" ";"
    all!(Make Break; Always 0; BREAK => AFTER_STATEMENT; word BREAK, word SEMICOLON),
    // assert_statement: "assert" expression ( ";" | "by" block )
    all!(Make Assert; Always 0; ASSERT => AFTER_STATEMENT; word ASSERT, sub EXPRESSION, sub ASSERT_END),
    // assert_end
    one!(Pass; Never 2; FIRST_OF_ASSERT_END => AFTER_STATEMENT; word SEMICOLON, sub BY_BLOCK),
    // by_block
    all!(Pass; Never 1; BY => AFTER_STATEMENT; word BY, sub BLOCK),
    // print_statement: "print" operand { "," operand } ";"
    all!(Make Print; Always 0; PRINT => AFTER_STATEMENT; word PRINT, sub OPERAND, sub MORE_OPERANDS, word SEMICOLON),
    // more_operands
    many!(Pass; Never 32; COMMA => SEMICOLON; sub NEXT_OPERAND),
    // next_operand
    all!(Pass; Never 31; COMMA => AFTER_NEXT_OPERAND; word COMMA, sub OPERAND),
    // operand: text | expression
    one!(Pass; Never 30; FIRST_OF_OPERAND => AFTER_NEXT_OPERAND; sub TEXT_OPERAND, sub EXPRESSION),
    // text_operand
    all!(Make Text; Always 0; TEXT => AFTER_NEXT_OPERAND; word TEXT),
    // calc_statement: "calc" [ operator ] "{" { expression ";" [ operator ] { block } } "}"
    all!(Make Calc; Always 0; CALC => AFTER_STATEMENT; word CALC, sub CALC_OPERATOR, word OPEN_BRACE, sub CALC_LINES, word CLOSE_BRACE),
    // calc_operator
    maybe!(Pass; Never 0; FIRST_OF_CALC_OPERATOR => AFTER_CALC_OPERATOR; word EQUAL, word LESS, word AT_MOST, word IMPLIES, word IFF),
    // calc_lines
    many!(Pass; Never 31; FIRST_OF_GUARDED => CLOSE_BRACE; sub CALC_LINE),
    // calc_line
    all!(Make Line; Never 30; FIRST_OF_GUARDED => AFTER_CALC_LINE; sub EXPRESSION, word SEMICOLON, sub CALC_OPERATOR, sub HINTS),
    // hints
    greedy_many!(Pass; Never 1; OPEN_BRACE => AFTER_CALC_LINE; sub BLOCK),
];

/// Expressions and patterns.
const EXPRESSION_ROWS: &[GrammarRow] = &[
    // expressions: expression { "," expression }
    all!(Pass; Never 32; FIRST_OF_GUARDED => AFTER_EXPRESSIONS; sub EXPRESSION, sub MORE_EXPRESSIONS),
    // more_expressions
    many!(Pass; Never 31; COMMA => AFTER_EXPRESSIONS; sub NEXT_EXPRESSION),
    // next_expression
    all!(Pass; Never 30; COMMA => AFTER_NEXT_EXPRESSION; word COMMA, sub EXPRESSION),
    // some_expressions
    maybe!(Pass; Never 33; FIRST_OF_GUARDED => AFTER_SOME_EXPRESSIONS; sub EXPRESSIONS),
    // expression: implication { "<==>" implication }
    all!(Close; IfMore 29; FIRST_OF_GUARDED => AFTER_NAMED_TYPE; sub IMPLICATION, sub EQUIVALENCES),
    // equivalences
    greedy_many!(Pass; Never 28; IFF => AFTER_NAMED_TYPE; sub EQUIVALENT),
    // equivalent
    all!(Title Equivalence; Never 27; IFF => AFTER_NAMED_TYPE; word IFF, sub IMPLICATION),
    // implication: junction { "==>" junction } | junction { "<==" junction }
    all!(Close; IfMore 26; FIRST_OF_GUARDED => AFTER_NAMED_TYPE; sub JUNCTION, sub IMPLICATION_REST),
    // implication_rest
    greedy_maybe!(Pass; Never 25; FIRST_OF_IMPLICATION_REST => AFTER_NAMED_TYPE; sub CONSEQUENTS, sub ANTECEDENTS),
    // consequents
    all!(Title Implication; Never 24; IMPLIES => AFTER_NAMED_TYPE; sub CONSEQUENT, sub MORE_CONSEQUENTS),
    // more_consequents
    greedy_many!(Pass; Never 23; IMPLIES => AFTER_NAMED_TYPE; sub CONSEQUENT),
    // consequent
    all!(Pass; Never 22; IMPLIES => AFTER_NAMED_TYPE; word IMPLIES, sub JUNCTION),
    // antecedents
    all!(Title Explication; Never 24; EXPLIES => AFTER_NAMED_TYPE; sub ANTECEDENT, sub MORE_ANTECEDENTS),
    // more_antecedents
    greedy_many!(Pass; Never 23; EXPLIES => AFTER_NAMED_TYPE; sub ANTECEDENT),
    // antecedent
    all!(Pass; Never 22; EXPLIES => AFTER_NAMED_TYPE; word EXPLIES, sub JUNCTION),
    // junction: [ "&&" ] relation { "&&" relation } | [ "||" ] relation { "||" relation }
    one!(Pass; Never 21; FIRST_OF_GUARDED => AFTER_NAMED_TYPE; sub LEADING_CONJUNCTS, sub LEADING_DISJUNCTS, sub PLAIN),
    // leading_conjuncts
    all!(Make Conjunction; Always 0; AND => AFTER_NAMED_TYPE; sub CONJUNCTS),
    // leading_disjuncts
    all!(Make Disjunction; Always 0; OR => AFTER_NAMED_TYPE; sub DISJUNCTS),
    // plain
    all!(Close; IfMore 20; FIRST_OF_PLAIN => AFTER_NAMED_TYPE; sub RELATION, sub JUNCTION_REST),
    // junction_rest
    greedy_maybe!(Pass; Never 19; FIRST_OF_JUNCTION_REST => AFTER_NAMED_TYPE; sub CONJUNCTS, sub DISJUNCTS),
    // conjuncts
    all!(Title Conjunction; Never 18; AND => AFTER_NAMED_TYPE; sub CONJUNCT, sub MORE_CONJUNCTS),
    // more_conjuncts
    greedy_many!(Pass; Never 17; AND => AFTER_NAMED_TYPE; sub CONJUNCT),
    // conjunct
    all!(Pass; Never 16; AND => AFTER_NAMED_TYPE; word AND, sub RELATION),
    // disjuncts
    all!(Title Disjunction; Never 18; OR => AFTER_NAMED_TYPE; sub DISJUNCT, sub MORE_DISJUNCTS),
    // more_disjuncts
    greedy_many!(Pass; Never 17; OR => AFTER_NAMED_TYPE; sub DISJUNCT),
    // disjunct
    all!(Pass; Never 16; OR => AFTER_NAMED_TYPE; word OR, sub RELATION),
    // relation: sum { ( "==" | "!=" | "<" | "<=" | ">" | ">=" ) sum }
    all!(Close; IfMore 15; FIRST_OF_PLAIN => AFTER_NAMED_TYPE; sub SUM, sub COMPARISONS),
    // comparisons
    greedy_many!(Pass; Never 14; FIRST_OF_COMPARISONS => AFTER_NAMED_TYPE; sub COMPARISON),
    // comparison
    all!(Title Chain; Never 13; FIRST_OF_COMPARISONS => AFTER_NAMED_TYPE; sub COMPARING, sub SUM),
    // comparing
    one!(Pass; Never 0; FIRST_OF_COMPARISONS => FIRST_OF_PLAIN; word EQUAL, word NOT_EQUAL, word LESS, word AT_MOST, word GREATER, word AT_LEAST),
    // sum: product { ( "+" | "-" ) product }
    all!(Close; IfMore 12; FIRST_OF_PLAIN => AFTER_NAMED_TYPE; sub PRODUCT, sub ADDITIONS),
    // additions
    greedy_many!(Pass; Never 11; FIRST_OF_ADDITIONS => AFTER_NAMED_TYPE; sub ADDITION),
    // addition
    all!(Title Sum; Never 10; FIRST_OF_ADDITIONS => AFTER_NAMED_TYPE; sub ADDING, sub PRODUCT),
    // adding
    one!(Pass; Never 0; FIRST_OF_ADDITIONS => FIRST_OF_PLAIN; word PLUS, word MINUS),
    // product: cast { ( "*" | "/" | "%" ) cast }
    all!(Close; IfMore 9; FIRST_OF_PLAIN => AFTER_NAMED_TYPE; sub CAST, sub MULTIPLICATIONS),
    // multiplications
    greedy_many!(Pass; Never 8; FIRST_OF_MULTIPLICATIONS => AFTER_NAMED_TYPE; sub MULTIPLICATION),
    // multiplication
    all!(Title Product; Never 7; FIRST_OF_MULTIPLICATIONS => AFTER_NAMED_TYPE; sub MULTIPLYING, sub CAST),
    // multiplying
    one!(Pass; Never 0; FIRST_OF_MULTIPLICATIONS => FIRST_OF_PLAIN; word TIMES, word DIVIDE, word MODULO),
    // cast: unary { "as" ( "int" | "nat" | "char" | name ) }
    all!(Close; IfMore 6; FIRST_OF_PLAIN => AFTER_NAMED_TYPE; sub UNARY, sub TARGETS),
    // targets
    greedy_many!(Pass; Never 3; AS => AFTER_NAMED_TYPE; sub TARGET),
    // target
    all!(Title As; Never 2; AS => AFTER_NAMED_TYPE; word AS, sub TARGET_TYPE),
    // target_type
    one!(Pass; Never 1; FIRST_OF_TARGET_TYPE => AFTER_NAMED_TYPE; sub NUMERIC_TYPE, sub NAMED_TYPE),
    // numeric_type
    one!(Make BasicType; Always 0; FIRST_OF_NUMERIC_TYPE => AFTER_NAMED_TYPE; word INT, word NAT, word CHAR),
    // unary: { "-" | "!" } primary
    one!(Pass; Never 5; FIRST_OF_PLAIN => AFTER_NAMED_TYPE; sub NEGATED, sub DENIED, sub PRIMARY),
    // negated
    all!(Make Negate; Always 0; MINUS => AFTER_NAMED_TYPE; word MINUS, sub UNARY),
    // denied
    all!(Make Not; Always 0; NOT => AFTER_NAMED_TYPE; word NOT, sub UNARY),
    // primary: an atom with its suffixes, or an atom that ends in an expression
    one!(Pass; Never 4; FIRST_OF_PRIMARY => AFTER_NAMED_TYPE; sub CLOSED, sub CONDITIONAL, sub LET_EXPRESSION),
    // closed
    all!(Close; Never 3; FIRST_OF_PRIMARY_STATEMENT => AFTER_NAMED_TYPE; sub ATOM, sub SUFFIXES),
    // suffixes
    greedy_many!(Pass; Each 0; OPEN_PARENTHESIS => AFTER_NAMED_TYPE; sub APPLICATION),
    // application: "(" [ expressions ] ")"
    all!(Wrap Apply; Never 34; OPEN_PARENTHESIS => AFTER_APPLICATION; word OPEN_PARENTHESIS, sub SOME_EXPRESSIONS, word CLOSE_PARENTHESIS),
    // atom
    one!(Pass; Never 2; FIRST_OF_PRIMARY_STATEMENT => AFTER_APPLICATION; sub NAME_ATOM, sub NUMBER_ATOM, sub CHARACTER_ATOM, sub TRUTH_ATOM, sub PARENTHESES),
    // name_atom: a name, or a call by a name
    all!(Make Name; Never 1; NAME => AFTER_APPLICATION; sub PLAIN_NAME, sub MAYBE_CALL),
    // plain_name
    all!(Pass; Always 0; NAME => AFTER_APPLICATION; word NAME),
    // maybe_call
    greedy_maybe!(Pass; Each 0; OPEN_PARENTHESIS => AFTER_APPLICATION; sub NAMED_CALL),
    // named_call
    all!(Title Call; Never 34; OPEN_PARENTHESIS => AFTER_APPLICATION; word OPEN_PARENTHESIS, sub SOME_EXPRESSIONS, word CLOSE_PARENTHESIS),
    // number_atom
    all!(Make Number; Always 0; NUMBER => AFTER_APPLICATION; word NUMBER),
    // character_atom
    all!(Make Character; Always 0; CHARACTER => AFTER_APPLICATION; word CHARACTER),
    // truth_atom
    one!(Make Truth; Always 0; FIRST_OF_TRUTH_ATOM => AFTER_APPLICATION; word TRUE, word FALSE),
    // parentheses
    all!(Make Parentheses; Always 0; OPEN_PARENTHESIS => AFTER_APPLICATION; word OPEN_PARENTHESIS, sub EXPRESSION, word CLOSE_PARENTHESIS),
    // conditional: "if" expression "then" expression "else" expression
    all!(Make Conditional; Always 0; IF => AFTER_NAMED_TYPE; word IF, sub EXPRESSION, word THEN, sub EXPRESSION, word ELSE, sub EXPRESSION),
    // let_expression: "var" name [ ":" type ] ":=" expression ";" expression
    all!(Make Let; Always 0; VAR => AFTER_NAMED_TYPE; word VAR, sub BINDING, word SEMICOLON, sub EXPRESSION),
    // binding
    all!(Make Var; Never 30; NAME => SEMICOLON; sub LOCAL, word ASSIGN, sub EXPRESSION),
    // pattern: "_" | name [ "(" [ pattern { "," pattern } ] ")" ]
    one!(Make Wildcard; Always 0; FIRST_OF_PATTERN => AFTER_NEXT_PARAMETER; word WILDCARD, sub NAMED_PATTERN),
    // named_pattern
    all!(Title NamePattern; Never 7; NAME => AFTER_NEXT_PARAMETER; word NAME, sub FIELDS),
    // fields
    maybe!(Pass; Never 6; OPEN_PARENTHESIS => AFTER_NEXT_PARAMETER; sub FIELD_LIST),
    // field_list
    all!(Title ConstructorPattern; Never 5; OPEN_PARENTHESIS => AFTER_NEXT_PARAMETER; word OPEN_PARENTHESIS, sub SOME_PATTERNS, word CLOSE_PARENTHESIS),
    // some_patterns
    maybe!(Pass; Never 4; FIRST_OF_PATTERN => CLOSE_PARENTHESIS; sub PATTERNS),
    // patterns
    all!(Pass; Never 3; FIRST_OF_PATTERN => CLOSE_PARENTHESIS; sub PATTERN, sub MORE_PATTERNS),
    // more_patterns
    many!(Pass; Never 2; COMMA => CLOSE_PARENTHESIS; sub NEXT_PATTERN),
    // next_pattern
    all!(Pass; Never 1; COMMA => AFTER_NEXT_PARAMETER; word COMMA, sub PATTERN),
];

/// What has no tree.
const NOTHING: GrammarRow = Production {
    form: Form::One,
    way: Way::Pass,
    parts: &[],
    empty: false,
    greedy: false,
    narrow: false,
    first: NONE,
    second: NONE,
    follow: NONE,
    counting: Counting::Never,
    rank: 0,
};

#[tactic(auto, unfolding(crate::specs::Grammar::declarations))]
fn declarations() -> &'static [GrammarRow]
    ensures { map entry_of result.now ≡ declarations }
{
    DECLARATION_ROWS
}

#[tactic(auto, unfolding(crate::specs::Grammar::statements))]
fn statements() -> &'static [GrammarRow]
    ensures { map entry_of result.now ≡ statements }
{
    STATEMENT_ROWS
}

#[tactic(auto, unfolding(crate::specs::Grammar::expressions))]
fn expressions() -> &'static [GrammarRow]
    ensures { map entry_of result.now ≡ expressions }
{
    EXPRESSION_ROWS
}

fn entry(rows: &[GrammarRow], number: usize) -> GrammarRow
    ensures { entry_of result ≡ spec.entry_in (map entry_of rows.now) number }
{
    match rows.get(number) {
        Some(row) => *row,
        None => NOTHING,
    }
}

/// The production of a number.
#[tactic(auto, unfolding(crate::specs::Grammar::row))]
pub fn row(number: u16) -> GrammarRow
    ensures { entry_of result ≡ spec.row number }
{
    if number < FIRST_STATEMENT {
        entry(declarations(), number as usize)
    } else if number < FIRST_EXPRESSION {
        entry(statements(), (number - FIRST_STATEMENT) as usize)
    } else {
        entry(expressions(), (number - FIRST_EXPRESSION) as usize)
    }
}
