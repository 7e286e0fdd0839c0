//! Symbols: operations that the logic does not look into. A table says what each is written as, takes and gives.

ghost use Rattle.std.specs.Prelude.{◌≡◌, map};
ghost use Rattle.std.specs.List.{find};
ghost use Rattle.std.specs.Option.{option_map};
ghost use Rattle.df_form.specs.Types as typing;
ghost use Rattle.df_form.specs.Symbol.{entry_of, symbols, is_row, row_of, type_in, is_testable, accepts, filled, given_by};

use crate::node::Sort;
use crate::sorting::sort_of_type;
use df_lang::Ty;

/// An operation that the logic does not look into.
#[derive(Clone, Copy, PartialEq, Eq, Hash)]
pub enum Symbol {
    /// The quotient of two numbers that leaves a remainder of at least 0; by 0 it is 0.
    Div,
    /// That remainder; by 0 it is 0.
    Mod,
    /// The number of a character.
    Code,
    /// The character of a number; of a number that no character has it is that of 68, `D`.
    Chr,
    /// The number or the character is of the type that stands with it.
    Is,
}

/// What stands with a symbol.
#[derive(Clone, Copy, PartialEq, Eq, Hash)]
pub enum Payload {
    Nothing,
    Type(Ty),
}

/// What is to stand with a symbol. That a truth is of a type is no formula.
#[derive(Clone, Copy, PartialEq, Eq)]
pub enum PayloadKind {
    Nothing,
    Type,
}

/// A sort: this one, or that of the type that stands with the symbol.
#[derive(Clone, Copy, PartialEq, Eq)]
pub enum Pattern {
    Fixed(Sort),
    OfType,
}

/// A symbol, its word, what stands with it, the sorts of its parts and of what it gives.
#[derive(Clone, Copy)]
pub struct SymbolRow<W, T> {
    pub symbol: Symbol,
    pub word: W,
    pub payload: PayloadKind,
    pub taken: T,
    pub given: Pattern,
}

/// A row whose lists are constants.
pub type SymbolEntry = SymbolRow<&'static [u8], &'static [Pattern]>;

const NUMBER: Pattern = Pattern::Fixed(Sort::Number);

const TRUTH: Pattern = Pattern::Fixed(Sort::Truth);

const CHARACTER: Pattern = Pattern::Fixed(Sort::Character);

macro_rules! row {
    ($symbol:ident, $word:expr, $payload:ident, [$($taken:expr),*], $given:expr) => {
        SymbolRow {
            symbol: Symbol::$symbol,
            word: $word,
            payload: PayloadKind::$payload,
            taken: &[$($taken),*],
            given: $given,
        }
    };
}

const TABLE: &[SymbolEntry] = &[
    row!(Div, b"div", Nothing, [NUMBER, NUMBER], NUMBER),
    row!(Mod, b"mod", Nothing, [NUMBER, NUMBER], NUMBER),
    row!(Code, b"code", Nothing, [CHARACTER], NUMBER),
    row!(Chr, b"chr", Nothing, [NUMBER], CHARACTER),
    row!(Is, b"is", Type, [Pattern::OfType], TRUTH),
];

/// The table.
#[tactic(auto, unfolding(crate::specs::Symbol::symbols))]
pub fn symbols() -> &'static [SymbolEntry]
    ensures { map entry_of result.now ≡ symbols }
{
    TABLE
}

#[tactic(auto, unfolding(crate::specs::Symbol::same_symbol))]
fn is_row(symbol: Symbol, row: &SymbolEntry) -> bool
    ensures { result ≡ is_row symbol (entry_of row.now) }
{
    row.symbol == symbol
}

fn find_row(rows: &[SymbolEntry], symbol: Symbol) -> Option<&SymbolEntry>
    ensures { option_map (λ row. entry_of row.now) result ≡ find (is_row symbol) (map entry_of rows.now) }
{
    for row in rows {
        if is_row(symbol, row) {
            return Some(row);
        }
    }
    None
}

fn is_testable(ty: Ty) -> bool
    ensures { result ≡ is_testable ty }
{
    match ty {
        Ty::Bool => false,
        Ty::Newtype(_) | Ty::Int | Ty::Nat | Ty::Char => true,
    }
}

impl Symbol {
    /// Its row.
    pub fn row(self) -> Option<&'static SymbolEntry>
        ensures { option_map (λ row. entry_of row.now) result ≡ row_of self }
    {
        find_row(symbols(), self)
    }

    /// The sort that it gives.
    pub(crate) fn given(self) -> Pattern
        ensures { result ≡ given_by self }
    {
        match self.row() {
            Some(row) => row.given,
            None => NUMBER,
        }
    }
}

impl PayloadKind {
    /// Whether this may stand with a symbol that wants such.
    pub(crate) fn accepts(self, payload: Payload) -> bool
        ensures { result ≡ accepts self payload }
    {
        match (self, payload) {
            (PayloadKind::Nothing, Payload::Nothing) => true,
            (PayloadKind::Type, Payload::Type(ty)) => is_testable(ty),
            (PayloadKind::Nothing, Payload::Type(_)) | (PayloadKind::Type, Payload::Nothing) =>
                false,
        }
    }
}

impl Payload {
    /// The type that it is; `int` where it is none.
    pub fn ty(self) -> Ty
        ensures { result ≡ type_in self }
    {
        match self {
            Payload::Type(ty) => ty,
            Payload::Nothing => Ty::Int,
        }
    }
}

impl Pattern {
    /// The sort, where this stands with the symbol.
    pub(crate) fn filled(self, payload: Payload) -> Sort
        ensures { result ≡ filled payload self }
    {
        match self {
            Pattern::Fixed(sort) => sort,
            Pattern::OfType => sort_of_type(payload.ty()),
        }
    }
}
