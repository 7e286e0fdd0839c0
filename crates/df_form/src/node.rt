//! Terms and formulas: a node is an operation on nodes that stand before it.

ghost use Rattle.std.specs.Prelude.{◌≡◌};
ghost use Rattle.df_form.specs.Node.{symbol, test_of};

use crate::symbol::{Payload, Symbol};
use df_lang::Ty;

/// A term, by the number of its node.
pub type Term = usize;

/// A term whose value is a truth.
pub type Formula = usize;

/// The kind of value that a node has. A formula is a node whose value is a truth.
#[derive(Clone, Copy, PartialEq, Eq, Hash)]
pub enum Sort {
    Number,
    Truth,
    /// One of the 128 characters.
    Character,
}

/// A term that an assignment gives a value of its sort.
#[derive(Clone, Copy, PartialEq, Eq, Hash)]
pub struct Free {
    pub number: usize,
    pub sort: Sort,
}

/// What a node does with the values of its parts.
#[derive(Clone, Copy, PartialEq, Eq, Hash)]
pub enum Op {
    /// A whole number.
    Number(i128),
    Free(Free),
    /// The sum of two numbers.
    Plus,
    /// The product of two numbers.
    Times,
    /// Two numbers, or two characters, are equal.
    Equal,
    /// The first number is at most the second.
    AtMost,
    Not,
    /// Any number of formulas are all true.
    And,
    /// One of any number of formulas is true.
    Or,
    Implies,
    Iff,
    /// A symbol, with what stands with it.
    Of(Symbol, Payload),
}

impl Op {
    /// A symbol with which nothing stands.
    pub fn symbol(symbol: Symbol) -> Op
        ensures { result ≡ Rattle.df_form.specs.Node.symbol symbol }
    {
        Op::Of(symbol, Payload::Nothing)
    }

    /// That a value is of the type.
    pub fn test(ty: Ty) -> Op
        ensures { result ≡ test_of ty }
    {
        Op::Of(Symbol::Is, Payload::Type(ty))
    }
}

/// A term or a formula: an operation, and the numbers of its parts in their order.
#[derive(Drop, PartialEq, Eq, Hash)]
pub struct Node {
    pub op: Op,
    pub parts: Vec<Term>,
}
