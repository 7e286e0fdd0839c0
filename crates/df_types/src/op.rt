//! Strict operations: each is a row of each table.

use crate::ty::Ty;

/// How two values compare.
#[derive(Clone, Copy, PartialEq, Eq)]
pub enum Comparison {
    Equal,
    NotEqual,
    Less,
    AtMost,
    Greater,
    AtLeast,
}

/// A part of a constructor, by their numbers in the datatype.
#[derive(Clone, Copy, PartialEq, Eq)]
pub struct PartOf {
    pub constructor: usize,
    pub part: usize,
}

/// An operation all of whose operands are evaluated, from the left.
#[derive(Drop)]
pub enum Op {
    /// A literal of an integer type.
    Number {
        ty: Ty,
        value: i128,
    },
    Truth(bool),
    /// A character by its code.
    Character(u8),
    /// The characters of a string literal.
    Text(Vec<u8>),
    Null(Ty),
    Negate(Ty),
    Add(Ty),
    Subtract(Ty),
    Multiply(Ty),
    /// Euclidean.
    Divide(Ty),
    Modulo(Ty),
    Not,
    /// Of two values of the type; `<==>` is equality of truths.
    Compare {
        comparison: Comparison,
        ty: Ty,
    },
    /// A number or a character as one of another type, which it must be.
    As {
        source: Ty,
        target: Ty,
    },
    /// A value at a place of a type that it fits.
    Fit {
        source: Ty,
        target: Ty,
    },
    /// A value at a place of a narrower type, which it must be of.
    Narrow {
        source: Ty,
        target: Ty,
    },
    /// The sequence of so many elements.
    Sequence {
        element: Ty,
        size: usize,
    },
    /// The set of so many members.
    Set {
        element: Ty,
        size: usize,
    },
    SequenceSize(Ty),
    SetSize(Ty),
    /// Whether a value stands in a sequence.
    InSequence(Ty),
    /// Whether a value is a member of a set.
    InSet(Ty),
    /// The element of a sequence at an index.
    Item(Ty),
    /// A value of the datatype by its constructor of this number.
    Construct {
        ty: Ty,
        constructor: usize,
    },
    /// Whether a value has the constructor.
    HasConstructor {
        ty: Ty,
        constructor: usize,
    },
    /// The part that a destructor names: one for each constructor that has it.
    Part {
        ty: Ty,
        result: Ty,
        parts: Vec<PartOf>,
    },
    /// The objects of a frame, whose members are objects and sets of them.
    Objects(Vec<Ty>),
    /// The end of a `match` that no case fits.
    NoneFits(Ty),
}
