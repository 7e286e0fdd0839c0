//! Strict operations: each pops its operands, and pushes the result.

ghost use Rattle.std.specs.Prelude.{◌≡◌};
ghost use Rattle.df_mach2.specs.Row as rows;

/// The whole numbers from `low` to `high`, both inside.
#[derive(Clone, Copy, PartialEq, Eq)]
pub struct Range {
    pub low: i128,
    pub high: i128,
}

/// What is made of the operands on top, of which the last is on top.
#[derive(Clone, Copy, PartialEq, Eq)]
pub enum Op {
    Number(i128),
    Truth(bool),
    /// A character, as its byte.
    Char(u8),
    /// The reference to nothing.
    Null,
    /// The sum of two numbers, which has to lie in the range.
    Add(Range),
    /// The left number less the right one, which has to lie in the range.
    Subtract(Range),
    /// The product of two numbers, which has to lie in the range.
    Multiply(Range),
    /// The Euclidean quotient of two numbers: the right one is not 0, and the quotient has to lie in the range.
    Divide(Range),
    /// The Euclidean remainder of two numbers, which is never negative: the right one is not 0, and the remainder
    /// has to lie in the range.
    Modulo(Range),
    /// The number with its sign turned, which has to lie in the range.
    Negate(Range),
    /// The number, which has to lie in the range.
    Fit(Range),
    /// Whether the left number or character is below the right one.
    Less,
    /// Whether the left number or character is at most the right one.
    AtMost,
    /// Whether two values are equal. Values of two kinds are not.
    Same,
    /// The other truth.
    Not,
    /// The number of a character.
    Code,
    /// The character of a number, which has to be one of 0 to 127.
    Character,
    /// The constructor of this number with so many arguments.
    Construct { tag: usize, count: usize },
    /// The argument at this place of a constructor.
    Part(usize),
    /// The number of a constructor.
    Tag,
    /// The sequence of so many members.
    Sequence(usize),
    /// How many members a sequence has.
    Length,
    /// The member of a sequence at a place.
    At,
    /// The part of a sequence from one place up to another.
    Slice,
    /// One sequence behind another.
    Join,
    /// A sequence with another member at a place.
    Update,
}

impl Op {
    /// How many operands it pops.
    pub fn taken(&self) -> usize
        ensures { result ≡ rows.taken self.now }
    {
        match self {
            Op::Number(_) | Op::Truth(_) | Op::Char(_) | Op::Null => 0,
            Op::Negate(_) | Op::Fit(_) | Op::Not | Op::Code | Op::Character => 1,
            Op::Part(_) | Op::Tag | Op::Length => 1,
            Op::Add(_) | Op::Subtract(_) | Op::Multiply(_) | Op::Divide(_) | Op::Modulo(_) => 2,
            Op::Less | Op::AtMost | Op::Same | Op::At | Op::Join => 2,
            Op::Slice | Op::Update => 3,
            Op::Construct { tag: _, count } | Op::Sequence(count) => *count,
        }
    }
}
