//! Instructions.

/// The whole numbers from `low` to `high`, both inside.
#[derive(Clone, Copy, PartialEq, Eq)]
pub struct Range {
    pub low: i128,
    pub high: i128,
}

/// What is done with the operand on top.
#[derive(Clone, Copy, PartialEq, Eq)]
pub enum UnaryOperator {
    /// The number with its sign turned, which has to lie in the range.
    Negate(Range),
    /// The number, which has to lie in the range.
    Fit(Range),
    /// The other truth.
    Not,
    /// The number of a character.
    Code,
    /// The character of a number, which has to be one of 0 to 127.
    Character,
}

/// What is done with the two operands on top: the one on top is the right one.
#[derive(Clone, Copy, PartialEq, Eq)]
pub enum BinaryOperator {
    /// The sum of two numbers, which has to lie in the range.
    Add(Range),
    /// The left number less the right one, which has to lie in the range.
    Subtract(Range),
    /// The product of two numbers, which has to lie in the range.
    Multiply(Range),
    /// The Euclidean quotient of two numbers: the right one is not 0, and the quotient has to lie in the
    /// range.
    Divide(Range),
    /// The Euclidean remainder of two numbers, which is never negative: the right one is not 0, and the
    /// remainder has to lie in the range.
    Modulo(Range),
    /// Whether the left number or character is below the right one.
    Less,
    /// Whether the left number or character is at most the right one.
    AtMost,
    /// Whether two values are equal. Values of two kinds are not.
    Same,
}

/// One step of a method.
#[derive(Clone, Copy, PartialEq, Eq)]
pub enum Instruction {
    /// Pushes a number.
    Number(i128),
    /// Pushes a truth.
    Truth(bool),
    /// Pushes a character.
    Char(u8),
    /// Pushes the local of this number.
    Get(usize),
    /// Pops into the local of this number.
    Set(usize),
    /// Pops.
    Drop,
    /// Pops an operand, and pushes the result.
    Unary(UnaryOperator),
    /// Pops two operands, and pushes the result.
    Binary(BinaryOperator),
    /// Goes to the instruction of this number in the method.
    Jump(usize),
    /// Pops a truth, and goes to the instruction of this number if it is false.
    Unless(usize),
    /// Pops the parameters of the method of this number, the first of them deepest, and begins it. The
    /// frame waits for its results.
    Call(usize),
    /// Pops so many results and ends the frame. The frame that waits for them has them on top; the machine
    /// ends where none waits.
    Return(usize),
    /// Pops so many characters, the first of them deepest, and pushes their sequence, which is a text.
    Sequence(usize),
    /// Pops a value, and writes it by the shape of this number.
    Print(usize),
}
