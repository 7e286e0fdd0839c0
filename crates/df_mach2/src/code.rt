//! Code.

ghost use Rattle.std.specs.Prelude.{◌≡◌, true, string_bytes};
ghost use Rattle.df_mach2.specs.Name.{is_identifier, is_name};

use crate::instruction::Instruction;

/// A constructor by its name, and the shapes of its arguments by their numbers.
#[derive(Drop)]
pub struct Constructor {
    pub name: String,
    pub parts: Vec<usize>,
    ghost is_named: { is_identifier (string_bytes name) ≡ true },
}

/// How a value is printed.
#[derive(Drop)]
pub enum Shape {
    /// A number, in decimal.
    Number,
    /// A truth, by its word.
    Truth,
    /// A character.
    Char,
    /// The characters of a sequence, one after another.
    Text,
    /// The members of a sequence by the shape of this number, in brackets.
    List(usize),
    /// A constructor by its name, with its arguments in parentheses if it has any.
    Data(Vec<Constructor>),
}

/// A method, constructor or bound function.
#[derive(Drop)]
pub struct Method {
    /// Its qualified name: identifiers parted by dots.
    pub name: String,
    /// How many parameters it has. They are its first locals.
    pub parameters: usize,
    /// How many results it has.
    pub results: usize,
    /// How many locals it has past its parameters.
    pub locals: usize,
    pub instructions: Vec<Instruction>,
    ghost is_named: { is_name (string_bytes name) ≡ true },
}

/// A compiled program. Methods and shapes are known by their numbers, counted from 0.
#[derive(Drop)]
pub struct Code {
    pub methods: Vec<Method>,
    pub shapes: Vec<Shape>,
}
