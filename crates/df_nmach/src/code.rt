//! Code.

ghost use Rattle.std.specs.Prelude.{◌≡◌, true, string_bytes};
ghost use Rattle.df_nmach.specs.Name.{is_name};

use crate::instruction::Instruction;

/// How a value is printed.
#[derive(Clone, Copy, PartialEq, Eq)]
pub enum Shape {
    /// A number, in decimal.
    Number,
    /// A truth, by its word.
    Truth,
    /// A character.
    Char,
    /// The characters of a text, one after another.
    Text,
}

/// A method, constructor or bound function.
#[derive(Drop)]
pub struct Method {
    /// Its qualified name: identifiers parted by dots.
    pub name: String,
    /// How many parameters it has. They are its first locals.
    pub parameters: usize,
    /// How many results it has.
    pub results: usize,
    /// How many locals it has past its parameters.
    pub locals: usize,
    pub instructions: Vec<Instruction>,
    ghost is_named: { is_name (string_bytes name) ≡ true },
}

/// A compiled program. Methods and shapes are known by their numbers, counted from 0.
#[derive(Drop)]
pub struct Code {
    pub methods: Vec<Method>,
    pub shapes: Vec<Shape>,
}
