//! Methods, and the shapes of all codes here.

ghost use Rattle.std.specs.Prelude.{◌≡◌, [], ◌∷◌, true, IfOk};
ghost use Rattle.df_nmach.specs.Name.{is_name};
ghost use Rattle.df_nmach.specs.View.{method_of};

use df_nmach::{Instruction, Method, Range, Shape};
use std::alloc::{AllocError, Global};

/// All numbers of 128 bits.
pub(crate) const ALL: Range = Range {
    low: i128::MIN,
    high: i128::MAX,
};

/// The numbers of one digit.
pub(crate) const DIGIT: Range = Range { low: -9, high: 9 };

/// The numbers of 32 bits.
pub(crate) const BITS: Range = Range {
    low: -2147483648,
    high: 2147483647,
};

/// A method of this name with so many parameters, results and further locals.
pub fn method(
    alloc: Global,
    name: &str,
    counts: (usize, usize, usize),
    instructions: Vec<Instruction>,
) -> Result<Method, AllocError>
    requires { is_name name.now ≡ true }
    ensures { IfOk result (λ method. method_of method ≡ record { name = name.now; parameters = counts.0; results = counts.1; locals = counts.2; instructions = instructions.items }) }
{
    let (parameters, results, locals) = counts;
    let name = String::from_str(alloc, name)?;
    Ok(Method {
        name,
        parameters,
        results,
        locals,
        instructions,
    })
}

/// Each shape, by its number.
pub fn shapes(alloc: Global) -> Result<Vec<Shape>, AllocError>
    ensures { IfOk result (λ shapes. shapes.items ≡ Shape.Number ∷ Shape.Truth ∷ Shape.Char ∷ Shape.Text ∷ []) }
{
    let shapes = Vec::from_array(
        alloc,
        [Shape::Number, Shape::Truth, Shape::Char, Shape::Text],
    )?;
    Ok(shapes)
}
