//! The text of a code.

ghost use Rattle.std.specs.Prelude.{◌≡◌, ◌++◌, map, OnOk, IfOk};
ghost use Rattle.std.specs.List.{flat_map, AllByRecursion};
ghost use Rattle.df_nmach.specs.View.{code_of, method_of};
ghost use Rattle.df_listing.specs.Listing.{unary_words, binary_words, line_text, method_words, instruction_line, shape_line, method_text, listing_text};
ghost use Rattle.df_listing.specs.Ordinary.{FittingUnary, FittingBinary, Fitting, HasHeader, IsOrdinaryMethod, IsOrdinary};

use crate::words::{push_count, push_number, push_range, push_word, push_words};
use df_nmach::{BinaryOperator, Code, Instruction, Method, Shape, UnaryOperator};
use std::alloc::{AllocError, Global};

fn push_unary(alloc: Global, text: &mut Vec<u8>, operator: UnaryOperator) -> Result<(), AllocError>
    ensures text { OnOk result (text.new.items ≡ text.old.items ++ line_text (unary_words operator)) }
    ensures fits { FittingUnary operator }
{
    match operator {
        UnaryOperator::Negate(range) => push_range(alloc, text, "neg", range),
        UnaryOperator::Fit(range) => push_range(alloc, text, "fit", range),
        UnaryOperator::Not => push_word(text, "not"),
        UnaryOperator::Code => push_word(text, "code"),
        UnaryOperator::Character => push_word(text, "chr"),
    }
}

fn push_binary(
    alloc: Global,
    text: &mut Vec<u8>,
    operator: BinaryOperator,
) -> Result<(), AllocError>
    ensures text { OnOk result (text.new.items ≡ text.old.items ++ line_text (binary_words operator)) }
    ensures fits { FittingBinary operator }
{
    match operator {
        BinaryOperator::Add(range) => push_range(alloc, text, "add", range),
        BinaryOperator::Subtract(range) => push_range(alloc, text, "sub", range),
        BinaryOperator::Multiply(range) => push_range(alloc, text, "mul", range),
        BinaryOperator::Divide(range) => push_range(alloc, text, "div", range),
        BinaryOperator::Modulo(range) => push_range(alloc, text, "mod", range),
        BinaryOperator::Less => push_word(text, "less"),
        BinaryOperator::AtMost => push_word(text, "most"),
        BinaryOperator::Same => push_word(text, "same"),
    }
}

fn push_instruction(
    alloc: Global,
    text: &mut Vec<u8>,
    instruction: &Instruction,
) -> Result<(), AllocError>
    ensures text { OnOk result (text.new.items ≡ text.old.items ++ instruction_line instruction.now) }
    ensures fits { Fitting instruction.now }
{
    match *instruction {
        Instruction::Number(number) => push_number(alloc, text, "num", number),
        Instruction::Truth(true) => push_words(alloc, text, "truth", "true"),
        Instruction::Truth(false) => push_words(alloc, text, "truth", "false"),
        Instruction::Char(character) => push_count(alloc, text, "char", usize::from(character)),
        Instruction::Get(local) => push_count(alloc, text, "get", local),
        Instruction::Set(local) => push_count(alloc, text, "set", local),
        Instruction::Drop => push_word(text, "drop"),
        Instruction::Unary(operator) => push_unary(alloc, text, operator),
        Instruction::Binary(operator) => push_binary(alloc, text, operator),
        Instruction::Jump(place) => push_count(alloc, text, "jump", place),
        Instruction::Unless(place) => push_count(alloc, text, "unless", place),
        Instruction::Call(method) => push_count(alloc, text, "call", method),
        Instruction::Return(results) => push_count(alloc, text, "ret", results),
        Instruction::Sequence(elements) => push_count(alloc, text, "seq", elements),
        Instruction::Print(shape) => push_count(alloc, text, "print", shape),
    }
}

fn push_instructions(
    alloc: Global,
    text: &mut Vec<u8>,
    instructions: &[Instruction],
) -> Result<(), AllocError>
    ensures text { OnOk result (text.new.items ≡ text.old.items ++ flat_map instruction_line instructions.now) }
    ensures fits { OnOk result (AllByRecursion Fitting instructions.now) }
{
    for instruction in instructions {
        push_instruction(alloc, text, instruction)?;
    }
    Ok(())
}

fn push_method_line(alloc: Global, text: &mut Vec<u8>, method: &Method) -> Result<(), AllocError>
    ensures text { OnOk result (text.new.items ≡ text.old.items ++ line_text (method_words (method_of method.now))) }
    ensures fits { HasHeader (method_of method.now) }
{
    let name = method.name.as_str();
    let parameters = method.parameters;
    let results = method.results;
    let locals = method.locals;
    let count = method.instructions.len();
    let line = format!(in alloc; "method {name} {parameters} {results} {locals} {count}\n")?;
    text.extend_from_slice(line.as_bytes())?;
    Ok(())
}

fn push_method(alloc: Global, text: &mut Vec<u8>, method: &Method) -> Result<(), AllocError>
    ensures text { OnOk result (text.new.items ≡ text.old.items ++ method_text (method_of method.now)) }
    ensures fits { OnOk result (IsOrdinaryMethod (method_of method.now)) }
{
    push_method_line(alloc, text, method)?;
    push_instructions(alloc, text, &method.instructions)
}

fn push_methods(alloc: Global, text: &mut Vec<u8>, methods: &[Method]) -> Result<(), AllocError>
    ensures text { OnOk result (text.new.items ≡ text.old.items ++ flat_map method_text (map method_of methods.now)) }
    ensures fits { OnOk result (AllByRecursion IsOrdinaryMethod (map method_of methods.now)) }
{
    for method in methods {
        push_method(alloc, text, method)?;
    }
    Ok(())
}

fn push_shape(alloc: Global, text: &mut Vec<u8>, shape: Shape) -> Result<(), AllocError>
    ensures { OnOk result (text.new.items ≡ text.old.items ++ shape_line shape) }
{
    match shape {
        Shape::Number => push_words(alloc, text, "shape", "num"),
        Shape::Truth => push_words(alloc, text, "shape", "truth"),
        Shape::Char => push_words(alloc, text, "shape", "char"),
        Shape::Text => push_words(alloc, text, "shape", "text"),
    }
}

fn push_shapes(alloc: Global, text: &mut Vec<u8>, shapes: &[Shape]) -> Result<(), AllocError>
    ensures { OnOk result (text.new.items ≡ text.old.items ++ flat_map shape_line shapes.now) }
{
    for shape in shapes {
        push_shape(alloc, text, *shape)?;
    }
    Ok(())
}

/// The text of a code: `dfycode 1`; for each shape in order `shape` with `num`, `truth`, `char` or `text`;
/// for each method in order `method` with its name, how many parameters, results, further locals and
/// instructions it has, and then these, each by its name and its numbers; and `end`. Words are parted by
/// one blank, numbers are decimal, and each line ends with a line feed. No other code has this text. It fails
/// for want of memory.
pub fn write(alloc: Global, code: &Code) -> Result<Vec<u8>, AllocError>
    ensures text { IfOk result (λ text. text.items ≡ listing_text (code_of code.now)) }
    ensures ordinary { IfOk result (λ _. IsOrdinary (code_of code.now)) }
{
    let mut text = Vec::new(alloc);
    push_words(alloc, &mut text, "dfycode", "1")?;
    push_shapes(alloc, &mut text, &code.shapes)?;
    push_methods(alloc, &mut text, &code.methods)?;
    push_word(&mut text, "end")?;
    Ok(text)
}
