//! Texts of codes.

use df_codes::{method, shapes};
use df_listing::{one_code, write};
use df_nmach::{BinaryOperator, Code, Instruction, Method, Range, UnaryOperator};
use std::alloc::Global;

const WIDE: Range = Range {
    low: i128::MIN,
    high: i128::MAX,
};

const SMALL: Range = Range { low: -1, high: 10 };

/// Instructions with a line each: of values and places ..
const PLACES: [(Instruction, &str); 10] = [
    (
        Instruction::Number(i128::MIN),
        "num -170141183460469231731687303715884105728\n",
    ),
    (Instruction::Number(0), "num 0\n"),
    (Instruction::Truth(true), "truth true\n"),
    (Instruction::Truth(false), "truth false\n"),
    (Instruction::Char(127), "char 127\n"),
    (Instruction::Get(0), "get 0\n"),
    (Instruction::Set(usize::MAX), "set 18446744073709551615\n"),
    (Instruction::Drop, "drop\n"),
    (Instruction::Sequence(0), "seq 0\n"),
    (Instruction::Sequence(12), "seq 12\n"),
];

/// .. of operators with a range ..
const RANGES: [(Instruction, &str); 7] = [
    (
        Instruction::Unary(UnaryOperator::Negate(SMALL)),
        "neg -1 10\n",
    ),
    (Instruction::Unary(UnaryOperator::Fit(SMALL)), "fit -1 10\n"),
    (
        Instruction::Binary(BinaryOperator::Add(WIDE)),
        "add -170141183460469231731687303715884105728 170141183460469231731687303715884105727\n",
    ),
    (
        Instruction::Binary(BinaryOperator::Subtract(SMALL)),
        "sub -1 10\n",
    ),
    (
        Instruction::Binary(BinaryOperator::Multiply(SMALL)),
        "mul -1 10\n",
    ),
    (
        Instruction::Binary(BinaryOperator::Divide(SMALL)),
        "div -1 10\n",
    ),
    (
        Instruction::Binary(BinaryOperator::Modulo(SMALL)),
        "mod -1 10\n",
    ),
];

/// .. of the other operators ..
const OPERATORS: [(Instruction, &str); 6] = [
    (Instruction::Unary(UnaryOperator::Not), "not\n"),
    (Instruction::Unary(UnaryOperator::Code), "code\n"),
    (Instruction::Unary(UnaryOperator::Character), "chr\n"),
    (Instruction::Binary(BinaryOperator::Less), "less\n"),
    (Instruction::Binary(BinaryOperator::AtMost), "most\n"),
    (Instruction::Binary(BinaryOperator::Same), "same\n"),
];

/// .. and of jumps, calls and prints.
const JUMPS: [(Instruction, &str); 7] = [
    (Instruction::Jump(29), "jump 29\n"),
    (Instruction::Unless(0), "unless 0\n"),
    (Instruction::Call(1), "call 1\n"),
    (Instruction::Print(0), "print 0\n"),
    (Instruction::Print(3), "print 3\n"),
    (Instruction::Return(0), "ret 0\n"),
    (Instruction::Return(2), "ret 2\n"),
];

const HEAD: &str =
    "dfycode 1\nshape num\nshape truth\nshape char\nshape text\nmethod Main 0 2 5 30\n";

/// Adds a line. Where memory is refused it is left out, so that the text is another.
fn put(text: &mut String, line: &str) {
    let _ = text.push_str(line);
}

/// Adds the instructions of a table, and their lines.
fn put_table(
    instructions: &mut Vec<Instruction>,
    text: &mut String,
    table: &[(Instruction, &str)],
) -> bool {
    for (instruction, line) in table {
        if instructions.push(*instruction).is_err() {
            return false;
        }
        put(text, *line);
    }
    true
}

/// Adds the instructions of the tables, and their lines.
fn put_tables(instructions: &mut Vec<Instruction>, text: &mut String) -> bool {
    put_table(instructions, text, &PLACES)
        && put_table(instructions, text, &RANGES)
        && put_table(instructions, text, &OPERATORS)
        && put_table(instructions, text, &JUMPS)
}

/// Adds a method of these instructions.
fn push_main(alloc: Global, methods: &mut Vec<Method>, instructions: Vec<Instruction>) -> bool {
    match method(alloc, "Main", (0, 2, 5), instructions) {
        Ok(main) => methods.push(main).is_ok(),
        Err(_) => false,
    }
}

/// Adds a method of none.
fn push_other(alloc: Global, methods: &mut Vec<Method>) -> bool {
    match method(alloc, "M_1.C'.new?", (2, 0, 0), Vec::new(alloc)) {
        Ok(other) => methods.push(other).is_ok(),
        Err(_) => false,
    }
}

/// The code of a method of these instructions, and of one of none.
fn both(alloc: Global, instructions: Vec<Instruction>) -> Option<Code> {
    let mut methods = Vec::new(alloc);
    if !push_main(alloc, &mut methods, instructions) || !push_other(alloc, &mut methods) {
        return None;
    }
    match shapes(alloc) {
        Ok(shapes) => Some(Code { methods, shapes }),
        Err(_) => None,
    }
}

/// Whether the text of a code is this one.
fn is_written(alloc: Global, code: &Code, wanted: &str) -> bool {
    match write(alloc, code) {
        Ok(text) => text.as_slice() == wanted.as_bytes(),
        Err(_) => false,
    }
}

/// Whether the text of both methods is this one.
fn are_written(alloc: Global, instructions: Vec<Instruction>, wanted: &str) -> bool {
    match both(alloc, instructions) {
        Some(code) => is_written(alloc, &code, wanted),
        None => false,
    }
}

#[test]
fn writes_a_line_for_each_instruction(rt: HostRuntime) {
    one_code();
    let mut instructions = Vec::new(rt.alloc());
    let mut wanted = String::new(rt.alloc());
    put(&mut wanted, HEAD);
    assert!(rt; put_tables(&mut instructions, &mut wanted));
    put(&mut wanted, "method M_1.C'.new? 2 0 0 0\nend\n");
    assert!(rt; are_written(rt.alloc(), instructions, wanted.as_str()));
}

#[test]
fn writes_a_code_of_nothing(rt: HostRuntime) {
    let code = Code {
        methods: Vec::new(rt.alloc()),
        shapes: Vec::new(rt.alloc()),
    };
    assert!(rt; is_written(rt.alloc(), &code, "dfycode 1\nend\n"));
}
