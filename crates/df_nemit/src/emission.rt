//! Methods and programs.

ghost use Rattle.std.specs.Prelude.{◌≡◌, ◌+◌, ◌<◌, ◌≤◌, ◌^◌, true, [], ◌∷◌, ◌++◌, length, map, IfOk, OnOk};
ghost use Rattle.df_nplain.specs.MethodView as plain_view;
ghost use Rattle.df_nplain.specs.Plain as plain_program;
ghost use Rattle.df_nplain.specs.View.{plain_of};
ghost use Rattle.df_nmach.specs.Name.{is_name};
ghost use Rattle.df_nmach.specs.State as state;
ghost use Rattle.df_nmach.specs.View.{method_of, code_of};
ghost use Rattle.df_nemit.specs.Code as pure;
ghost use Rattle.df_nemit.specs.Correct.{DoesWhat};
ghost use Rattle.df_nemit.specs.mirror.Emitting as mirror;
ghost use Rattle.df_nemit.specs.Named.{are_named};

use crate::draft::Draft;
use crate::instructions::{land, put};
use crate::statements::stmts;
use df_nmach::{Code, Instruction, Shape};
use df_nplain::{Method, Plain};
use std::alloc::{AllocError, Global};

/// Returns so many locals from one on.
fn give(code: &mut Vec<Instruction>, first: usize, count: usize) -> Result<(), AllocError>
    requires { first + count < 2 ^ 64 }
    ensures ok { OnOk result (code.new.items ≡ code.old.items ++ (pure.gets first count ++ mirror.give count)) }
{
    for local in first..first + count {
        put(code, Instruction::Get(local))?;
    }
    put(code, Instruction::Return(count))
}

/// The highest local that an instruction pops into, or this one.
fn highest(local: usize, code: &Vec<Instruction>) -> usize
    ensures is { result ≡ pure.highest local code.now.items }
    ensures least { local ≤ result }
{
    let mut most = local;
    for instruction in code {
        if let Instruction::Set(other) = instruction {
            most = most.max(*other);
        }
    }
    most
}

fn body(alloc: Global, plain: &Plain, method: &Method) -> Result<Vec<Instruction>, AllocError>
    ensures { IfOk result (λ code. code.items ≡ mirror.emit_body (plain_of plain.now) (plain_view.method_of method.now)) }
{
    let parameters = method.parameters.len();
    let results = method.results.len();
    let mut draft = Draft {
        code: Vec::new(alloc),
        breaks: Vec::new(alloc),
        returns: Vec::new(alloc),
    };
    stmts(plain, parameters + results, &mut draft, &method.body)?;
    let end = draft.code.len();
    land(&mut draft.code, &draft.breaks, end);
    land(&mut draft.code, &draft.returns, end);
    let mut code = draft.code;
    give(&mut code, parameters, results)?;
    Ok(code)
}

fn emit_one(alloc: Global, plain: &Plain, method: &Method) -> Result<df_nmach::Method, AllocError>
    requires { is_name (plain_view.method_of method.now).text ≡ true }
    ensures { IfOk result (λ code. method_of code ≡ mirror.emit_method (plain_of plain.now) (plain_view.method_of method.now)) }
{
    let parameters = method.parameters.len();
    let results = method.results.len();
    let instructions = body(alloc, plain, method)?;
    let past = highest(parameters + results, &instructions) - parameters;
    if past == usize::MAX {
        return Err(AllocError);
    }
    Ok(df_nmach::Method {
        name: method.text.clone()?,
        parameters,
        results,
        locals: past + 1,
        instructions,
    })
}

/// The machine code of a program whose methods have names, as those of a source have: the names of its tokens are
/// identifiers. It fails for want of memory, also where a frame would have as many locals as no memory has room
/// for.
pub fn emit(alloc: Global, plain: &Plain) -> Result<Code, AllocError>
    requires names { are_named (plain_of plain.now) ≡ true }
    // It is a function of the program.
    ensures code { IfOk result (λ code. code_of code ≡ pure.plain_code (plain_of plain.now)) }
    // It does what the program does.
    ensures does { IfOk result (λ code. DoesWhat (plain_of plain.now) (code_of code)) }
    // Methods keep their numbers.
    ensures methods { IfOk result (λ code. map (λ (m : state.Method). m.name) (code_of code).methods ≡ map (λ (m : plain_program.Method). m.text) (plain_of plain.now).methods) }
{
    let mut methods = Vec::with_capacity(alloc, plain.methods.len())?;
    for method in &plain.methods {
        methods.push(emit_one(alloc, plain, method)?)?;
    }
    Ok(Code {
        methods,
        shapes: vec![in alloc; Shape::Number, Shape::Truth, Shape::Char, Shape::Text]?,
    })
}
