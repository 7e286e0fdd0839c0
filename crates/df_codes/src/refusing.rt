//! A code that prints 1, calls a method of so many locals, and then prints 2.

ghost use Rattle.std.specs.Prelude.{◌≡◌, [], ◌∷◌, IfOk};
ghost use Rattle.df_codes.specs.Refusing.{calling_rows, refusing};
ghost use Rattle.df_nmach.specs.View.{code_of};

use crate::parts::{method, shapes};
use df_nmach::{Code, Heap, Instruction};
use df_nvm::Vm;
use std::alloc::{AllocError, Global};

fn calling_instructions(alloc: Global) -> Result<Vec<Instruction>, AllocError>
    ensures { IfOk result (λ instructions. instructions.items ≡ calling_rows) }
{
    let instructions = Vec::from_array(
        alloc,
        [
            Instruction::Number(1),
            Instruction::Print(0),
            Instruction::Call(1),
            Instruction::Number(2),
            Instruction::Print(0),
            Instruction::Return(0),
        ],
    )?;
    Ok(instructions)
}

/// The code.
pub fn refusing_code(alloc: Global, locals: usize) -> Result<Code, AllocError>
    ensures { IfOk result (λ code. code_of code ≡ refusing locals) }
{
    let main = method(alloc, "Main", (0, 0, 0), calling_instructions(alloc)?)?;
    let returning = Vec::from_array(alloc, [Instruction::Return(0)])?;
    let wide = method(alloc, "Wide", (0, 0, locals), returning)?;
    Ok(Code {
        methods: Vec::from_array(alloc, [main, wide])?,
        shapes: shapes(alloc)?,
    })
}

/// The machine at its beginning, where the method that it calls has so many locals.
pub fn refusing_vm<'a>(alloc: Global, code: &'a Code, locals: usize) -> Result<Vm<'a>, AllocError>
    requires { code_of code.now ≡ refusing locals }
{
    Vm::new(alloc, code, 0, Heap::new(alloc), Vec::new(alloc))
}
