//! The machine at the beginning of each method of the programs.

ghost use Rattle.std.specs.Prelude.{◌≡◌, ◌<◌, ◌^◌, [], ◌∷◌, pos, IfOk};
ghost use Rattle.df_codes.specs.Programs.{programs};
ghost use Rattle.df_nmach.specs.Value as pure;
ghost use Rattle.df_nmach.specs.View.{code_of, values_of};

use df_nmach::{Code, Heap, Value};
use df_nvm::Vm;
use std::alloc::{AllocError, Global};

/// One number as the arguments.
fn argument(alloc: Global, number: u32) -> Result<Vec<Value>, AllocError>
    ensures { IfOk result (λ arguments. values_of arguments.items ≡ pure.Number (pos number) ∷ []) }
{
    let arguments = Vec::from_array(alloc, [Value::Number(i128::from(number))])?;
    Ok(arguments)
}

/// It prints whether 7 is even.
pub fn seven_vm<'a>(alloc: Global, code: &'a Code) -> Result<Vm<'a>, AllocError>
    requires { code_of code.now ≡ programs }
{
    Vm::new(alloc, code, 2, Heap::new(alloc), Vec::new(alloc))
}

/// It prints 0 to 2.
pub fn loop_vm<'a>(alloc: Global, code: &'a Code) -> Result<Vm<'a>, AllocError>
    requires { code_of code.now ≡ programs }
{
    Vm::new(alloc, code, 3, Heap::new(alloc), Vec::new(alloc))
}

/// It prints what stands in three loops.
pub fn nest_vm<'a>(alloc: Global, code: &'a Code) -> Result<Vm<'a>, AllocError>
    requires { code_of code.now ≡ programs }
{
    Vm::new(alloc, code, 4, Heap::new(alloc), Vec::new(alloc))
}

/// Its result is whether the number is even, and as many calls wait for another.
pub fn even_vm<'a>(alloc: Global, code: &'a Code, number: u32) -> Result<Vm<'a>, AllocError>
    requires code { code_of code.now ≡ programs }
    requires number { number < 2 ^ 31 }
{
    let arguments = argument(alloc, number)?;
    Vm::new(alloc, code, 0, Heap::new(alloc), arguments)
}

/// Its result is the number, up to which it counts.
pub fn count_vm<'a>(alloc: Global, code: &'a Code, number: u32) -> Result<Vm<'a>, AllocError>
    requires code { code_of code.now ≡ programs }
    requires number { number < 2 ^ 31 }
{
    let arguments = argument(alloc, number)?;
    Vm::new(alloc, code, 5, Heap::new(alloc), arguments)
}

/// Its result is whether the Fibonacci number is odd.
pub fn fib_vm<'a>(alloc: Global, code: &'a Code, number: u32) -> Result<Vm<'a>, AllocError>
    requires code { code_of code.now ≡ programs }
    requires number { number < 2 ^ 31 }
{
    let arguments = argument(alloc, number)?;
    Vm::new(alloc, code, 6, Heap::new(alloc), arguments)
}
