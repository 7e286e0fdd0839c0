//! Values that have parts: what is put at once, and what is left of them.

ghost use Rattle.std.specs.Prelude.{◌≡◌, ◌+◌, ◌≤◌, [], ◌∷◌, Some, true, map, slice_get};
ghost use Rattle.df_mach2.specs.Text as pure;
ghost use Rattle.df_mach2.specs.Text.{texts, All, Each};
ghost use Rattle.df_mach2.specs.Value.{values_of};
ghost use Rattle.df_mach2.specs.View.{shape_of, constructor_of};
ghost use Rattle.df_vm_store.specs.View.{size_of, values_in};
ghost use Rattle.df_vm_text.specs.Tasks.{piece, parts_at, task_text, task_work, tasks_text, tasks_work, piece_work, HasNone};
ghost use Rattle.df_vm_text.specs.Prints.{Prints, IfPrints};

use crate::tasks::{Arguments, Members, Task};
use crate::words::put_characters;
use df_mach2::{Constructor, Shape};
use df_vm_store::{Halt, Store};
use std::alloc::AllocError;

/// Puts what stands before something, and leaves it and what stands behind it.
fn open(
    store: &Store,
    shapes: &[Shape],
    pending: &mut Vec<Task>,
    out: &mut Vec<u8>,
    opening: u8,
    inner: Task,
    closing: u8,
) -> Result<(), AllocError>
    ensures prints { IfPrints result (pure.between (opening ∷ []) (task_text (map shape_of shapes.now) (values_in store.now) inner) (closing ∷ [])) out.old.items (tasks_text (map shape_of shapes.now) (values_in store.now) pending.old.items) out.new.items (tasks_text (map shape_of shapes.now) (values_in store.now) pending.new.items) }
    ensures work { tasks_work (values_in store.now) pending.new.items ≤ tasks_work (values_in store.now) pending.old.items + (1 + task_work (values_in store.now) inner) }
{
    out.push(opening)?;
    pending.push(Task::Close(closing))?;
    pending.push(inner)?;
    Ok(())
}

/// Puts a sequence by a shape, or what stands before its members.
pub(crate) fn put_sequence(
    store: &Store,
    shapes: &[Shape],
    pending: &mut Vec<Task>,
    out: &mut Vec<u8>,
    by: &Shape,
    from: usize,
    count: usize,
) -> Result<(), Halt>
    requires { from + count ≤ size_of store.now }
    ensures prints { Prints result (pure.sequence_text (pure.characters (values_of (piece (values_in store.now) from count))) (λ m. texts (map shape_of shapes.now) (values_of (piece (values_in store.now) from count)) (All m) true) (shape_of by.now)) out.old.items (tasks_text (map shape_of shapes.now) (values_in store.now) pending.old.items) out.new.items (tasks_text (map shape_of shapes.now) (values_in store.now) pending.new.items) }
    ensures work { tasks_work (values_in store.now) pending.new.items ≤ tasks_work (values_in store.now) pending.old.items + (1 + piece_work (values_in store.now) from count) }
{
    match by {
        Shape::Text => put_characters(store, out, from, count),
        Shape::List(shape) => {
            let members = Task::Members(Members {
                from,
                count,
                shape: *shape,
                is_first: true,
            });
            open(store, shapes, pending, out, b'[', members, b']')?;
            Ok(())
        }
        Shape::Number | Shape::Truth | Shape::Char | Shape::Data(_) => Err(Halt::Broken),
    }
}

/// That there are no arguments.
fn ends(count: usize) -> Result<(), Halt>
    ensures { HasNone result count }
{
    if count == 0 {
        Ok(())
    } else {
        Err(Halt::Broken)
    }
}

/// Puts what stands behind the name of a constructor, and leaves its arguments.
fn put_arguments_of(
    store: &Store,
    shapes: &[Shape],
    pending: &mut Vec<Task>,
    out: &mut Vec<u8>,
    constructor: &Constructor,
    arguments: Arguments,
) -> Result<(), Halt>
    requires within { arguments.from + arguments.count ≤ size_of store.now }
    requires parts { parts_at (map shape_of shapes.now) arguments.shape arguments.tag ≡ constructor.now.parts.items }
    requires place { arguments.place ≡ 0 }
    ensures prints { Prints result (pure.in_parentheses constructor.now.parts.items (texts (map shape_of shapes.now) (values_of (piece (values_in store.now) arguments.from arguments.count)) (Each constructor.now.parts.items) true)) out.old.items (tasks_text (map shape_of shapes.now) (values_in store.now) pending.old.items) out.new.items (tasks_text (map shape_of shapes.now) (values_in store.now) pending.new.items) }
    ensures work { tasks_work (values_in store.now) pending.new.items ≤ tasks_work (values_in store.now) pending.old.items + (1 + piece_work (values_in store.now) arguments.from arguments.count) }
{
    if constructor.parts.is_empty() {
        return ends(arguments.count);
    }
    let arguments = Task::Arguments(arguments);
    open(store, shapes, pending, out, b'(', arguments, b')')?;
    Ok(())
}

/// Puts the name of a constructor, and what stands before its arguments.
fn put_constructor(
    store: &Store,
    shapes: &[Shape],
    pending: &mut Vec<Task>,
    out: &mut Vec<u8>,
    constructor: &Constructor,
    arguments: Arguments,
) -> Result<(), Halt>
    requires within { arguments.from + arguments.count ≤ size_of store.now }
    requires parts { parts_at (map shape_of shapes.now) arguments.shape arguments.tag ≡ constructor.now.parts.items }
    requires place { arguments.place ≡ 0 }
    ensures prints { Prints result (pure.constructor_text (λ ss. texts (map shape_of shapes.now) (values_of (piece (values_in store.now) arguments.from arguments.count)) (Each ss) true) (constructor_of constructor.now)) out.old.items (tasks_text (map shape_of shapes.now) (values_in store.now) pending.old.items) out.new.items (tasks_text (map shape_of shapes.now) (values_in store.now) pending.new.items) }
    ensures work { tasks_work (values_in store.now) pending.new.items ≤ tasks_work (values_in store.now) pending.old.items + (1 + piece_work (values_in store.now) arguments.from arguments.count) }
{
    out.extend_from_slice(constructor.name.as_bytes())?;
    put_arguments_of(store, shapes, pending, out, constructor, arguments)
}

/// Puts the name of a constructor by the shape of its datatype, and what stands before its arguments.
pub(crate) fn put_data(
    store: &Store,
    shapes: &[Shape],
    pending: &mut Vec<Task>,
    out: &mut Vec<u8>,
    by: &Shape,
    arguments: Arguments,
) -> Result<(), Halt>
    requires within { arguments.from + arguments.count ≤ size_of store.now }
    requires by { slice_get (map shape_of shapes.now) arguments.shape ≡ Some (shape_of by.now) }
    requires place { arguments.place ≡ 0 }
    ensures prints { Prints result (pure.data_text arguments.tag (λ ss. texts (map shape_of shapes.now) (values_of (piece (values_in store.now) arguments.from arguments.count)) (Each ss) true) (shape_of by.now)) out.old.items (tasks_text (map shape_of shapes.now) (values_in store.now) pending.old.items) out.new.items (tasks_text (map shape_of shapes.now) (values_in store.now) pending.new.items) }
    ensures work { tasks_work (values_in store.now) pending.new.items ≤ tasks_work (values_in store.now) pending.old.items + (1 + piece_work (values_in store.now) arguments.from arguments.count) }
{
    match by {
        Shape::Data(constructors) => match constructors.get(arguments.tag) {
            Some(constructor) => {
                put_constructor(store, shapes, pending, out, constructor, arguments)
            }
            None => Err(Halt::Broken),
        },
        Shape::Number | Shape::Truth | Shape::Char | Shape::Text | Shape::List(_) => {
            Err(Halt::Broken)
        }
    }
}
