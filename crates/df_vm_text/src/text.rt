//! The text of a value by a shape.

ghost use Rattle.std.specs.Prelude.{◌≡◌, ◌+◌, ◌*◌, ◌<◌, ◌≤◌, ◌^◌, Some, true, map, slice_get, IfSome, IfNone, None};
ghost use Rattle.df_mach2.specs.Text as pure;
ghost use Rattle.df_mach2.specs.View.{shape_of};
ghost use Rattle.df_vm_store.specs.Equal.{weight};
ghost use Rattle.df_vm_store.specs.Meaning.{is_within};
ghost use Rattle.df_vm_store.specs.View.{size_of, values_in, value_at};
ghost use Rattle.df_vm_text.specs.Tasks.{piece, parts_at, members_text, arguments_text, task_text, task_work, tasks_text, tasks_work, piece_work, Begins};
ghost use Rattle.df_vm_text.specs.Prints.{Prints, Puts};

use crate::constructors::{put_data, put_sequence};
use crate::tasks::{Arguments, Members, Task};
use crate::words::{put_character, put_number, put_separator, put_truth};
use df_mach2::Shape;
use df_vm_store::{Halt, Store, Word};

/// The shape of a number.
fn shape_at(shapes: &[Shape], shape: usize) -> Option<&Shape>
    ensures some { IfSome result (λ by. slice_get (map shape_of shapes.now) shape ≡ Some (shape_of by.now)) }
    ensures none { IfNone result (slice_get (map shape_of shapes.now) shape ≡ None) }
{
    shapes.get(shape)
}

/// Puts a word by the shape of a number, or what stands before its parts.
fn put_word(
    store: &Store,
    shapes: &[Shape],
    pending: &mut Vec<Task>,
    out: &mut Vec<u8>,
    shape: usize,
    word: Word,
) -> Result<(), Halt>
    requires { is_within (size_of store.now) word ≡ true }
    ensures prints { Prints result (pure.text_of (map shape_of shapes.now) (value_at store.now word) shape) out.old.items (tasks_text (map shape_of shapes.now) (values_in store.now) pending.old.items) out.new.items (tasks_text (map shape_of shapes.now) (values_in store.now) pending.new.items) }
    ensures work { tasks_work (values_in store.now) pending.new.items < tasks_work (values_in store.now) pending.old.items + 3 * weight (value_at store.now word) }
{
    let Some(by) = shape_at(shapes, shape) else {
        return Err(Halt::Broken);
    };
    match word {
        Word::Number(number) => put_number(store.allocator(), out, by, number),
        Word::Truth(truth) => put_truth(out, by, truth),
        Word::Char(character) => put_character(out, by, character),
        Word::Null | Word::Reference(_) => Err(Halt::Broken),
        Word::Data(tag, from, count) => {
            let arguments = Arguments {
                from,
                count,
                shape,
                tag,
                place: 0,
            };
            put_data(store, shapes, pending, out, by, arguments)
        }
        Word::Sequence(from, count) => {
            put_sequence(store, shapes, pending, out, by, from, count)
        }
    }
}

/// The first of so many words from one on.
fn first(store: &Store, from: usize, count: usize) -> Option<Word>
    ensures begins { Begins result (values_in store.now) from count }
    ensures within { IfSome result (λ word. is_within (size_of store.now) word ≡ true) }
{
    if count == 0 {
        return None;
    }
    store.cell(from)
}

/// Puts the first of some members, and leaves the others.
fn put_members(
    store: &Store,
    shapes: &[Shape],
    pending: &mut Vec<Task>,
    out: &mut Vec<u8>,
    members: Members,
) -> Result<(), Halt>
    ensures prints { Prints result (members_text (map shape_of shapes.now) (values_in store.now) members) out.old.items (tasks_text (map shape_of shapes.now) (values_in store.now) pending.old.items) out.new.items (tasks_text (map shape_of shapes.now) (values_in store.now) pending.new.items) }
    ensures work { tasks_work (values_in store.now) pending.new.items < tasks_work (values_in store.now) pending.old.items + piece_work (values_in store.now) members.from members.count }
{
    let Some(word) = first(store, members.from, members.count) else {
        return Ok(());
    };
    put_separator(out, members.is_first)?;
    let others = Members {
        from: members.from + 1,
        count: members.count - 1,
        shape: members.shape,
        is_first: false,
    };
    pending.push(Task::Members(others))?;
    put_word(store, shapes, pending, out, members.shape, word)
}

/// The shape of an argument by its place in a constructor.
fn part(shapes: &[Shape], arguments: Arguments) -> Option<usize>
    ensures part { result ≡ slice_get (parts_at (map shape_of shapes.now) arguments.shape arguments.tag) arguments.place }
    ensures place { IfSome result (λ _. arguments.place < 2 ^ 63) }
{
    let Some(Shape::Data(constructors)) = shapes.get(arguments.shape) else {
        return None;
    };
    let Some(constructor) = constructors.get(arguments.tag) else {
        return None;
    };
    constructor.parts.get(arguments.place).copied()
}

/// Puts the first of some arguments, and leaves the others.
fn put_arguments(
    store: &Store,
    shapes: &[Shape],
    pending: &mut Vec<Task>,
    out: &mut Vec<u8>,
    arguments: Arguments,
) -> Result<(), Halt>
    ensures prints { Prints result (arguments_text (map shape_of shapes.now) (values_in store.now) arguments) out.old.items (tasks_text (map shape_of shapes.now) (values_in store.now) pending.old.items) out.new.items (tasks_text (map shape_of shapes.now) (values_in store.now) pending.new.items) }
    ensures work { tasks_work (values_in store.now) pending.new.items < tasks_work (values_in store.now) pending.old.items + piece_work (values_in store.now) arguments.from arguments.count }
{
    match (
        first(store, arguments.from, arguments.count),
        part(shapes, arguments),
    ) {
        (None, None) => Ok(()),
        (None, Some(_)) | (Some(_), None) => Err(Halt::Broken),
        (Some(word), Some(shape)) => {
            put_separator(out, arguments.place == 0)?;
            let others = Arguments {
                from: arguments.from + 1,
                count: arguments.count - 1,
                shape: arguments.shape,
                tag: arguments.tag,
                place: arguments.place + 1,
            };
            pending.push(Task::Arguments(others))?;
            put_word(store, shapes, pending, out, shape, word)
        }
    }
}

/// Puts the first of what is left of a task, and leaves the others.
fn put_task(
    store: &Store,
    shapes: &[Shape],
    pending: &mut Vec<Task>,
    out: &mut Vec<u8>,
    task: Task,
) -> Result<(), Halt>
    ensures prints { Prints result (task_text (map shape_of shapes.now) (values_in store.now) task) out.old.items (tasks_text (map shape_of shapes.now) (values_in store.now) pending.old.items) out.new.items (tasks_text (map shape_of shapes.now) (values_in store.now) pending.new.items) }
    ensures work { tasks_work (values_in store.now) pending.new.items < tasks_work (values_in store.now) pending.old.items + task_work (values_in store.now) task }
{
    match task {
        Task::Members(members) => put_members(store, shapes, pending, out, members),
        Task::Arguments(arguments) => put_arguments(store, shapes, pending, out, arguments),
        Task::Close(closing) => {
            out.push(closing)?;
            Ok(())
        }
    }
}

/// Puts all that is left.
fn put_all(
    store: &Store,
    shapes: &[Shape],
    pending: &mut Vec<Task>,
    out: &mut Vec<u8>,
) -> Result<(), Halt>
    ensures { Puts result (tasks_text (map shape_of shapes.now) (values_in store.now) pending.old.items) out.old.items out.new.items }
{
    while let Some(task) = pending.pop() {
        match put_task(store, shapes, pending, out, task) {
            Ok(()) => {}
            Err(halt) => return Err(halt),
        }
    }
    Ok(())
}

/// Puts the text of a value by the shape of a number behind what there is. A broken demand, or want of memory, may leave
/// a part of the text.
pub fn print(
    store: &Store,
    shapes: &[Shape],
    shape: usize,
    word: Word,
    out: &mut Vec<u8>,
) -> Result<(), Halt>
    requires { is_within (size_of store.now) word ≡ true }
    ensures { Puts result (pure.text_of (map shape_of shapes.now) (value_at store.now word) shape) out.old.items out.new.items }
{
    let mut pending = Vec::new(store.allocator());
    put_word(store, shapes, &mut pending, out, shape, word)?;
    put_all(store, shapes, &mut pending, out)
}
