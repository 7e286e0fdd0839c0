//! What is done with the obligations of a source.

ghost use Rattle.std.specs.Prelude.{◌≡◌, []};

use crate::beside::source_of;
use crate::printing::{print_counts, print_sequents};
use crate::row::are_same;
use anyhow::{Result, bail};
use df_base::{Memory, Names, Stop};
use df_groups::groups;
use df_lang::Program;
use df_nfront::read;
use df_nghost::Checked;
use df_nowed::{Obligations, obligations};
use df_obligation_rows::{Head, heads, refused};
use std::alloc::{AllocError, Global};
use std::mem::forget;

/// What is done with the obligations of a source.
#[derive(Clone, Copy)]
pub enum Task {
    /// They are compared with the files beside it, and what the engine proposes for them is checked.
    Compare,
    /// It is printed how many there are.
    Count,
    /// The newtypes and the sequents are printed.
    Print,
    /// What the engine proposes for them is checked.
    Propose,
}

fn of_memory(_memory: Memory) -> AllocError {
    AllocError
}

/// What is owed of a program.
fn owed(alloc: Global, program: &Program) -> Result<Obligations, AllocError> {
    let groups = groups(alloc, program).map_err(of_memory)?;
    obligations(alloc, program, &groups)
}

/// How many proposals for the obligations of a source are refused. They are told where there are some.
fn propose(
    rt: &HostRuntime,
    name: &str,
    program: &Program,
    obligations: &Obligations,
) -> Result<u64> {
    let refused = refused(rt.alloc(), program, obligations)?;
    if refused > 0 {
        println!(rt; "{name}: of what the engine proposes {refused} are refused")?;
    }
    Ok(refused)
}

/// How many proposals are refused, and one more where a file beside the source differs.
fn compare(
    rt: &HostRuntime,
    name: &str,
    program: &Program,
    heads: &[Head],
    obligations: &Obligations,
) -> Result<u64> {
    let are_same = are_same(rt, name, heads, obligations)?;
    let refused = propose(rt, name, program, obligations)?;
    if are_same {
        Ok(refused)
    } else {
        Ok(refused.saturating_add(1))
    }
}

/// Does a task with the obligations of a program.
fn perform_over(
    rt: &HostRuntime,
    task: Task,
    name: &str,
    program: &Program,
    heads: &[Head],
    obligations: &Obligations,
) -> Result<u64> {
    match task {
        Task::Compare => return compare(rt, name, program, heads, obligations),
        Task::Propose => return propose(rt, name, program, obligations),
        Task::Count => print_counts(rt, name, obligations)?,
        Task::Print => print_sequents(rt, heads, obligations)?,
    }
    Ok(0)
}

/// Does a task with a program of which so much is owed.
fn perform_with_heads(
    rt: &HostRuntime,
    task: Task,
    name: &str,
    program: &Program,
    obligations: &Obligations,
) -> Result<u64> {
    let heads = heads(rt.alloc(), program)?;
    perform_over(rt, task, name, program, heads.as_slice(), obligations)
}

/// Does a task with a program.
fn perform_on_program(rt: &HostRuntime, task: Task, name: &str, checked: &Checked) -> Result<u64> {
    let obligations = owed(rt.alloc(), &checked.program)?;
    perform_with_heads(rt, task, name, &checked.program, &obligations)
}

/// Tells that a source is refused. Nothing is proposed for it then.
fn tell_refused(rt: &HostRuntime, task: Task, name: &str) -> Result<u64> {
    match task {
        Task::Propose => Ok(0),
        Task::Compare | Task::Count | Task::Print => {
            println!(rt; "{name} is refused")?;
            Ok(1)
        }
    }
}

/// What comes of a source that has no program.
fn perform_on_none(rt: &HostRuntime, task: Task, name: &str, stop: Stop) -> Result<u64> {
    match stop {
        Stop::Refused(_) => tell_refused(rt, task, name),
        Stop::Memory => bail!("out of memory"),
    }
}

/// Does a task with a program. It is left to the end, as engines are.
fn perform_and_leave(rt: &HostRuntime, task: Task, name: &str, checked: Checked) -> Result<u64> {
    let told = perform_on_program(rt, task, name, &checked);
    forget(checked);
    told
}

/// Does a task with a source, whose names are added to none.
fn perform_with_names(
    rt: &HostRuntime,
    task: Task,
    name: &str,
    source: &[u8],
    names: &mut Names,
) -> Result<u64>
    requires { names.old ≡ [] }
{
    match read(rt.alloc(), source, names) {
        Ok(checked) => perform_and_leave(rt, task, name, checked),
        Err(stop) => perform_on_none(rt, task, name, stop),
    }
}

/// Does a task with a source.
fn perform_on_source(rt: &HostRuntime, task: Task, name: &str, source: &[u8]) -> Result<u64> {
    let mut names = Names::new(rt.alloc()).map_err(of_memory)?;
    perform_with_names(rt, task, name, source, &mut names)
}

/// Does a task with the obligations of the source of this path, and tells how much is not as it should be: proposals that are
/// refused, a source that is, and whether files beside it differ.
pub fn perform(rt: &HostRuntime, task: Task, name: &str) -> Result<u64> {
    let source = source_of(rt, name)?;
    perform_on_source(rt, task, name, source.as_slice())
}
