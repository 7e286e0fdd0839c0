//! Plays the examples of a folder: each source is tried with the words that its `.expected`
//! file has, over files and streams in memory, and what differs from that file is told. Where a source has an
//! `.obligations` file, it is told where what is owed of it is not what stands beside it. Of the page of codes in the folder,
//! `errors.md`, each line of Dafny is tried, and each code that an example wants is looked up there.
//!
//! With the word `count` before the folder it tells how many obligations each source has, and compares nothing. With the
//! word `sequents` before a source, without its ending, it prints its newtypes and its sequents. With the word `proposals`
//! before the folder it tells how much a check refuses of what the engine proposes for the obligations, and fails where it
//! is some. With the word `codes` before the folder it plays that page alone.
#![tactic(auto)]

mod beside;
mod codes;
mod entries;
mod example;
mod fitting;
mod folder;
mod page;
mod play;
mod playing;
mod printing;
mod reading;
mod row;
mod tasks;
mod text;

use crate::beside::is_there;
use crate::folder::examples;
use crate::play::Count;
use crate::playing::{play_codes, play_folder};
use crate::tasks::{Task, perform};
use anyhow::{Context, Result, ensure};
use std::{env, io};

/// A word of the command line by its place, else the folder that this runs in.
fn word(rt: &HostRuntime, place: usize) -> io::Result<String> {
    match env::args(rt)?.nth(place) {
        Some(word) => Ok(word),
        None => Ok(String::from_str(rt.alloc(), ".")?),
    }
}

/// Tells how many tries there were, and fails where some differ.
fn tell_count(rt: &HostRuntime, count: Count) -> Result<()> {
    let Count { tries, differ } = count;
    println!(rt; "{tries} tries, {differ} differ")?;
    ensure!(differ == 0, "what is printed above differs");
    Ok(())
}

/// Plays the examples of a folder.
fn play_all(rt: &HostRuntime, folder: &str) -> Result<()> {
    tell_count(rt, play_folder(rt, folder)?)
}

/// Plays the page of codes of the folder that the second word names.
fn play_all_codes(rt: &HostRuntime) -> Result<()> {
    let folder = word(rt, 2)?;
    tell_count(rt, play_codes(rt, folder.as_str())?)
}

/// Does a task with a source, if there is one.
fn perform_if_there(rt: &HostRuntime, task: Task, name: &str) -> Result<u64> {
    if is_there(rt, name, ".dfy")? {
        perform(rt, task, name)
    } else {
        Ok(0)
    }
}

/// Does a task with the sources of these paths.
fn perform_each(rt: &HostRuntime, task: Task, names: &[String]) -> Result<u64> {
    let mut count: u64 = 0;
    for name in names {
        let name = name.as_str();
        let more = perform_if_there(rt, task, name).context(format_args!("{name}"))?;
        count = count.saturating_add(more);
    }
    Ok(count)
}

/// Does a task with the sources of a folder.
fn perform_all(rt: &HostRuntime, task: Task, folder: &str) -> Result<u64> {
    let names = examples(rt, folder)?;
    perform_each(rt, task, &names)
}

/// Does a task with a source, or with those of a folder.
fn perform_at(rt: &HostRuntime, task: Task, place: &str) -> Result<u64> {
    match task {
        Task::Print => perform(rt, task, place),
        Task::Compare | Task::Count | Task::Propose => perform_all(rt, task, place),
    }
}

/// Tells how many proposals are refused, and fails where something is.
fn tell(rt: &HostRuntime, task: Task, refused: u64) -> Result<()> {
    if let Task::Propose = task {
        println!(rt; "{refused} refused")?;
    }
    ensure!(refused == 0, "what is printed above is refused");
    Ok(())
}

/// Does the task of the first word at the place of the second one.
fn run_task(rt: &HostRuntime, task: Task) -> Result<()> {
    let place = word(rt, 2)?;
    let refused = perform_at(rt, task, place.as_str())?;
    tell(rt, task, refused)
}

/// The task of a word, if it has one.
fn task_of(word: &str) -> Option<Task> {
    if word == "count" {
        Some(Task::Count)
    } else if word == "proposals" {
        Some(Task::Propose)
    } else if word == "sequents" {
        Some(Task::Print)
    } else {
        None
    }
}

/// Runs what the first word says.
fn run(rt: &HostRuntime, first: &str) -> Result<()> {
    if first == "codes" {
        return play_all_codes(rt);
    }
    match task_of(first) {
        Some(task) => run_task(rt, task),
        None => play_all(rt, first),
    }
}

fn main(rt: HostRuntime) -> Result<()> {
    let first = word(&rt, 1)?;
    run(&rt, first.as_str())
}
