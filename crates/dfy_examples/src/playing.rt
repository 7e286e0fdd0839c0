//! Plays the examples of a folder.

use crate::beside::{source_of, text_of};
use crate::entries::play_page;
use crate::example::Example;
use crate::folder::examples;
use crate::play::{Count, make_files, play};
use crate::reading::read;
use crate::row::is_row;
use crate::tasks::{Task, perform};
use anyhow::{Context, Result};

/// The source of an example.
fn source(rt: &HostRuntime, name: &str, example: &mut Example) -> Result<Vec<u8>> {
    match example.source.take() {
        Some(source) => Ok(source),
        None => source_of(rt, name),
    }
}

/// What the `.expected` file of an example says.
pub fn read_example(rt: &HostRuntime, name: &str) -> Result<Example> {
    let text = text_of(rt, name, ".expected")?;
    read(rt.alloc(), text.as_str())
}

/// Plays the tries of an example whose files are made.
fn play_tries(
    rt: &HostRuntime,
    name: &str,
    source: &[u8],
    example: &Example,
    count: &mut Count,
) -> Result<()> {
    for tried in &example.tries {
        count.add(play(rt, name, source, example, tried)?);
    }
    Ok(())
}

/// Makes the files of an example, and plays its tries.
fn play_over(
    rt: &HostRuntime,
    name: &str,
    source: &[u8],
    example: &mut Example,
    count: &mut Count,
) -> Result<()> {
    make_files(rt.alloc(), name, source, example)?;
    play_tries(rt, name, source, example, count)
}

/// Plays all tries of an example.
fn play_read(rt: &HostRuntime, name: &str, example: &mut Example, count: &mut Count) -> Result<()> {
    let source = source(rt, name, example)?;
    play_over(rt, name, source.as_slice(), example, count)
}

/// Plays all tries of the example of this path.
fn play_example(rt: &HostRuntime, name: &str, count: &mut Count) -> Result<()> {
    let mut example = read_example(rt, name)?;
    play_read(rt, name, &mut example, count)
}

/// Compares the obligations of the source of this path with the files beside it.
fn play_row(rt: &HostRuntime, name: &str, count: &mut Count) -> Result<()> {
    let differ = perform(rt, Task::Compare, name)?;
    count.add(differ == 0);
    Ok(())
}

/// Plays the example or the row of this path.
fn play_one(rt: &HostRuntime, name: &str, count: &mut Count) -> Result<()> {
    if is_row(rt, name)? {
        play_row(rt, name, count)
    } else {
        play_example(rt, name, count)
    }
}

/// Plays the examples of these paths.
fn play_each(rt: &HostRuntime, names: &[String], count: &mut Count) -> Result<()> {
    for name in names {
        let name = name.as_str();
        play_one(rt, name, count).context(format_args!("{name}"))?;
    }
    Ok(())
}

/// Plays the examples of these paths in a folder, and its page of codes.
fn play_names(rt: &HostRuntime, folder: &str, names: &[String], count: &mut Count) -> Result<()> {
    play_each(rt, names, count)?;
    play_page(rt, folder, names, count)
}

/// Plays the examples of a folder.
pub fn play_folder(rt: &HostRuntime, folder: &str) -> Result<Count> {
    let mut count = Count::default();
    let names = examples(rt, folder)?;
    play_names(rt, folder, &names, &mut count)?;
    Ok(count)
}

/// Plays the page of codes of a folder.
pub fn play_codes(rt: &HostRuntime, folder: &str) -> Result<Count> {
    let mut count = Count::default();
    let names = examples(rt, folder)?;
    play_page(rt, folder, &names, &mut count)?;
    Ok(count)
}
