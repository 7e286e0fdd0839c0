//! The folder of the examples.

use std::alloc::{AllocError, Global};
use std::{fs, io};

const SOURCE: &str = ".dfy";

const EXPECTED: &str = ".expected";

/// Adds a path.
fn push_path(alloc: Global, paths: &mut Vec<String>, path: &str) -> Result<(), AllocError> {
    let path = String::from_str(alloc, path)?;
    Ok(paths.push(path)?)
}

/// Adds the paths of what is in a folder.
fn push_paths(rt: &HostRuntime, paths: &mut Vec<String>, folder: &str) -> io::Result<()> {
    for entry in fs::read_dir(rt, folder)? {
        push_path(rt.alloc(), paths, entry?.path().as_str())?;
    }
    Ok(())
}

/// Adds a path, or those of what is in its folder.
fn push_below(rt: &HostRuntime, paths: &mut Vec<String>, path: &str) -> io::Result<()> {
    if fs::metadata(rt, path)?.is_dir() {
        push_paths(rt, paths, path)
    } else {
        Ok(push_path(rt.alloc(), paths, path)?)
    }
}

fn push_all_below(rt: &HostRuntime, paths: &mut Vec<String>, here: &[String]) -> io::Result<()> {
    for path in here {
        push_below(rt, paths, path.as_str())?;
    }
    Ok(())
}

/// Adds the paths of what is in a folder and in the folders in it.
fn push_all_paths(rt: &HostRuntime, paths: &mut Vec<String>, folder: &str) -> io::Result<()> {
    let mut here = Vec::new(rt.alloc());
    push_paths(rt, &mut here, folder)?;
    push_all_below(rt, paths, &here)
}

/// Adds the path of a file of an example without its ending. Other paths are left out.
fn push_name(alloc: Global, names: &mut Vec<String>, path: &str) -> Result<(), AllocError> {
    match path.strip_suffix(SOURCE).or(path.strip_suffix(EXPECTED)) {
        Some(name) => push_path(alloc, names, name),
        None => Ok(()),
    }
}

fn push_names(alloc: Global, names: &mut Vec<String>, paths: &[String]) -> Result<(), AllocError> {
    for path in paths {
        push_name(alloc, names, path.as_str())?;
    }
    Ok(())
}

/// The examples of these paths, in order, each once.
fn names_of(alloc: Global, paths: &[String]) -> Result<Vec<String>, AllocError> {
    let mut names = Vec::new(alloc);
    push_names(alloc, &mut names, paths)?;
    names.sort()?;
    names.dedup();
    Ok(names)
}

/// The paths of the examples of a folder, in order, each without its ending.
pub fn examples(rt: &HostRuntime, folder: &str) -> io::Result<Vec<String>> {
    let mut paths = Vec::new(rt.alloc());
    push_all_paths(rt, &mut paths, folder)?;
    Ok(names_of(rt.alloc(), &paths)?)
}
