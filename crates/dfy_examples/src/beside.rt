//! The files of an example, by its path without their endings.

use anyhow::Result;
use std::alloc::{AllocError, Global};
use std::fs;

/// The path of the file with this ending.
fn path_of(alloc: Global, name: &str, ending: &str) -> Result<String, AllocError> {
    format!(in alloc; "{name}{ending}")
}

/// Whether there is a file with this ending.
pub fn is_there(rt: &HostRuntime, name: &str, ending: &str) -> Result<bool> {
    let path = path_of(rt.alloc(), name, ending)?;
    Ok(fs::exists(rt, path.as_str())?)
}

/// The text of the file with this ending.
pub fn text_of(rt: &HostRuntime, name: &str, ending: &str) -> Result<String> {
    let path = path_of(rt.alloc(), name, ending)?;
    Ok(fs::read_to_string(rt, path.as_str())?)
}

/// The source in the file that ends with `.dfy`.
pub fn source_of(rt: &HostRuntime, name: &str) -> Result<Vec<u8>> {
    let path = path_of(rt.alloc(), name, ".dfy")?;
    Ok(fs::read(rt, path.as_str())?)
}
