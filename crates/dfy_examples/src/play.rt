//! Plays a try.

use crate::example::{Example, Failing, File, Made, Try};
use crate::fitting::fits;
use anyhow::Result;
use df_base::{MemFiles, MemSink, Memory};
use df_ntop::top;
use std::alloc::{AllocError, Global};
use std::mem;

/// How many tries there were, and how many of them differ from what is written.
#[derive(Clone, Copy, Default)]
pub struct Count {
    pub tries: u64,
    pub differ: u64,
}

impl Count {
    /// Counts a try.
    pub fn add(&mut self, is_same: bool) {
        self.tries = self.tries.saturating_add(1);
        if !is_same {
            self.differ = self.differ.saturating_add(1);
        }
    }
}

/// What a try reads and writes.
#[derive(Drop)]
struct Devices {
    files: MemFiles,
    out: MemSink,
    err: MemSink,
}

fn of_memory(_memory: Memory) -> AllocError {
    AllocError
}

/// A path without its folders.
fn without_folders(name: &str) -> &str {
    match name.rsplit_once('/') {
        Some((_, last)) => last,
        None => name,
    }
}

/// Adds an example's source, whose name is without its folders.
fn add_source(
    alloc: Global,
    files: &mut MemFiles,
    name: &str,
    source: &[u8],
) -> Result<(), AllocError> {
    let short = without_folders(name);
    let file = format!(in alloc; "{short}.dfy")?;
    files.add(file.as_str(), source).map_err(of_memory)
}

/// Adds the files of an example, without those that are made.
fn add_files(
    alloc: Global,
    files: &mut MemFiles,
    name: &str,
    source: &[u8],
    example: &Example,
) -> Result<(), AllocError> {
    add_source(alloc, files, name, source)?;
    for file in &example.files {
        files
            .add(file.name.as_str(), file.text.as_slice())
            .map_err(of_memory)?;
    }
    Ok(())
}

/// What a command puts on its streams, and its status.
#[derive(Drop)]
pub struct Put {
    pub status: u8,
    pub out: MemSink,
    pub err: MemSink,
}

/// What a command puts over these files.
fn put_over(alloc: Global, words: &[String], files: &mut MemFiles) -> Put {
    let mut out = MemSink::new(alloc);
    let mut err = MemSink::new(alloc);
    let status = top(alloc, words, files, &mut out, &mut err).code();
    Put { status, out, err }
}

/// What a command puts that finds one file.
pub fn put_by(alloc: Global, words: &[String], name: &str, text: &[u8]) -> Result<Put, AllocError> {
    let mut files = MemFiles::new(alloc);
    files.add(name, text).map_err(of_memory)?;
    Ok(put_over(alloc, words, &mut files))
}

/// What a command puts on standard output.
fn out_of(alloc: Global, words: &[String], files: &mut MemFiles) -> Result<Vec<u8>, AllocError> {
    let put = put_over(alloc, words, files);
    Vec::from_slice(alloc, put.out.taken())
}

/// What a command puts on standard output over the files of an example.
fn made_text(
    alloc: Global,
    name: &str,
    source: &[u8],
    example: &Example,
    words: &[String],
) -> Result<Vec<u8>, AllocError> {
    let mut files = MemFiles::new(alloc);
    add_files(alloc, &mut files, name, source, example)?;
    out_of(alloc, words, &mut files)
}

/// Makes a file that a command puts on standard output.
fn make_file(
    alloc: Global,
    name: &str,
    source: &[u8],
    example: &mut Example,
    made: Made,
) -> Result<(), AllocError> {
    let Made { name: file, words } = made;
    let text = made_text(alloc, name, source, example, &words)?;
    Ok(example.files.push(File { name: file, text })?)
}

/// Makes the files that commands put on standard output.
pub fn make_files(
    alloc: Global,
    name: &str,
    source: &[u8],
    example: &mut Example,
) -> Result<(), AllocError> {
    for made in mem::replace(&mut example.made, Vec::new(alloc)) {
        make_file(alloc, name, source, example, made)?;
    }
    Ok(())
}

/// Lets a call of a device fail.
fn let_fail(devices: &mut Devices, failing: Failing) -> Result<(), Memory> {
    match failing {
        Failing::Load(call) => devices.files.fail_at(call),
        Failing::Out(call, takes) => devices.out.fail_at(call, takes),
        Failing::Err(call, takes) => devices.err.fail_at(call, takes),
    }
}

fn let_all_fail(devices: &mut Devices, failing: &[Failing]) -> Result<(), AllocError> {
    for one in failing {
        let_fail(devices, *one).map_err(of_memory)?;
    }
    Ok(())
}

/// A text that a stream took, as it is told; of a long one the first bytes.
fn told(bytes: &[u8]) -> &str {
    let bytes = bytes.get(..300).unwrap_or(bytes);
    str::from_utf8(bytes).unwrap_or("bytes that are no text")
}

/// Tells what came of a try.
fn tell(
    rt: &(impl Print + AllocGlobal),
    name: &str,
    line: usize,
    devices: &Devices,
    status: u8,
) -> Result<()> {
    let (on_out, on_err) = (told(devices.out.taken()), told(devices.err.taken()));
    println!(rt; "{name}, line {line}: status {status}, out {on_out:?}, err {on_err:?}")?;
    Ok(())
}

/// Whether what came of a try is what is written.
fn is_as_written(devices: &Devices, tried: &Try, status: u8) -> bool {
    status == tried.status
        && fits(&tried.out, devices.out.taken())
        && fits(&tried.err, devices.err.taken())
}

/// Plays a try over devices, and tells where it differs.
fn play_over(
    rt: &(impl Print + AllocGlobal),
    name: &str,
    devices: &mut Devices,
    tried: &Try,
) -> Result<bool> {
    let Devices { files, out, err } = devices;
    let status = top(rt.alloc(), &tried.words, files, out, err).code();
    if is_as_written(devices, tried, status) {
        return Ok(true);
    }
    tell(rt, name, tried.line, devices, status)?;
    Ok(false)
}

/// Devices that hold nothing yet.
fn new_devices(alloc: Global) -> Devices {
    Devices {
        files: MemFiles::new(alloc),
        out: MemSink::new(alloc),
        err: MemSink::new(alloc),
    }
}

/// Plays a try over new devices.
fn play_on(
    rt: &(impl Print + AllocGlobal),
    name: &str,
    source: &[u8],
    example: &Example,
    tried: &Try,
    devices: &mut Devices,
) -> Result<bool> {
    add_files(rt.alloc(), &mut devices.files, name, source, example)?;
    let_all_fail(devices, &tried.failing)?;
    play_over(rt, name, devices, tried)
}

/// Plays a try of the example of this name, and tells where it differs.
pub fn play(
    rt: &(impl Print + AllocGlobal),
    name: &str,
    source: &[u8],
    example: &Example,
    tried: &Try,
) -> Result<bool> {
    let mut devices = new_devices(rt.alloc());
    play_on(rt, name, source, example, tried, &mut devices)
}
