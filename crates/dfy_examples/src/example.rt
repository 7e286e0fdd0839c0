//! What an example is: a source, and what is tried with it.

use std::alloc::Global;

/// A call of a device that fails; calls are counted from 0.
#[derive(Clone, Copy)]
pub enum Failing {
    Load(u64),
    /// The write takes so many bytes before it fails.
    Out(u64, usize),
    Err(u64, usize),
}

/// Words, and what must come of them.
#[derive(Drop)]
pub struct Try {
    /// The line where it begins.
    pub line: usize,
    pub words: Vec<String>,
    pub failing: Vec<Failing>,
    pub status: u8,
    pub out: Vec<u8>,
    pub err: Vec<u8>,
}

impl Try {
    /// A try of these words, of which status 0 and no text must come.
    pub fn new(alloc: Global, line: usize, words: Vec<String>) -> Try {
        Try {
            line,
            words,
            failing: Vec::new(alloc),
            status: 0,
            out: Vec::new(alloc),
            err: Vec::new(alloc),
        }
    }
}

/// A file beside the source.
#[derive(Drop)]
pub struct File {
    pub name: String,
    pub text: Vec<u8>,
}

/// A file beside the source that holds what a command puts on standard output.
#[derive(Drop)]
pub struct Made {
    pub name: String,
    /// The words of the command.
    pub words: Vec<String>,
}

#[derive(Drop)]
pub struct Example {
    /// The source, where the `.expected` file has it.
    pub source: Option<Vec<u8>>,
    pub files: Vec<File>,
    pub made: Vec<Made>,
    pub tries: Vec<Try>,
}
