//! `dfy`: hands the words, the files and the streams of the system to `top`, and ends with its status.
#![tactic(auto)]

use df_base::{HostFiles, HostSink};
use df_ntop::{tell_memory, top};
use std::alloc::AllocError;
use std::env;
use std::io::ErrorKind;
use std::process::ExitCode;
use std::rt::Env;

/// The words after the program's name; none where they can't be had as text.
fn words<R: Env + AllocGlobal>(rt: &R) -> Result<Vec<String>, AllocError> {
    let mut words = Vec::new(rt.alloc());
    match env::args(rt) {
        Ok(all) => {
            for word in all.skip(1) {
                words.push(word)?;
            }
            Ok(words)
        }
        Err(error) => match error.kind() {
            ErrorKind::OutOfMemory => Err(AllocError),
            _ => Ok(words),
        },
    }
}

fn main(rt: HostRuntime) -> ExitCode {
    let mut err = HostSink::new(rt.stderr());
    let Ok(words) = words(&rt) else {
        return ExitCode::from(tell_memory(&mut err).code());
    };
    let alloc = rt.alloc();
    let mut out = HostSink::new(rt.stdout());
    let mut files = HostFiles::new(alloc, rt);
    let status = top(alloc, words.as_slice(), &mut files, &mut out, &mut err);
    ExitCode::from(status.code())
}
