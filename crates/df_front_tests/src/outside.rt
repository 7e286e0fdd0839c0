//! Names, files, sinks and statuses.

use crate::expecting::expect;
use df_base::{
    FileBytes, Files, HostFiles, HostSink, LoadFault, MemFiles, MemSink, Memory, Name, Names, Sink,
    SinkFault, Status, Stop, SureFiles, SureSink,
};
use std::alloc::Global;
use std::io::Write;
use std::process::Abort;
use std::{fs, io};

/// The name of a text, where the text is that of the name.
fn own_name(names: &mut Names, text: &str) -> Option<Name> {
    if names.len() > 9 {
        return None;
    }
    let Ok(name) = names.intern(text) else {
        return None;
    };
    if names.text(name) == text {
        Some(name)
    } else {
        None
    }
}

/// Whether the names of two texts are different, where so many are given then.
fn are_apart(names: &mut Names, first: &str, second: &str, count: usize) -> Option<bool> {
    let first = own_name(names, first)?;
    let second = own_name(names, second)?;
    if names.len() == count {
        Some(first != second)
    } else {
        None
    }
}

/// Whether the names of two texts are different, where these are all that are given.
fn are_named_apart(alloc: Global, first: &str, second: &str, count: usize) -> Option<bool> {
    match Names::new(alloc) {
        Ok(mut names) => are_apart(&mut names, first, second, count),
        Err(_) => None,
    }
}

#[test]
fn a_text_has_one_name(rt: HostRuntime) {
    assert!(rt; are_named_apart(rt.alloc(), "first", "second", 2) == Some(true));
    assert!(rt; are_named_apart(rt.alloc(), "first", "first", 1) == Some(false));
}

/// What a load comes to.
#[derive(Clone, Copy)]
enum Loaded<'a> {
    Text(&'a str),
    /// So many bytes.
    Bytes(usize),
    Large(u64),
    Failed,
}

fn are_bytes(bytes: &[u8], wanted: Loaded) -> bool {
    match wanted {
        Loaded::Text(text) => bytes == text.as_bytes(),
        Loaded::Bytes(count) => bytes.len() == count,
        Loaded::Large(_) | Loaded::Failed => false,
    }
}

fn is_fault(fault: &LoadFault, wanted: Loaded) -> bool {
    match wanted {
        Loaded::Large(limit) => match fault {
            LoadFault::Large(size) => *size == limit,
            LoadFault::Failed | LoadFault::Memory => false,
        },
        Loaded::Failed => matches!(fault, LoadFault::Failed),
        Loaded::Text(_) | Loaded::Bytes(_) => false,
    }
}

fn comes_to(load: &Result<FileBytes, LoadFault>, wanted: Loaded) -> bool {
    match load {
        Ok(bytes) => are_bytes(bytes.as_slice(), wanted),
        Err(fault) => is_fault(fault, wanted),
    }
}

/// Adds files of which one is added twice, where the fifth load fails.
fn plan_files(files: &mut MemFiles) -> bool {
    files.add("a", b"old").is_ok()
        && files.add("b", b"other").is_ok()
        && files.add("a", b"new!").is_ok()
        && files.fail_at(4).is_ok()
}

/// Names and limits, what their loads come to one after another, and how many faults there are then.
const PLANNED: [(&str, u64, Loaded, u64); 6] = [
    ("a", 4, Loaded::Text("new!"), 0),
    ("b", 100, Loaded::Text("other"), 0),
    ("a", 3, Loaded::Large(4), 0),
    ("c", 9, Loaded::Failed, 1),
    ("a", 3, Loaded::Failed, 2),
    ("a", 9, Loaded::Text("new!"), 2),
];

/// Whether a load comes to what it should.
fn loads(alloc: Global, files: &mut MemFiles, name: &str, limit: u64, wanted: Loaded) -> bool {
    let load = files.load(alloc, name, limit);
    comes_to(&load, wanted)
}

/// Each load comes to what is planned.
fn expect_planned(rt: &impl Abort, alloc: Global, files: &mut MemFiles) {
    for (number, (name, limit, wanted, faults)) in PLANNED.iter().enumerate() {
        let is_loaded = loads(alloc, files, *name, *limit, *wanted);
        expect(rt, number, is_loaded && files.faults() == *faults);
    }
}

#[test]
fn files_in_memory_fail_where_planned(rt: HostRuntime) {
    let mut files = MemFiles::new(rt.alloc());
    assert!(rt; plan_files(&mut files));
    expect_planned(&rt, rt.alloc(), &mut files);
}

/// Names and limits, and what their loads come to where `a` is `text`.
const SURE: [(&str, u64, Loaded); 3] = [
    ("a", 4, Loaded::Text("text")),
    ("b", 0, Loaded::Text("")),
    ("a", 0, Loaded::Large(1)),
];

fn loads_surely(
    alloc: Global,
    files: &mut SureFiles,
    name: &str,
    limit: u64,
    wanted: Loaded,
) -> bool {
    let load = files.load(alloc, name, limit);
    comes_to(&load, wanted)
}

/// Each load comes to what it should, and none to a fault.
fn expect_sure(rt: &impl Abort, alloc: Global, files: &mut SureFiles) {
    for (number, (name, limit, wanted)) in SURE.iter().enumerate() {
        let is_loaded = loads_surely(alloc, files, *name, *limit, *wanted);
        expect(rt, number, is_loaded && files.faults() == 0);
    }
}

#[test]
fn sure_files_are_empty_where_none_was_added(rt: HostRuntime) {
    let mut files = SureFiles::new(rt.alloc());
    assert!(rt; files.add("a", b"text").is_ok());
    expect_sure(&rt, rt.alloc(), &mut files);
}

fn write_long(rt: &HostRuntime) -> io::Result<()> {
    let long = vec![in rt.alloc(); 9u8; 10000]?;
    fs::write(rt, "df_front_tests/long", long)
}

fn write_files(rt: &HostRuntime) -> bool {
    fs::create_dir_all(rt, "df_front_tests").is_ok()
        && fs::write(rt, "df_front_tests/text", b"seven b".as_slice()).is_ok()
        && write_long(rt).is_ok()
}

/// Names and limits, what their loads come to, and whether a fault is counted.
const WRITTEN: [(&str, u64, Loaded, bool); 5] = [
    ("df_front_tests/text", 7, Loaded::Text("seven b"), false),
    ("df_front_tests/long", 10000, Loaded::Bytes(10000), false),
    ("df_front_tests/long", 9999, Loaded::Large(10000), false),
    ("df_front_tests/none", 100, Loaded::Failed, true),
    ("df_front_tests", 100, Loaded::Failed, true),
];

/// Whether each load comes to what it should, and a fault is counted where it fails.
fn reads_files(rt: &HostRuntime) -> bool {
    let mut files = HostFiles::new(rt.alloc(), rt);
    let mut are_read = true;
    for (name, limit, wanted, fails) in &WRITTEN {
        let before = files.faults();
        let load = files.load(rt.alloc(), *name, *limit);
        let is_counted = (files.faults() > before) == *fails;
        are_read = are_read && is_counted && comes_to(&load, *wanted);
    }
    are_read
}

#[test]
fn files_of_the_system_are_read(rt: HostRuntime) {
    assert!(rt; write_files(&rt));
    assert!(rt; reads_files(&rt));
    assert!(rt; fs::remove_dir_all(&rt, "df_front_tests").is_ok());
}

fn comes_through(put: Result<(), SinkFault>, fails: bool) -> bool {
    match put {
        Ok(()) => !fails,
        Err(SinkFault::Failed) => fails,
        Err(SinkFault::Memory) => false,
    }
}

/// Lets the second call of a sink fail past two bytes, and the third before any.
fn plan_sink(sink: &mut MemSink) -> bool {
    sink.fail_at(1, 2).is_ok() && sink.fail_at(2, 0).is_ok()
}

/// What is put on it, and whether that fails.
const PLANNED_PUTS: [(&str, bool); 4] = [
    ("one ", false),
    ("two ", true),
    ("three ", true),
    (" four", false),
];

/// Each text is put as it is planned.
fn expect_puts(rt: &impl Abort, sink: &mut MemSink) {
    for (number, (text, fails)) in PLANNED_PUTS.iter().enumerate() {
        let put = sink.put(text.as_bytes());
        expect(rt, number, comes_through(put, *fails));
    }
}

#[test]
fn sinks_in_memory_keep_what_they_take(rt: HostRuntime) {
    let mut sink = MemSink::new(rt.alloc());
    assert!(rt; plan_sink(&mut sink));
    expect_puts(&rt, &mut sink);
    assert!(rt; sink.taken() == b"one tw four".as_slice() && sink.faults() == 2);
}

/// Whether two texts are put on a sink.
fn puts_both<S: Sink>(sink: &mut S, first: &str, second: &str) -> bool {
    sink.put(first.as_bytes()).is_ok() && sink.put(second.as_bytes()).is_ok()
}

#[test]
fn a_sure_sink_keeps_what_it_takes(rt: HostRuntime) {
    let mut sink = SureSink::new(rt.alloc());
    assert!(rt; puts_both(&mut sink, "one ", "two"));
    assert!(rt; sink.taken() == b"one two".as_slice() && sink.faults() == 0);
}

/// Takes at most two bytes a call, up to a number of calls. Then it fails, or takes none.
#[derive(Drop)]
struct Slow {
    taken: Vec<u8>,
    calls: u8,
    fails: bool,
}

impl Write for Slow {
    fn write(&mut self, buf: &[u8]) -> io::Result<usize> {
        if self.calls == 0 && self.fails {
            return Err(io::Error::from(io::ErrorKind::BrokenPipe));
        }
        if self.calls == 0 {
            return Ok(0);
        }
        self.calls -= 1;
        let most = buf.len().min(2);
        self.taken.extend_from_slice(&buf[..most])?;
        Ok(most)
    }

    fn flush(&mut self) -> io::Result<()> {
        Ok(())
    }
}

#[test]
fn a_sink_over_a_writer_writes(rt: HostRuntime) {
    let mut sink = HostSink::new(Vec::new(rt.alloc()));
    assert!(rt; puts_both(&mut sink, "pie", "ce"));
    assert!(rt; sink.writer().as_slice() == b"piece".as_slice());
}

/// What is put on a slow writer, whether that fails, and how many faults there are then.
const PUTS: [(&str, bool, u64); 3] = [("", false, 0), ("abc", false, 0), ("defg", true, 1)];

/// Whether a sink over a writer of three calls takes what they allow, and counts the fault behind them.
fn counts_faults<S: Sink>(sink: &mut S) -> bool {
    for (text, fails, faults) in &PUTS {
        let put = sink.put(text.as_bytes());
        if !comes_through(put, *fails) || sink.faults() != *faults {
            return false;
        }
    }
    true
}

fn counts_what_fails(alloc: Global, fails: bool) -> bool {
    let mut sink = HostSink::new(Slow {
        taken: Vec::new(alloc),
        calls: 3,
        fails,
    });
    counts_faults(&mut sink) && sink.writer().taken.as_slice() == b"abcde".as_slice()
}

#[test]
fn a_sink_over_a_writer_counts_what_fails(rt: HostRuntime) {
    assert!(rt; counts_what_fails(rt.alloc(), false));
    assert!(rt; counts_what_fails(rt.alloc(), true));
}

fn stopped(memory: Memory) -> Result<(), Stop> {
    Err(memory)?;
    Ok(())
}

/// Endings and their numbers.
const ENDINGS: [(Status, u8); 11] = [
    (Status::Done, 0),
    (Status::Unproved, 1),
    (Status::Usage, 2),
    (Status::Refused, 3),
    (Status::Unread, 4),
    (Status::Unwritten, 5),
    (Status::Memory, 6),
    (Status::FuelSpent, 7),
    (Status::NotCompilable, 8),
    (Status::NoMain, 9),
    (Status::BadLog, 10),
];

#[test]
fn each_ending_has_its_status(rt: HostRuntime) {
    assert!(rt; matches!(stopped(Memory), Err(Stop::Memory)));
    for (number, (status, code)) in ENDINGS.iter().enumerate() {
        expect(&rt, number, status.code() == *code);
    }
}
