//! Texts of logs: read, written again, and refused.

use crate::expecting::expect;
use df_form::Step;
use df_logtext::{LogFault, read, write};
use std::alloc::Global;

/// Each line of logs.
const TEXT: &[u8] =
    b"dfylog 1\no 1\nh 0\ng\nx 3 1\na 74 2 5\nu 0 1 : +3 -5\ne -3 +5 : 1 2 6 4\ne +3 :\nl -3 +5 : 2 1*0 1 -1*1+1*2 3\ns 4 -7\nn num -12\nn is:i32 4\nn is:nat 4\nn is:int 4\nn is:bool 1\nn is:char 20\nn and 1 2\nn plus 0 0\nn div 0 4\nn mod 0 4\nn chr 0\nn code 8\nu 2 :\n.\no 2\n.\nend\n";

/// Adds the name of the newtype.
fn push_name(alloc: Global, names: &mut Vec<String>) -> bool {
    match String::from_str(alloc, "i32") {
        Ok(name) => names.push(name).is_ok(),
        Err(_) => false,
    }
}

/// Whether logs are written so.
fn are_written(alloc: Global, names: &[String], logs: &[Vec<Step>], text: &[u8]) -> bool {
    match write(alloc, names, logs) {
        Ok(written) => written.as_slice() == text,
        Err(_) => false,
    }
}

/// Whether a text is read as so many logs, and is what they are written as.
fn is_kept(alloc: Global, names: &[String], text: &[u8], count: usize) -> bool {
    match read(alloc, names, text) {
        Ok(logs) => logs.len() == count && are_written(alloc, names, &logs, text),
        Err(_) => false,
    }
}

#[test]
fn read_and_written(rt: HostRuntime) {
    let mut names = Vec::new(rt.alloc());
    assert!(rt; push_name(rt.alloc(), &mut names));
    assert!(rt; is_kept(rt.alloc(), &names, TEXT, 2));
}

/// Texts, and their first bad lines.
const BAD: [(&[u8], u64); 13] = [
    (b"", 1),
    (b"dfylog 01\nend\n", 1),
    (b"dfylog 1\r\nend\n", 1),
    (b"dfylog 1\n", 2),
    (b"dfylog 1\nend", 2),
    (b"dfylog 1\nend\n\n", 3),
    (b"dfylog 1\no 2\n.\nend\n", 2),
    (b"dfylog 1\no 1\nh 00\n.\nend\n", 3),
    (
        b"dfylog 1\no 1\ns 0 170141183460469231731687303715884105728\n.\nend\n",
        3,
    ),
    (b"dfylog 1\no 1\nn is:other 0\n.\nend\n", 3),
    (b"dfylog 1\no 1\ne -3 : 1 2 6\n.\nend\n", 3),
    (b"dfylog 1\no 1\nu 0\n.\nend\n", 3),
    (b"dfylog 1\no 1\nl : 1*0\n.\nend\n", 3),
];

/// The first bad line of a text, where it is no log.
fn bad_line(alloc: Global, names: &[String], text: &[u8]) -> Option<u64> {
    match read(alloc, names, text) {
        Err(LogFault::BadLog(line)) => Some(line),
        _ => None,
    }
}

#[test]
fn bad_lines(rt: HostRuntime) {
    for (number, (text, bad)) in BAD.iter().enumerate() {
        expect(&rt, number, bad_line(rt.alloc(), &[], *text) == Some(*bad));
    }
}
