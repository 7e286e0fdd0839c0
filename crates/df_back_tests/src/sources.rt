//! Generated sources.

use df_gen::source;
use std::test::Fail;

#[test]
fn one_method(rt: HostRuntime) -> Result<(), Fail> {
    let text = source(rt.alloc(), 0, 1)?;
    let expected =
        b"newtype u = x: int | 0 <= x < 1000000000\nmethod m0(n: u) returns (r: u) requires n < 1000 ensures r == n * 7 { r := 0; var i: u := 0; while i < n invariant i <= n && r == i * 7 { r := r + 7; i := i + 1; } }\nmethod Main() { var t: u := 0; var a: u := 0;\na := m0(10); t := t + a;\nprint t, \"\\n\"; }\n";
    assert!(rt; text.as_slice() == expected.as_slice());
    Ok(())
}
