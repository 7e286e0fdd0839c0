//! What a table says of its rows.

use std::process::Abort;

/// Ends the test where the row of this number is not as it should be.
pub(crate) fn expect(rt: &impl Abort, number: usize, is_right: bool) {
    assert!(rt; is_right, "at {number}");
}

/// Ends the test where the sheet of this number has a row that is not as it should be.
pub(crate) fn expect_no_row(rt: &impl Abort, number: usize, wrong: Option<usize>) {
    let row = wrong.unwrap_or(0);
    assert!(rt; wrong.is_none(), "at {number}, row {row}");
}
