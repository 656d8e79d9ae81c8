//! The driver of the tables, and the comparison of texts.
use std::alloc::Global;
use std::process::Abort;
use tm_lattice::NoMemory;

/// A row of a table: calls, and what they give. (The rows of a file are of one type, with one impl: a function that is
/// handed to the driver is three to prove.)
pub(crate) trait Row {
    /// Whether the calls give what the row says.
    fn holds(&self, alloc: Global) -> Result<bool, NoMemory>;
}

/// Asserts that each row of a table holds, and names the first one that does not by its number, from 0.
pub(crate) fn assert_rows<R: Row>(rt: &impl Abort, alloc: Global, rows: &[R]) {
    for (number, row) in rows.iter().enumerate() {
        assert!(rt; row.holds(alloc) == Ok(true), "row {number}");
    }
}

/// A text is as wanted. (What an `assert_eq!` prints of its sides is proved each time that one stands somewhere, so all
/// that compare texts call this.)
pub(crate) fn assert_text(rt: &impl Abort, text: &str, wanted: &str) {
    assert_eq!(rt; text, wanted);
}
