//! The comparison of texts. (What an assertion prints is proved each time that one stands somewhere, so all that compare
//! texts call this.)

use std::process::Abort;

/// What a row gives, is as wanted.
pub fn assert_text(rt: &impl Abort, row: &str, given: &str, wanted: &str) {
    assert!(rt; given == wanted, "{row} gives {given}");
}
