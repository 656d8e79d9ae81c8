//! What is told of a place of a preprocessed text beside its line: where in its line of the file it begins and ends, in
//! which function it stands, and its fingerprint, by which a later report finds it again when lines around it moved. It
//! knows texts, and neither alarms nor JSON.
//!
//! At line 1, column 25 of the text `int f(int n) { return 1 / n; }`, whose file has the same line, stands `/`, in the
//! function `f`, from column 25 to 26; and its fingerprint as an alarm `DIV` of `a.c` is the beginning of the SHA-256 of
//! `DIV`, `a.c`, `f`, `intf(intn){return1/n;}` and `0`, with a byte 0 between each and the next.
#![tactic(auto)]

mod code;
mod details;
mod fingerprints;
mod functions;
mod lines;
mod regions;

pub use details::{Details, Sight, details_of, regions_in};
pub use regions::Region;
