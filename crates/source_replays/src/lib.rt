//! What the bytes of a replay are answered: the text of the run that they ask for, or the line by which they are
//! refused. From where bytes come and where the text goes, this crate does not know.
//!
//! The bytes `int x;`, `__task(1) void t(void) { x = 1 / x; }`, `#replay` and `run 0 0`, a line each, are answered by
//! `notallowed 1`, since the task still waits; `int x;` alone is answered by `refused replay`.
#![tactic(auto)]

pub mod laws;
mod replays;

pub use replays::{Outcome, Reply, replay};
pub use source_programs::source_program;
