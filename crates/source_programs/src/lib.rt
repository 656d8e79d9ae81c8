//! From the bytes of a source to its program, or to the first reason to refuse it, within the limits of a scale. Each
//! station is a call of a crate below; this one knows their order, and which name among the tokens is spelled `main`.
//!
//! The source `int x; __task(1) void t(void) { x = 1; }` is accepted: its program has one body, that of the task `t`,
//! with priority 1, and a given number 17 makes 17 and -17 thresholds of it. The source
//! `int x; __task(1) void t(void) { y = 1; }` is refused by typing, at the place of `y`.
#![tactic(auto)]

mod laws;
mod mains;
mod sources;

pub use laws::{one_source, programs_are_one, some_source};
pub use sources::{source_program, source_program_on};
