//! The top calls: from the bytes of a source to the text of its report. They know the words of the command and the
//! streams, and hold the proof that the report is that of the least solution of the source's equations; how a source
//! becomes a program, and how a program is solved and judged, they do not know, nor where bytes come from and go to.
//! `analyse` takes all words, and may wait for workers; `analyse_alone` takes those that ask for none, and returns.
//!
//! The words `analyse` and the source `int x; __task(1) void t(void) { x = 1 / x; }` give the text `1:39 DIV` and
//! `alarms 1`, each with byte 10 behind it, and the status `Alarms`: `x` is 0 where the task divides by it.
#![tactic(auto)]

mod commands;
pub mod laws;
mod replies;
mod solvers;
mod top;

pub use program_streams::Status;
pub use top::{analyse, analyse_alone, asks_workers};
