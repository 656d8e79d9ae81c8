//! A history of the shared store as text. It knows the events and their order alone: which histories are legal, and
//! what a publication adds, it does not know.
//!
//! Where worker 0 reads version 0 for task 1 and publishes what this adds, so that the version rises, the lines are
//! `read 0 1 0` and `publish 0 1 0 1`.
#![tactic(auto)]

mod lines;

pub use lines::history_lines;
