//! What a program does, as definitions: what a task does next, after a list of answers, by a plain interpreter of its
//! typed tree; and how the choice of a task turns one world into the next. How a program is analysed, and what graphs
//! say of it, this crate does not know.
//!
//! In `int x; __task(1) void t(void) { x = x + 1; }` the task first loads `x`. After the answer 5 it stores 6 to `x`,
//! and after that its body is at its end; after the answer 2147483647 it has an error of the class OVERFLOW at the sign
//! `+`.
#![tactic(auto)]

pub mod laws;
mod worlds;

pub use worlds::{Choice, Content, Status, Stepped};
