//! The workers of an analysis: a store core behind one lock, the loop of a worker on it, and the whole solution by up
//! to 16 of them. It knows nothing of what a pass computes, nor of the order in which threads run: whatever that is,
//! what lies behind the lock is a store core with a legal history, and a solution is a quiet one.
//!
//! Two workers on a program of two tasks, of which only task 0 adds something, while the passes of task 1 take longer.
//! A line is what one worker does, from above in the order of time:
//!
//! ```text
//! worker 0                                   worker 1
//! takes task 0, version 0
//!                                            takes task 1, version 0
//! passes over it and publishes: version 1
//! takes task 0, version 1
//! passes over it and publishes: version 1
//! asks: Others, and waits
//!                                            publishes over version 0: version 1, and wakes worker 0
//! takes task 1, version 1
//!                                            asks: Others, and waits
//! publishes: version 1, and wakes worker 1
//! asks: AllQuiet, and ends
//!                                            asks: AllQuiet, and ends
//! ```
#![tactic(auto)]

mod shared;
mod solving;

pub use shared::{SharedStore, work};
pub use solving::solve;
