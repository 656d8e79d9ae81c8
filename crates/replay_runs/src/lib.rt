//! Runs by given choices: the places at which tasks race on the way, and how the run ends. Which text gives the
//! choices, and how the answer is written, this crate does not know.
//!
//! In `int x; __task(1) void t(void) { x = 1 / x; }` the choices wake 0, run 0 0 and run 0 0 end in a stop by the
//! third, with DIV at the sign `/`. No place races, since there is one task.
#![tactic(auto)]

mod places;
mod runs;

pub use runs::{Run, run_by};
