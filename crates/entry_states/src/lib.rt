//! The states at which bodies begin: what abstract cells of static storage hold before a program runs, the state at
//! the entry of a body before anything has run, the state in which the initial section ends, and that at the entry of a
//! task behind it. Which edges a body has and how a state passes them, this crate does not know.
//!
//! In `int x; int main(void) { x = 5; return 0; } __task(1) void t(void) { int y; x = x + 1; }` the initial section
//! begins where `x` is 0. It ends where `x` is 5, and there `t` begins, with any number in its own `y`.
#![tactic(auto)]

mod ends;
mod entries;
mod initial;

pub use body_systems::{BodyFacts, BodyOverStore, BodyState, BodySystem};
pub use ends::ended_state;
pub use entries::{first_state, later_state};
pub use initial::initial_values;
