//! The equations of all bodies of a program as code: what is computed once of each body, the system of equations of
//! each over a store, and the states in which tasks begin. How solutions are found, and how they are checked, this
//! crate does not know.
//!
//! In `int x; int main(void) { x = 5; return 0; } __task(1) void t(void) { x = x + 1; }` there are two bodies, `t` with
//! the number 0 and `main` with the number 1. Where the table of `main` has `x` at 5 at its end, `t` begins where `x`
//! is 5.
#![tactic(auto)]

mod beginnings;
mod facts;
mod systems;

pub use beginnings::{section_entry, task_entries};
pub use entry_states::{BodyFacts, BodyOverStore, BodyState, BodySystem};
pub use facts::ProgramFacts;
pub use systems::body_over_store;
