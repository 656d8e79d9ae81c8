//! The equations of a whole program: the bodies of the tasks, which share one store, and the initial section, which
//! runs before them; where each begins; and what a solution of all together is, and the least one. How a solution is
//! found and checked, this crate does not know; it holds no code but laws.
//!
//! In `int x; int main(void) { x = 5; return 0; } __task(1) void t(void) { x = x + 1; }` the initial section begins
//! where `x` is 0 and ends where it is 5, so that the task begins where `x` is 5.
#![tactic(auto)]

mod laws;

pub use laws::{
    entries_are_one, entries_fit, equations_are_lawful, passes_are_lawful, programs_are_lawful,
    wholes_are_one,
};
