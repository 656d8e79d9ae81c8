//! Programs run along their graphs: what is typed, laid out and lowered has all that worlds along graphs stand on. What
//! a step of a world is, and how graphs are made, this crate does not know: it stands on what the definitions say.
//!
//! So the graph of the one task of `int x; __task(1) void t(void) { x = 1; }` is one along which that task goes.
#![tactic(auto)]

mod programs;

pub use programs::programs_have_graphs;
