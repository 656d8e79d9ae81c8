//! Which abstract cells each edge of each body of a program may look at, touch and carry, found before any analysis: by
//! the objects to which each temporary and each cell may ever point, whatever the order of steps, what numbers are, and
//! at which offsets. Nobody has to believe it: no clause says that it is enough, and an analysis that rests on it has to
//! see for itself, where it applies an edge, that what the edge does lies within. What is done with these cells, this
//! crate does not know.
//!
//! In `int x, y; int *p = &x; __task(1) void t(void) { int a; *p = 1; __yield(); a = y; }` the pointer `p` leads to
//! `x` alone. The load of `p` looks at `p`, and touches nothing. The store through it looks at `x` and touches it. The
//! yield carries `x` and `a`: what the task stores may be fresh until then, and each is no longer so, whatever the others
//! are. The load of `y` looks at `y`, and no edge touches or carries `p` or `y`.
#![tactic(auto)]

mod cell_lists;
mod flows;
mod groups;
mod handed;
mod holders;
mod initial;
mod operations;
mod pointees;
mod pointing;
mod programs;
mod scheduled;
mod seen;
mod settling;
mod targets;
mod touching;
mod traced;

pub use programs::program_touches;
pub use row_checks::Traces;
pub use touching::BodyTouches;
