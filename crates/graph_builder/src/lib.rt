//! The graph of each body of a program: the body of the function of each call path as it stands there, and in the place
//! of each call the body of the path that it calls. What expressions and statements become, the crates below know; what
//! graphs are for, this crate does not know.
//!
//! In `int f(int x) { return x; } __task(1) void t(void) { f(1); f(2); }` there are three call paths, the task and two
//! calls of `f`. First the sizes of the calls are found, the last one first: as many nodes and temporaries as their
//! bodies make. Then the body of the task is built with marks in the places of the calls, and each mark is followed by
//! the edges of the body for which it stands. On which call path an edge stands is not told by the graph: it is found
//! beside it, by the marks.
#![tactic(auto)]

mod bodies;
mod call_paths;
mod ends;
mod expansions;
mod graphs;
mod paths;
mod sizes;

pub use call_paths::edge_paths;
pub use graphs::lower;
