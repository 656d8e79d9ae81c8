//! That each layout of a typed file has a program on a scale, or exceeds a limit, and not both. It is a law over
//! definitions: that there is an answer needs no code. How graphs are built and configured, this crate does not know;
//! it holds no code but laws.
//!
//! Of `__mutex m; __task(1) void t(void) { __lock(m); __unlock(m); }` the graph has few nodes, and of those few are
//! reached with `m` held or not: so its layout has a program, and is refused by no limit. Where a body has more nodes
//! than the scale allows, its layout has none, and the limit that it exceeds is that of nodes.
#![tactic(auto)]

mod laws;

pub use laws::{facts_of_graphs, one_answer, some_program};
