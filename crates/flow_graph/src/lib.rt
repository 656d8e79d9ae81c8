//! Graphs of bodies: nodes, edges with one operation each, and what a run of a graph does after a list of answers. How
//! a body becomes a graph, this crate does not know.
//!
//! The graph of the body `{ x = 1; }` has four nodes. From node 0 leads `Base` to node 1, from there `Const` to node 2,
//! from there `Store` to node 3, and from node 3 nothing: there a run ends.
#![tactic(auto)]

mod graphs;
mod laws;
mod operations;

pub use graphs::{Edge, Graph, Graphs};
pub use laws::{one_of_both, one_run, runs_along};
pub use operations::{Into, Operation, Test};
