//! Configured graphs: for each body of a program the places of its graph with the mutexes that the task holds there
//! and those that it has found free, and the copies of the graph's edges between them. What edges do to states, this
//! crate does not know.
//!
//! The graph of `{ __lock(m); x = 1; __unlock(m); }` has the places 0 to 5; so has its configured graph, where the
//! mutex is held at the places 1 to 4. Where a body locks a mutex that it may hold already, the copy of the edge from
//! the node at which it holds it leads nowhere.
#![tactic(auto)]

mod copies;
mod groups;
mod nodes;
mod programs;
mod reached;
mod sets;

pub use nodes::{ConfiguredGraph, ConfiguredNode, EdgeCopy};
pub use programs::{Program, configured};
