//! Systems of equations over a graph, where each edge brings a state from one node to another and states are rounded
//! at some nodes: what a solution is, and the least one; the first edge that a given table does not cover; and what it
//! is that edges contribute. How a solution is found, this crate does not know, nor what a state is or what an edge
//! does: a trait brings both with their laws.
//!
//! A loop that counts up from 0: node 0 holds 0 from the entry, an edge leads from 0 to the head 1, and an edge from
//! 1 to 1 adds one. States are numbers up to 9 with the order of numbers, rounded at 1 to 0 or 9. With 0 at node 0
//! and 9 at node 1 each edge is covered. With 0 at both, what both edges bring to the head is joined to 1 and rounded
//! to 9, which is more than stands there: the edge from 0 is the first that is not covered.
#![tactic(auto)]

mod contributions;
mod covers;
mod equations;
mod laws;
mod links;
mod tables;

pub use contributions::Contributions;
pub use covers::{Uncovered, first_uncovered};
pub use equations::Equations;
pub use laws::least_solutions;
pub use links::Link;
pub use tables::no_states;
