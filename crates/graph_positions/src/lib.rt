//! Positions of runs along graphs: what an operation does, where a task stands after some answers, and what it does
//! next there. Nothing recurs, so that a run may be of any length. How a graph is made, this crate does not know.
//!
//! Along the edges `Base`, `Const` and `Store` of `x = 1;` a position that starts at node 0 advances to node 2, where
//! its next action is the store. With the answer that it is done it moves on to node 3, where the run ends.
#![tactic(auto)]

mod calculations;
mod laws;
mod outcomes;
mod positions;
mod runs;
mod steps;
mod temporaries;
mod tests;

pub use laws::{layouts_serve, stands_where_it_leads};
pub use outcomes::{Outcome, doing};
pub use positions::Position;
pub use runs::{Run, graph_next};
