//! From which expression or declaration each edge of a graph comes: what is noted of each call path that the graph goes
//! along, at the numbers of the graph. That the walks of the paths give exactly the edges that the graphs have, each
//! with the form of its operation, is looked at before anything is answered. What it is noted for, this crate does not
//! know.
//!
//! Where a task calls `f` and the body of `f` has the edges 4 to 7 of the graph, the second edge that is noted of `f`
//! is noted of edge 5 here.
#![tactic(auto)]

mod assembling;
mod beside;
mod edges;
mod falls;
mod forms;
mod origins;
mod sizes;
mod starts;

pub use assembling::edge_origins;
pub use origins::{BodyOrigins, EdgeOrigin, Fall};
