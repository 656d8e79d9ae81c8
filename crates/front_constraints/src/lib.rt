//! Fronts and slots as values of constraints: when the least assignment of a system of constraints, of which each edge
//! gives one and each cell that passes an edge untouched, as the edge carries it, one more, is the least fronts and
//! slots of a system of equations. What states, cells and edges are, this crate does not know, nor where cells are
//! kept.
//!
//! Nodes 0, 1 and 2 in a row, and states of two cells, where the edge from 0 to 1 touches the first cell and the one from
//! 1 to 2 neither. Variables are the three fronts, whether each edge is open, both cells at 0 and the first at 1. The
//! first edge's row looks at the first cell at 0, and brings a front to 1, that it is open, and the first cell at 1. The
//! second brings a front to 2. No cell flows, since node 1 owns none that is not touched, and node 2 owns none.
#![tactic(auto)]

mod front_systems;
mod laws;
mod standings;

pub use front_systems::FrontSystem;
pub use laws::least_fronts;
pub use standings::Standing;
