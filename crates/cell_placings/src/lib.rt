//! Which nodes of a graph own which cells, and where a cell is kept at a node that does not own it. Edges touch cells,
//! carry cells and look at cells, and some are rounded at nodes. A node owns a cell if it is the entry, node 0, if an
//! edge to it touches or carries the cell, if it is rounded there, or if ways from different owners meet there. It is
//! found by dominators and their frontiers, of which nothing is proved, and then checked edge by edge over a tree of the
//! nodes. What cells are and what an edge does with them, this crate does not know.
//!
//! Edges lead from 0 to 1, from 1 to 2 and to 3, and from 2 and 3 to 4, and that from 1 to 2 touches cell 5. Node 0
//! owns it, node 2 since it is touched there, and node 4, where it comes from 2 and, untouched, by 3. At 1 and 3 it is
//! kept at 0. A cell that no edge touches and that is rounded nowhere is kept at 0 at every node.
#![tactic(auto)]

mod cell_graphs;
mod cell_sets;
mod checks;
mod dominators;
mod finding;
mod frontiers;
mod histories;
mod lists;
mod owners;
mod placings;
mod walks;

pub use cell_graphs::CellGraph;
pub use cell_sets::CellSet;
pub use checks::{are_placed, cells_at, has_cell};
pub use finding::{found_owners, sets_of};
pub use owners::Owners;
pub use placings::{CellPlacing, checked_placing, place_cells};
