//! Numbers for the variables and constraints of a system whose states have fronts and cells: which number is the front of
//! which node, which is whether an edge is open, and which is the slot of a node and a cell that it owns; which constraint
//! is the entry, the row of an edge, or a cell that passes an edge untouched; to which variables each constraint brings
//! values, and which constraints read each variable. All of it is looked up in lists, which take memory linear in slots,
//! flows and the cells that edges touch and at which they look. What states are and what rows do, this crate does not
//! know.
//!
//! Nodes 0, 1 and 2 in a row, and two cells, where the edge from 0 to 1 touches cell 0 and looks at it, and the one from 1
//! to 2 neither: node 0 owns both cells, node 1 owns cell 0, and node 2 none. Variables 0 to 2 are the fronts, 3 and 4
//! whether the edges are open, 5 and 6 both cells at node 0, and 7 cell 0 at node 1. Constraint 0 is the entry, which brings
//! to 0, 5 and 6; 1 and 2 are the rows of the edges, which bring to 1, 3 and 7, and to 2 and 4. No cell flows. Constraint 1
//! reads variables 0 and 5, and constraint 2 variable 1.
#![tactic(auto)]

mod checks;
mod flat_lists;
mod flows;
mod names;
mod number_lists;
mod numberings;
mod own_cells;
mod readers;
mod targets;
mod variable_numbers;

pub use names::{Rule, Variable};
pub use numberings::SlotNumbers;
