//! What the edges do that let through only some values, as code: those that test temporaries, and those that ask that a
//! pointer is not the invalid one. Both sides of a test are refined by what they were before; a refined temporary keeps
//! its copy, and the cell of which it is one is refined with it. They know no store and no graph.
//!
//! Where temporary 0 is {1, 2, 5} and a copy of the cell 7, with the same own value, and temporary 1 is {2}, an edge
//! that lets through `0 > 1` leads to a state in which temporary 0 and the own value of cell 7 are {5}, and temporary 1
//! is {2}. Where temporary 1 is {5}, it leads to none.
#![tactic(auto)]

mod refining;
mod tests;

pub use edge_effects::{After, EdgeView, is_reachable, is_shared_cell, open_cell, pointer_value};
pub use refining::{met_cells, refined_state};
pub use tests::{refine, usable};
