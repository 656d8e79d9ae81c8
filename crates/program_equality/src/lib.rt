//! Whether two programs are equal as far as the equations of the analysis read them: their layouts, edges, nodes,
//! copies of edges, heads, lists of numbers, and thresholds. No comparison takes memory: each is one pass over both.
//! What the equations are, and what a program has besides, this crate does not know.
//!
//! The edges of the bodies `{ x = 1; }` and `{ x = 2; }` differ: the second is `Const` with another value. The layouts
//! of the files that they stand in are the same, since of a function only its parameters and local objects have cells.
#![tactic(auto)]

mod alike;
mod graphs;
mod layouts;
mod lists;
mod operations;
mod types;

pub use graphs::{are_same_copies, are_same_edges, are_same_heads, are_same_nodes};
pub use layouts::is_same_layout;
pub use lists::{are_same_lists, are_same_marks, are_same_priorities};
