//! How the edge of a graph is an action of the rows of transfers, in a layout and for a task at a node: which cells an
//! access may reach, what the cells of a cleared object become, which values constants have, and how a test is a
//! filter. The definitions stand in `specs`; the code finds the abstract cells that an address reaches, by its objects
//! and offsets. What an action does to a state, this crate does not know.
//!
//! In `int x; __task(1) void t(void){ x=1; }` the edge of the store is the action `stores` with one spot, the cell of
//! `x`: an address of `x` at offset 0 or 1 reaches it, one at offset 1 alone reaches nothing.
#![tactic(auto)]

mod laws;
mod places;
mod targets;
mod views;

pub use laws::edges_are_actions;
pub use places::{
    is_reachable, is_shared_cell, is_smashed_cell, numbers_between, open_cell, open_value,
};
pub use targets::{is_among, single_of, targets_at};
pub use views::{EdgeView, Targets};
