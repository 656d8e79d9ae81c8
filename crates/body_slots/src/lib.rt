//! The least table of a body over a store, found by fronts and slots: a cell stands only at the nodes where something
//! may happen to it. What edges may look at, touch and carry is given, and checked where an edge is applied; where a
//! check does not pass there is no table, and the body is to be solved otherwise. An edge is applied to a state of the
//! cells at which it looks alone, and cells that it carries flow along it one by one, as it changes each by itself. What
//! stood at the variables over an earlier store is what a later table is found from. How a least assignment is found,
//! what an edge does, and how cells are placed, this crate does not know.
//!
//! In `int x, y; __task(1) void t(void) { x = 1; y = 2; }` the edge of the first store touches the cell of `x`, and the
//! second that of `y`. So the cell of `x` has slots at node 0 and behind the first store, and the state at the end of
//! the body has `x` as it stands there.
#![tactic(auto)]

mod laws;
mod rows;
mod slots;
mod solving;
mod starts;
mod systems;
mod tables;

pub use laws::{slots_are_read, slots_solve_bodies};
pub use slots::BodySlots;
pub use solving::{SlotTable, sparse_table, sparse_table_from};
pub use starts::SlotValues;
pub use systems::SlotSystem;
