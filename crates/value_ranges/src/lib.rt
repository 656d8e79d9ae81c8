//! The bounds of the numbers that the integer cells of static objects hold, object by object or cell by cell, and the
//! places that no run reaches, as the tables of a program's bodies and a store tell that are the least solution of its
//! equations. How that is found, this crate does not know.
//!
//! In `int x; int y; __task(1) void t(void) { x = __input(0, 9); if (x > 20) y = 1; }` the least tables have `x` at 0
//! to 9 and `y` at 0 wherever a state stands. So the bounds are 0 and 9, and 0 and 0, and the place of `y = 1` is dead.
#![tactic(auto)]

mod bounds;
mod cells;
mod finding;
mod grouped;
mod notes;
mod object_bounds;
mod places;

pub use finding::{least_cell_ranges, least_ranges, ranges_by_cells};
pub use object_bounds::{Grouping, ObjectBounds, Ranges};
