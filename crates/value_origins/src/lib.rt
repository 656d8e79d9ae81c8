//! Where the values of a program's tables come from: what the temporaries before an edge may hold, which edge gives
//! one, which cells a load or a store reaches, and which stores may have put there what a load gives. All of it is read
//! off the tables and promised by no clause, but for one: a null pointer is never traced to a store that does not store
//! one. Where tables come from, which alarms stand in them, and how far a value is traced, this crate does not know.
//!
//! In `int x; int y; __task(1) void a(void) { y = 8 / x; } __task(2) void b(void) { x = 0; x = 3; }` the divisor is a
//! temporary that the load of `x` gives, from 0 to 3. The load reaches the one cell of `x`, of which the task `a`
//! itself knows 0 alone, what holds before the program runs. Both stores of `b` may come in before the load, and
//! neither has more values than the other: the first one is told.
#![tactic(auto)]

mod bodies;
mod extents;
mod givers;
mod reads;
mod stores;

pub use bodies::{Analysed, BodyIndex, bodies_of, operation_at};
pub use extents::{
    Extent, bounds, common, extent_of, is_flagged, is_within, numbers_alone, weight,
};
pub use givers::{Giving, Use, only_giver, source_of, value_at};
pub use reads::{Access, cells_at, may_be_open, own_loaded};
pub use stores::{StoreSite, Stores, stores_of, widest_store};
