//! When a table of a body's states that keeps each cell at some nodes alone is the least solution of the body's
//! equations. The law needs no analysis of pointers to be right: it speaks of a table's own edges, and of what code
//! checked at each of them. How such a table is found, this crate does not know; it holds no code but the law.
//!
//! In `int x, y; __task(1) void t(void) { x = 1; y = 2; }` the store to `x` touches `x` and the one to `y` touches `y`.
//! So `x` is kept at the entry and behind its store, `y` at the entry and behind its own, and everywhere else a cell is
//! what it is at the last node before that keeps it. The law says that the table which this gives is the least one,
//! with the same value, pending mutexes and freshness of each cell at each node.
#![tactic(auto)]

mod laws;

pub use laws::sparse_tables_are_least;
