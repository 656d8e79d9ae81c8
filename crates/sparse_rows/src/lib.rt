//! Which cells of a state an operation leaves as they are, which it changes one by one, at which it looks, and what
//! code has to check of an edge so that a cell need not be kept at each node: laws over the rows of transfers, for all
//! operations. An operation changes nothing of the cells that it leaves, makes of those that it carries what depends on
//! each of them alone, and what it leads to depends on the temporaries and the cells at which it looks alone. Where
//! cells are kept, and how tables are solved, this crate does not know; it holds no code but laws.
//!
//! In `x = y + 1;`, where the address of the load leads to `y` alone and that of the store to `x` alone, the load looks
//! at `y` and touches no cell, the addition does neither, and the store looks at `x` and touches `x`. So of three edges
//! one has to be told of `x` and one of `y`, and of a third cell `z` nothing has to stand behind any of them. A lock
//! carries all three: each is joined with what the other tasks left there under the mutex, and is no longer fresh.
#![tactic(auto)]

mod laws;

pub use laws::{fronts_decide, rows_frame, rows_look_where_they_may};
