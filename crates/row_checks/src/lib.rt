//! The check of an edge where it was applied: whether it looked at, touched and carried no cells but those that it may,
//! and made no other copies, fresh cells and pending mutexes than those that there may be. It reads the cells that the
//! edge reached and what the store hands over, and no state: where it says yes, `sparse_rows` says what the edge leaves as
//! it is. Which cells an edge may touch, and why, it does not know: that is handed over as lists, and need not be right.
//!
//! And what the edges that lock, unlock, wait and probe make of one cell that they carry, whatever else stands in the
//! state: what the others left there under a mutex is taken over, the cell is no longer fresh, or a mutex is no longer
//! pending there. The store is looked up by task, mutex and cell, and no other cell is looked at.
//!
//! In `*p = 1;`, where the edge may touch the cells of `x` and `y`, of which each may be fresh, and the address leads to
//! `x` alone, the check says yes. Where the address leads to `x` and `z` it says no, and then nothing is known of what
//! the edge leaves as it is. At a lock of mutex 0 a shared cell that is {1} and fresh, where another task left {2} under
//! mutex 0 and a third {3} under mutex 1, becomes {1, 2} and is no longer fresh; at an unlock of mutex 0 it stays {1} and
//! fresh, and mutex 0 is no longer pending there.
#![tactic(auto)]

mod carries;
mod checks;
mod handed;
mod laws;
mod traces;

pub use carries::carried_cell;
pub use checks::is_checked;
pub use laws::passing_edges_are_checked;
pub use traces::{Traces, is_cell_traced, is_traced};
