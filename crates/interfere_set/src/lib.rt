//! The store that the tasks share: what each task wrote to a cell, by the mutexes that it held, and what it left
//! there when it unlocked one; and what another task sees of this at a read and takes over at a lock. It knows
//! priorities as numbers, and no state and no edge.
//!
//! Task 1 of priority 1 wrote 0 to the cell 0 with no mutex held. Task 0 of priority 2 reads it: where the cell is
//! not fresh it sees 0; where it is fresh, that is, where task 0 wrote it since it last waited, task 1 cannot have
//! run since, and it sees nothing.
#![tactic(auto)]

mod laws;
mod reads;
mod stores;

pub use laws::{handed_entries, store_heights, visible_entries};
pub use reads::{seen_at_read, taken_at_lock};
pub use stores::{Nested, Store};
