//! The equations of one body as code: what is computed once of its graph and its configured graph, and the system of
//! equations over a store, of which a least table is found. How a least table is found, and what several bodies give
//! together, this crate does not know.
//!
//! In `int x; __task(1) void t(void) { while (x < 9) x = x + 1; }` the head is the place before the test, and the cell
//! of `x` is written in its region. Over the empty store, from the state in which `x` is 0, the copy of the edge that
//! stores leads to the state in which `x` is 1, and contributes {1} to the weak entry of `x`.
#![tactic(auto)]

mod facts;
mod laws;
mod states;
mod systems;

pub use facts::BodyFacts;
pub use laws::facts_make_bodies;
pub use states::BodyState;
pub use systems::{BodyOverStore, BodySystem};
pub use transfer_mem::{is_reachable, is_shared_cell, open_cell, pointer_value};
