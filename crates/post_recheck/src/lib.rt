//! Whether tables and a store are a solution of a program's equations, found without regard to where they come from:
//! the bodies are checked side by side, each edge is applied once for its state and once for what it contributes, and
//! the answer names the first edge that is not covered. How a solution is found, this crate does not know.
//!
//! In `int x; __task(1) void t(void) { x = 1; }` the least table has `x` at 0 at the entry and at 1 behind the store.
//! With {0} behind the store in place of {1}, the edge of the store is the first that is not covered; with an empty
//! store, the tables are covered and the store is not.
#![tactic(auto)]

mod answers;
mod bodies;
mod checking;
mod laws;
mod side_by_side;
mod solutions;

pub use checking::{recheck, recheck_in_order};
pub use laws::{checks_are_one, least_tables_are_solutions};
pub use shared_programs::{BodyOverStore, BodyState, ProgramFacts, body_over_store};
pub use solutions::{Checked, Solution, Table};
