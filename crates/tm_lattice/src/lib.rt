//! What every layer of the analysis shares: lattices with a rounding by marks, tables that are lattices entry by
//! entry, and the rounds in which the tasks of a program pass over one store. It knows of no C: values, states and
//! stores are those of the crates above, which bring them with their laws.
//!
//! The table of `3 ↦ a` and `7 ↦ b`, joined at 7 with `c`, is the table of `3 ↦ a` and `7 ↦ b ⊔ c`, and it rose
//! exactly where `c` is not below `b`. Two tasks add to a store that begins at bottom: whichever publishes first and
//! however old the store was that it read, once no pass adds more the store is the same.
#![tactic(auto)]

mod lattices;
mod memory;
mod passers;
mod rounds;
mod table_laws;
mod tables;
mod warm_passers;

pub use lattices::Lattice;
pub use memory::NoMemory;
pub use passers::Passer;
pub use rounds::{every_schedule, rounds_climb};
pub use table_laws::{rounding_at_keys, table_heights};
pub use tables::Keyed;
pub use warm_passers::Warm;
