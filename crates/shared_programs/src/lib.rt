//! That programs, what is computed of them once, states and stores may be sent to other threads, and be shared by them.
//! What threads do with them, this crate does not know; it holds no code but laws. A crate above that lends a program
//! to threads cites its lemmas.
//!
//! In `int x; __task(1) void t(void) { if (x) { x = 1; } }` the statement `if` holds the statement `x = 1;` in a box,
//! so the type of statements reaches itself: that its values may be shared is shown for each layer from the same for
//! the layers below.
#![tactic(auto)]

mod laws;

pub use laws::{
    facts_cross_threads, files_cross_threads, programs_cross_threads, stores_cross_threads,
};
pub use program_systems::{
    BodyOverStore, BodyState, BodySystem, ProgramFacts, body_over_store, section_entry,
    task_entries,
};
