//! One task, analysed by itself over what the others wrote: its least table, and what it adds to the store. A table is
//! found by the slots of the body where that succeeds, a later one from what stood in them where that was kept; else by
//! the work list, a later one from the earlier table on. A program with its initial section analysed once is a program
//! whose tasks pass over one store, so that `store_core` and `thread_workers` can run it. How often tasks pass, and in
//! which order, this crate does not know.
//!
//! In `int x; int y; __task(1) void a(void) { x = 1; } __task(1) void b(void) { y = x; }` the pass of `b` over the
//! empty store adds {0} for `y`. That of `a` adds {1} for `x`, and over the store with this `b` adds {0, 1} for `y`.
#![tactic(auto)]

mod analyses;
mod body_tables;
mod equality;
mod kept;
mod kept_passes;
mod passes;
mod program_slots;
mod starts;
mod store_uses;
mod wholes;

pub use analyses::{Analysis, SectionTable};
pub use kept::Kept;
pub use kept_passes::{first_pass, next_pass};
pub use passes::{TaskPass, local, local_from};
pub use starts::TaskStart;
pub use wholes::closed_stores_are_least;
