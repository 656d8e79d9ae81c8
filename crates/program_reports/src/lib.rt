//! The report of a program's tables and a store: each class of errors that they do not exclude, at its place, and the
//! places of each two accesses that may race. Where tables and a store come from, this crate does not know.
//!
//! In `int x; __task(1) void a(void) { x = 8 / x; } __task(2) void b(void) { x = 1; }` the least tables have `x` at 0
//! and at 1 where `a` divides: the report has a DIV at the sign `/`, and a RACE at each access to `x`.
#![tactic(auto)]

mod bodies;
mod copies;
mod judging;
mod laws;
mod places;

pub use bodies::body_parts;
pub use copies::{BodyParts, operation_of, way_of};
pub use judging::judge;
pub use laws::reports_are_one;
pub use places::place_of;
pub use post_recheck::{
    BodyOverStore, BodyState, Checked, ProgramFacts, Solution, Table, body_over_store, recheck,
    recheck_in_order,
};
